// The walk: records of a trace, one after the other, on a session.
#![tactic(auto)]

ghost use Rattle.std.specs.Prelude.{◌≡◌, length};
ghost use Rattle.fields.specs.Rest.{Rest};
ghost use Rattle.session_record.specs.Loan.{memory_in};
ghost use Rattle.walk.specs.Walk.{in_numbers, stop_in, walk_of, rest_start};
ghost use Rattle.walk.specs.Lent.{HasGone};

use one_record::Did;
use outcomes::Refusal;
use record_form::RECORD_SIZE;
use session_record::{Lent, Session, rows_of, unfit};
use table::Steps;

// "a budget of 0 to 4,096 records (more counts as 4,096)"
const MOST_RECORDS: usize = 4096;

// How a walk stopped.
#[derive(Clone, Copy)]
pub enum Stop {
    // The given number of records has been taken.
    Budget,
    // At an end record.
    End,
    // At a refusal.
    Refused(Refusal),
}

// What a walk gives back.
#[derive(Clone, Copy)]
pub struct Walked {
    // The number of records taken; an end is not counted.
    pub taken: usize,
    pub stop: Stop,
    // The number of bytes read: those of the records taken, and of the end.
    pub read: usize,
    // The last taken gap's number of lost lines, 0 if none was taken.
    pub lost: u8,
    pub session: Session,
}

// A walk on lent rows: what it did.
#[derive(Clone, Copy)]
pub struct Went {
    pub taken: usize,
    pub stop: Stop,
    pub read: usize,
    pub lost: u8,
}

// A walk on lent rows, with any budget.
pub fn records(lent: &mut Lent<'_>, trace: &[u8], budget: usize) -> Went
    ensures gone { HasGone budget (memory_in lent.old) trace.now result.taken (stop_in result.stop) result.read result.lost (memory_in lent.new) }
    ensures same_rows { lent.new.rows.ghost_name ≡ lent.old.rows.ghost_name }
    ensures same_steps { lent.new.steps ≡ lent.old.steps }
{
    let mut at = 0;
    let mut lost = 0;
    for taken in 0..budget {
        let read = record_form::read_record(&trace[at..], lent.status.clock.latest);
        match one_record::take(lent, read) {
            Ok(did) => match did {
                Did::Line(_, _) => {}
                Did::Gap(number, _, _) => lost = number,
                Did::Ended => {
                    return Went {
                        taken,
                        stop: Stop::End,
                        read: at + RECORD_SIZE,
                        lost,
                    };
                }
            },
            Err(refusal) => {
                return Went {
                    taken,
                    stop: Stop::Refused(refusal),
                    read: at,
                    lost,
                };
            }
        }
        at += RECORD_SIZE;
    }
    Went {
        taken: budget,
        stop: Stop::Budget,
        read: at,
        lost,
    }
}

// Takes records from the front of `trace`, as many as `budget` says or 4,096.
pub fn walk(s: Session, trace: &[u8], budget: usize) -> Walked
    ensures { in_numbers result ≡ walk_of s trace.now budget }
{
    if unfit(s) {
        return Walked {
            taken: 0,
            stop: Stop::Refused(Refusal::OutOfRange),
            read: 0,
            lost: 0,
            session: s,
        };
    }
    let mut table = [0; 4257];
    table::fill(s.property, &mut table);
    let steps = Steps::new(s.property, &table);
    let mut rows = rows_of(s);
    let mut lent = Lent {
        steps: &steps,
        rows: &mut rows,
        status: s.shared.status,
    };
    let went = records(&mut lent, trace, budget.min(MOST_RECORDS));
    if went.taken == 0 {
        return Walked {
            taken: 0,
            stop: went.stop,
            read: went.read,
            lost: went.lost,
            session: s,
        };
    }
    Walked {
        taken: went.taken,
        stop: went.stop,
        read: went.read,
        lost: went.lost,
        session: lent.made(),
    }
}

// What a walk that read so many bytes leaves unread of the caller's own bytes.
pub fn walk_rest(trace: &[u8], read: usize) -> &[u8]
    ensures { Rest (rest_start (length trace.now) read) trace.entry result }
{
    if trace.len() < read {
        return trace;
    }
    &trace[read..]
}
