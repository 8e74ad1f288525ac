// What a call on lent rows answers: taken, blind; which refusal of a line or a gap mark holds first; how many are open.
#![tactic(auto)]

ghost use Rattle.std.specs.Prelude.{◌≡◌, cond, ◌+◌, ◌-◌, ◌≤◌, ltb};
ghost use Rattle.meaning.specs.Limits.{last_action, most_open};
ghost use Rattle.meaning.specs.Numbers.{given, first_of};
ghost use Rattle.meaning.specs.Calls.{stamp_refusal};
ghost use Rattle.outcomes.specs.Numbers.{refusal_in, verdict_meant};
ghost use Rattle.cuts.specs.Steps.{verdict_by};
ghost use Rattle.session_record.specs.Lent.{memory, held_in, Ready};
ghost use Rattle.session_record.specs.Loan.{memory_in};
ghost use Rattle.rows.specs.Rows.{none};
ghost use Rattle.clock.specs.Time.{clock_of};

use clock::Clock;
use held::Status;
use limits::LAST_ACTION;
use outcomes::{Refusal, Verdict};
use property::Property;
use rows::Words;
use session_record::{Lent, Told};

// What is told of a call that is taken, and what stands beside the rows after it.
#[derive(Clone, Copy)]
pub struct Reply {
    pub told: Told,
    pub status: Status,
}

// The verdict that stands.
pub fn standing(lent: &Lent<'_>) -> Verdict
    ensures { verdict_meant result ≡ verdict_by lent.now.steps.now.property (held_in (memory_in lent.now)) }
{
    standing_on(lent.steps.property, lent.rows, lent.status)
}

// The same of a property, rows and what stands beside them. The property is there for the contract alone.
pub fn standing_on(p: Property, rows: &[Words], status: Status) -> Verdict
    requires { Ready (memory p rows.now status) }
    ensures { verdict_meant result ≡ verdict_by p (held_in (memory p rows.now status)) }
{
    let Status { span, clock } = status;
    if clock.blind {
        return Verdict::Blind;
    }
    cuts::verdict(rows, span, 0)
}

// No run is open.
pub fn blinded(verdict: Verdict, clock: Clock) -> Reply
    ensures { result ≡ record { told = record { verdict = verdict; open_count = 0 }; status = record { span = none; clock = clock } } }
{
    Reply {
        told: Told {
            verdict,
            open_count: 0,
        },
        status: Status {
            span: rows::spanning(0),
            clock,
        },
    }
}

// Refusal 3, 4 or 5 of a line with its action, or of a gap mark with its number of lost lines.
pub fn refused(number: u8, clock: Clock, stamp: u64) -> Result<(), Refusal>
    ensures { refusal_in result ≡ first_of (given 3 (ltb last_action number)) (stamp_refusal (clock_of clock) stamp) }
{
    if LAST_ACTION < number {
        return Err(Refusal::Number);
    }
    clock::refused(clock, stamp)
}

// The number that is open after a line of a run in which the first `closed` have closed.
pub fn open_after(count: usize, closed: usize, output: bool) -> usize
    requires { (closed ≤ count) × (count ≤ most_open) }
    ensures { result ≡ count - closed + cond output 0 1 }
{
    if output {
        return count - closed;
    }
    count - closed + 1
}
