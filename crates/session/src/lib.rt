// The calls on a session, by value: fresh, line, gap mark.
#![tactic(auto)]

ghost use Rattle.std.specs.Prelude.{◌≡◌, Err};
ghost use Rattle.meaning.specs.Calls.{Call, mark_at};
ghost use Rattle.cuts.specs.Steps.{line_of};
ghost use Rattle.session_record.specs.Step.{fresh_of, stepped_of, stepping_in};

use outcomes::{Refusal, Verdict};
use property::{Line, Property};
use session_record::{Lent, Session, Stepped, Told, blank, made, rows_of, unfit};
use table::Steps;

// "a session given comes back as it was"
fn unmoved(s: Session, refusal: Refusal) -> Stepped
    ensures { result ≡ record { answer = Err refusal; session = s } }
{
    Stepped {
        answer: Err(refusal),
        session: s,
    }
}

// A fresh session.
pub fn fresh(p: Property) -> Stepped
    ensures { stepping_in result ≡ fresh_of p }
{
    let empty = Told {
        verdict: Verdict::Clear,
        open_count: 0,
    };
    match property::refused(p) {
        Ok(()) => Stepped {
            answer: Ok(empty),
            session: blank(p, matcher::start()),
        },
        Err(refusal) => unmoved(blank(property::none(), matcher::none()), refusal),
    }
}

// A line: an output or an input, the number of its action, its stamp.
pub fn line(s: Session, output: bool, action: u8, stamp: u64) -> Stepped
    ensures { stepping_in result ≡ stepped_of s (Call.line (line_of output action stamp)) }
{
    if unfit(s) {
        return unmoved(s, Refusal::OutOfRange);
    }
    let mut table = [0; 4257];
    table::fill(s.property, &mut table);
    let steps = Steps::new(s.property, &table);
    let mut rows = rows_of(s);
    let mut lent = Lent {
        steps: &steps,
        rows: &mut rows,
        status: s.shared.status,
    };
    let line = Line {
        output,
        action,
        stamp,
    };
    let told = match in_place::line(&mut lent, line) {
        Ok(told) => told,
        Err(refusal) => return unmoved(s, refusal),
    };
    Stepped {
        answer: Ok(told),
        session: lent.made(),
    }
}

// A gap mark: the number of lost lines, 63 for more or unknown, and its stamp.
pub fn mark(s: Session, lost: u8, stamp: u64) -> Stepped
    ensures { stepping_in result ≡ stepped_of s (mark_at lost stamp) }
{
    if unfit(s) {
        return unmoved(s, Refusal::OutOfRange);
    }
    let rows = rows_of(s);
    match gap_mark::mark(s.property, &rows, s.shared.status, lost, stamp) {
        Ok(reply) => Stepped {
            answer: Ok(reply.told),
            session: made(s.property, &rows, reply.status),
        },
        Err(refusal) => unmoved(s, refusal),
    }
}
