// A line on lent rows: a walk lends them from record to record.
#![tactic(auto)]

ghost use Rattle.std.specs.Prelude.{◌≡◌, false};
ghost use Rattle.meaning.specs.Calls.{Call};
ghost use Rattle.held.specs.Held.{Closes};
ghost use Rattle.cuts.specs.Steps.{line_of};
ghost use Rattle.session_record.specs.Lent.{Advanced};
ghost use Rattle.session_record.specs.Step.{answer_in};
ghost use Rattle.session_record.specs.Loan.{memory_in};

use answers::{blinded, open_after, refused};
use clock::{beyond, ticked};
use held::Status;
use limits::MOST_OPEN;
use outcomes::{Refusal, Verdict};
use property::Line;
use run_line::{begin_with, run_on};
use session_record::{Answer, Lent};

// How many of the open inputs have closed at a stamp.
fn closed(lent: &Lent<'_>, stamp: u64) -> usize
    requires { lent.now.status.clock.blind ≡ false }
    ensures { Closes lent.now.steps.now.property.ub lent.now.rows.now lent.now.status.span stamp result }
{
    held::closed_count(lent.steps.property.ub, lent.rows, lent.status.span, stamp)
}

// A line.
pub fn line(lent: &mut Lent<'_>, line: Line) -> Answer
    ensures advanced { Advanced (memory_in lent.old) (Call.line (line_of line.output line.action line.stamp)) (answer_in result) (memory_in lent.new) }
    ensures same_rows { lent.new.rows.ghost_name ≡ lent.old.rows.ghost_name }
    ensures same_steps { lent.new.steps ≡ lent.old.steps }
{
    let Status { span, clock } = lent.status;
    let stamp = line.stamp;
    refused(line.action, clock, stamp)?;
    if !clock.blind {
        let gone = closed(lent, stamp);
        if MOST_OPEN < open_after(span.count, gone, line.output) {
            return Err(Refusal::TooManyOpen);
        }
        let after = ticked(clock, stamp, false);
        let reply = run_on(lent.steps, lent.rows, span, after, gone, line);
        lent.status = reply.status;
        return Ok(reply.told);
    }
    if !beyond(lent.steps.property, clock, stamp) {
        let reply = blinded(Verdict::Blind, ticked(clock, stamp, true));
        lent.status = reply.status;
        return Ok(reply.told);
    }
    let reply = begin_with(lent.steps, lent.rows, ticked(clock, stamp, false), line);
    lent.status = reply.status;
    Ok(reply.told)
}
