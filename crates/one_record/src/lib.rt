// A record on lent rows: as it was read, on the session.
#![tactic(auto)]

ghost use Rattle.std.specs.Prelude.{◌≡◌, Ok, Err, MatchResult};
ghost use Rattle.meaning.specs.Calls.{mark_at};
ghost use Rattle.record_form.specs.Record.{read_case};
ghost use Rattle.trace_form.specs.ReadAs.{case_as};
ghost use Rattle.session_record.specs.Lent.{memory, Advanced};
ghost use Rattle.session_record.specs.Step.{answer_in};
ghost use Rattle.session_record.specs.Loan.{memory_in};
ghost use Rattle.one_record.specs.Takes.{Takes};
ghost use Rattle.one_record.specs.Doing.{doing_in};

use answers::Reply;
use outcomes::Refusal;
use property::Line;
use record_form::Record;
use session_record::{Lent, Told};

// What a record did that was not refused.
#[derive(Clone, Copy)]
pub enum Did {
    // A line was taken, and this was told.
    Line(Line, Told),
    // So was a gap mark, with its number of lost lines and its stamp.
    Gap(u8, u64, Told),
    // It is the end of the trace.
    Ended,
}

// A gap mark on what is lent, which it only reads.
fn marked(lent: &Lent<'_>, lost: u8, stamp: u64) -> Result<Reply, Refusal>
    ensures { MatchResult result
        (λ reply. Advanced (memory_in lent.now) (mark_at lost stamp) (answer_in (Ok reply.told)) (memory lent.now.steps.now.property lent.now.rows.now reply.status))
        (λ refusal. Advanced (memory_in lent.now) (mark_at lost stamp) (answer_in (Err refusal)) (memory_in lent.now)) }
{
    gap_mark::mark(lent.steps.property, lent.rows, lent.status, lost, stamp)
}

// A line or a gap mark on the session. An end and a refusal leave it as it was.
pub fn take(lent: &mut Lent<'_>, read: Result<Record, Refusal>) -> Result<Did, Refusal>
    ensures takes { Takes (memory_in lent.old) (case_as (read_case read)) (doing_in result) (memory_in lent.new) }
    ensures same_rows { lent.new.rows.ghost_name ≡ lent.old.rows.ghost_name }
    ensures same_steps { lent.new.steps ≡ lent.old.steps }
{
    match read? {
        Record::Input(action, stamp) => {
            let input = Line {
                output: false,
                action,
                stamp,
            };
            Ok(Did::Line(input, in_place::line(lent, input)?))
        }
        Record::Output(action, stamp) => {
            let output = Line {
                output: true,
                action,
                stamp,
            };
            Ok(Did::Line(output, in_place::line(lent, output)?))
        }
        Record::Gap(lost, stamp) => {
            let reply = marked(lent, lost, stamp)?;
            lent.status = reply.status;
            Ok(Did::Gap(lost, stamp, reply.told))
        }
        Record::End(_) => Ok(Did::Ended),
    }
}
