// A record on lent rows: the printing program lends them from record to record.
ghost use Rattle.std.specs.Prelude.{◌≡◌, true, false};
ghost use Rattle.record_form.specs.Record.{read_case};
ghost use Rattle.trace_form.specs.ReadAs.{case_as};
ghost use Rattle.session_record.specs.Loan.{memory_in};
ghost use Rattle.one_record.specs.Doing.{doing_in};
ghost use Rattle.printed.specs.Lent.{added_of, Adds};

use line_text::Line;
use one_record::Did;
use outcomes::{Refusal, Verdict};
use record_form::Record;
use session_record::Lent;

// What a record adds to the listing.
#[derive(Clone, Copy)]
pub struct Added {
    pub text: Line,
    // The number of records taken so far.
    pub count: u64,
    // The listing goes on: this was not its last line. A flag: text and count are there in both cases.
    pub more: bool,
}

// The listing goes on behind this line, with one record more.
fn next(count: u64, text: Line) -> Added
    ensures { result ≡ record { text = text; count = count; more = true } }
{
    Added {
        text,
        count,
        more: true,
    }
}

// The listing ends with this line.
fn last(count: u64, text: Line) -> Added
    ensures { result ≡ record { text = text; count = count; more = false } }
{
    Added {
        text,
        count,
        more: false,
    }
}

// What a record adds, by what it did. The answer to a line has the verdict and the number open after it. A gap shows its number of lost
// lines in place of an action; what stands after it is blind, with none open.
fn adds(did: Result<Did, Refusal>, count: u64) -> Added
    ensures { result ≡ added_of (doing_in did) count }
{
    let number = count.wrapping_add(1);
    match did {
        Ok(Did::Line(line, told)) => {
            let verdict = u64::from(told.verdict);
            let text = printout::line(
                number,
                u8::from(line.output),
                line.action,
                line.stamp,
                verdict,
                told.open_count,
            );
            next(number, text)
        }
        Ok(Did::Gap(lost, stamp, _)) => next(
            number,
            printout::line(number, 2, lost, stamp, u64::from(Verdict::Blind), 0),
        ),
        Ok(Did::Ended) => last(count, printout::end(count)),
        Err(refusal) => last(count, printout::stop(count, u64::from(refusal))),
    }
}

// A record as it was read, after `count` that were taken.
pub fn record(lent: &mut Lent<'_>, count: u64, read: Result<Record, Refusal>) -> Added
    ensures adds { Adds (memory_in lent.old) count (case_as (read_case read)) result (memory_in lent.new) }
    ensures same_rows { lent.new.rows.ghost_name ≡ lent.old.rows.ghost_name }
    ensures same_steps { lent.new.steps ≡ lent.old.steps }
{
    let did = one_record::take(lent, read);
    adds(did, count)
}
