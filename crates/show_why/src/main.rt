// The program of document 02, CR 6: reads a packed property and then records from standard input, up to the end record and no
// further, and writes why the run that is open there has its verdict. Of the log it keeps that run alone.
#![tactic(auto)]

ghost use Rattle.std.specs.Prelude.{◌+◌, ◌^◌, ◌≤◌, ◌<◌, ◌≡◌};
ghost use Rattle.reasons.specs.Reasons.{most_lines};
ghost use Rattle.meaning.specs.Numbers.{property_refusal};
ghost use Rattle.property.specs.Meant.{meant};
ghost use Rattle.session_record.specs.Loan.{memory_in};
ghost use Rattle.one_record.specs.Doing.{doing_in};
ghost use Rattle.judged_rest.specs.Judged.{reason_in};
ghost use Rattle.open_run.specs.Kept.{Next, Open};
ghost use Rattle.show_why.specs.Told.{pair_in, Explained};

use judged_rest::Reason;
use limits::MOST_LINES;
use one_record::Did;
use open_run::Kept;
use outcomes::{Refusal, Verdict};
use property::Property;
use session_record::Lent;
use std::io::{Read, Write};
use table::Steps;

// Reads one record.
fn next<R: Read>(input: &mut R, lent: &mut Lent<'_>, kept: &mut Kept) -> Result<Did, Refusal>
    requires { kept.old.count + 1 < 2 ^ 64 }
    ensures { Next (memory_in lent.old) kept.old (doing_in result) (memory_in lent.new) kept.new }
{
    let mut bytes = [0u8; 6];
    let got = listing_shell::read_full(input, &mut bytes);
    let read = record_form::read_record(&bytes[..got], lent.status.clock.latest);
    open_run::take(lent, kept, read)
}

// The one line after a refusal.
fn stop<W: Write>(out: &mut W, refusal: Refusal) {
    listing_shell::write(out, reason_text::stop(u64::from(refusal)));
}

// An order of the run: the numbers of its lines, and their moments.
#[derive(Clone, Copy)]
struct Order {
    pub numbers: [u64; 256],
    pub moments: [i64; 256],
}

impl Order {
    fn new() -> Self {
        Order {
            numbers: [0; 256],
            moments: [0; 256],
        }
    }

    // Writes it, a line at a time, and answers whether it could be written.
    fn write<W: Write>(&self, out: &mut W, count: usize) -> bool
        requires { count ≤ most_lines }
    {
        for (number, moment) in self.numbers[..count].iter().zip(&self.moments) {
            if !listing_shell::write(out, reason_text::placed(*number, *moment)) {
                return false;
            }
        }
        true
    }
}

// Writes what was found of the run that is open, which has so many lines. The session that has it open is lent for the promise alone, after
// so many records.
fn found<W: Write>(
    out: &mut W,
    lent: &Lent<'_>,
    taken: u64,
    answer: Result<Reason, Refusal>,
    first: &Order,
    second: &Order,
    count: usize,
)
    requires { Explained (memory_in lent.now) taken count (reason_in answer) (pair_in first.now) (pair_in second.now) }
{
    match answer {
        Ok(reason) => {
            if listing_shell::write(
                out,
                reason_text::reached(u64::from(reason.verdict), reason.line),
            ) && first.write(out, count)
                && reason.verdict == Verdict::Suspect
            {
                second.write(out, count);
            }
        }
        Err(refusal) => stop(out, refusal),
    }
}

// Writes why the run that is open has its verdict.
fn tell<W: Write>(out: &mut W, lent: &Lent<'_>, taken: u64, kept: &Kept)
    requires { Open (memory_in lent.now) taken kept.now }
{
    let count = kept.count;
    if MOST_LINES < count {
        stop(out, Refusal::TooManyLines);
        return;
    }
    let mut first = Order::new();
    let mut second = Order::new();
    let answer = why::explain(
        lent.steps.property,
        &kept.outputs[..count],
        &kept.actions[..count],
        &kept.stamps[..count],
        &mut first.numbers,
        &mut first.moments,
        &mut second.numbers,
        &mut second.moments,
    );
    found(out, lent, taken, answer, &first, &second, count);
}

// Takes the records. The table is made once, and the rows are lent from record to record. A proved loop has to end, and nothing says
// that the input does: the loop counts its turns, up to a number that no run comes to.
fn records<R: Read, W: Write>(input: &mut R, out: &mut W, p: Property)
    requires { property_refusal (meant p) ≡ 0 }
{
    let mut table = [0; 4257];
    table::fill(p, &mut table);
    let steps = Steps::new(p, &table);
    let fresh = session::fresh(p).session;
    let mut rows = session_record::rows_of(fresh);
    let mut lent = Lent {
        steps: &steps,
        rows: &mut rows,
        status: fresh.shared.status,
    };
    let mut kept = Kept::new();
    for turns in 0..u64::MAX {
        let did = match next(input, &mut lent, &mut kept) {
            Ok(did) => did,
            Err(refusal) => {
                stop(out, refusal);
                return;
            }
        };
        if let Did::Ended = did {
            if lent.status.clock.blind {
                listing_shell::write(out, reason_text::blind());
                return;
            }
            // Each turn before this one took a record.
            tell(out, &lent, turns, &kept);
            return;
        }
    }
}

fn main(rt: HostRuntime) {
    let mut input = rt.stdin();
    let mut out = rt.stdout();
    let mut form = [0u8; 71];
    let got = listing_shell::read_form(&mut input, &mut form);
    match property_form::read_property(&form[..got]) {
        Ok(p) => records(&mut input, &mut out, p),
        Err(refusal) => stop(&mut out, refusal),
    }
}
