// The lines of a run that are not yet in an order, judged from the state that the order has reached. A run is lent as three lists: for each
// line whether it is an output, its action's number, its stamp.
#![tactic(auto)]

ghost use Rattle.std.specs.Prelude.{◌+◌, ◌^◌, ◌<◌, ◌≡◌, cond, length, Ok};
ghost use Rattle.outcomes.specs.Numbers.{number_told};
ghost use Rattle.matcher.specs.Sets.{Fits};
ghost use Rattle.cuts.specs.Steps.{line_of};
ghost use Rattle.session_record.specs.Loan.{memory_in};
ghost use Rattle.judged_rest.specs.Lent.{lent};
ghost use Rattle.judged_rest.specs.Judged.{reason_in, told_then, Turned, judged};
ghost use Rattle.judged_rest.specs.Judged;

use held::Status;
use matcher::Cut;
use outcomes::{Refusal, Verdict};
use property::Line;
use session_record::Lent;
use table::Steps;

// The verdict, and the line after which it was first told.
#[derive(Clone, Copy)]
pub struct Reason {
    pub verdict: Verdict,
    pub line: u64,
}

// How far an order has come: every input before place `input` stands in it, and every output before place `output`. What the
// matcher remembers of it is the one state in `cut`.
#[derive(Clone, Copy)]
pub struct Reached {
    pub input: usize,
    pub output: usize,
    pub cut: Cut,
}

// The line at place k is not yet in the order.
fn waits(from: Reached, k: usize, output: bool) -> bool
    ensures { result ≡ Judged.waits from k output }
{
    if output {
        from.output <= k
    } else {
        from.input <= k
    }
}

// The verdict after the line at place k: another than before was first told there.
fn told(before: Reason, verdict: Verdict, k: usize) -> Reason
    requires { k + 1 < 2 ^ 64 }
    ensures { reason_in (Ok result) ≡ told_then (reason_in (Ok before)) (number_told verdict) k }
{
    if before.verdict == verdict {
        return before;
    }
    Reason {
        verdict,
        line: k as u64 + 1,
    }
}

// The line at place k on lent rows, if it waits.
fn turn(
    lent: &mut Lent<'_>,
    from: Reached,
    before: Reason,
    line: Line,
    k: usize,
) -> Result<Reason, Refusal>
    requires { k + 1 < 2 ^ 64 }
    ensures { Turned from line.output (line_of line.output line.action line.stamp) k
        (memory_in lent.old) (reason_in (Ok before)) (memory_in lent.new) (reason_in result) }
{
    if !waits(from, k, line.output) {
        return Ok(before);
    }
    let answer = in_place::line(lent, line)?;
    Ok(told(before, answer.verdict, k))
}

// Judges the lines that are not yet in the order. Behind a refusal nothing is judged.
pub fn judge(
    steps: &Steps<'_>,
    output: &[bool],
    action: &[u8],
    stamp: &[u64],
    from: Reached,
) -> Result<Reason, Refusal>
    requires fits { Fits steps.now.property from.cut }
    requires output_len { (length output.now ≡ length stamp.now) × (length action.now ≡ length stamp.now) }
    ensures { reason_in result ≡ (judged steps.now.property (lent output.now action.now stamp.now) from (length stamp.now)).told }
{
    let mut rows = [[0u64; 65]; 4];
    let span = rows::spanning(0);
    cuts::put_cut(&mut rows, span, 0, 0, from.cut);
    let mut lent = Lent {
        steps,
        rows: &mut rows,
        status: Status {
            span,
            clock: clock::fresh(),
        },
    };
    let mut reason = Reason {
        verdict: matcher::verdict(from.cut),
        line: 0,
    };
    for k in 0..stamp.len() {
        let line = Line {
            output: output[k],
            action: action[k],
            stamp: stamp[k],
        };
        reason = turn(&mut lent, from, reason, line, k)?;
    }
    Ok(reason)
}
