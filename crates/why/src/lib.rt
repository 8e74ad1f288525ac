// Document 02, CR 6, "Show me why": the orders of a run that are meant, and after which line its verdict was first told. A run is lent as
// three lists: for each line whether it is an output, its action's number, its stamp.
#![tactic(auto)]

ghost use Rattle.judged_rest.specs.Judged.{reason_in};
ghost use Rattle.judged_rest.specs.Lent.{lent};
ghost use Rattle.first_order.specs.Search.{pair};
ghost use Rattle.why.specs.Why.{IsReason};

use judged_rest::{Reached, Reason};
use limits::MOST_LINES;
use outcomes::{Refusal, Verdict};
use property::Property;
use table::Steps;

// The orders of a run: for clear the first explanation in the first two lists, for suspect the first that breaks there and the first
// that does not in the other two, for certain the first that breaks.
// The run stays three lists: their refusal 7, and the theorems and tests that name it, may not change.
pub fn explain(
    p: Property,
    output: &[bool],
    action: &[u8],
    stamp: &[u64],
    numbers: &mut [u64],
    moments: &mut [i64],
    numbers2: &mut [u64],
    moments2: &mut [i64],
) -> Result<Reason, Refusal>
    ensures { IsReason p (lent output.now action.now stamp.now) (reason_in result)
        (pair numbers.old moments.old) (pair numbers2.old moments2.old)
        (pair numbers.new moments.new) (pair numbers2.new moments2.new) }
{
    property::refused(p)?;
    let n = stamp.len();
    if output.len() != n || action.len() != n {
        return Err(Refusal::TooShort);
    }
    let mut table = [0; 4257];
    table::fill(p, &mut table);
    let steps = Steps::new(p, &table);
    let start = Reached {
        input: 0,
        output: 0,
        cut: matcher::start(),
    };
    let reason = judged_rest::judge(&steps, output, action, stamp, start)?;
    if MOST_LINES < n {
        return Err(Refusal::TooManyLines);
    }
    if numbers.len() < n || moments.len() < n || numbers2.len() < n || moments2.len() < n {
        return Err(Refusal::NoRoom);
    }
    let breaking = reason.verdict != Verdict::Clear;
    first_order::write(&steps, output, action, stamp, breaking, numbers, moments);
    if reason.verdict == Verdict::Suspect {
        first_order::write(&steps, output, action, stamp, false, numbers2, moments2);
    }
    Ok(reason)
}
