// The first order of a run with a wanted end, going forward: an output first, wherever that end can still be reached from there.
#![tactic(auto)]

ghost use Rattle.std.specs.Prelude.{◌+◌, ◌-◌, ◌^◌, ◌≤◌, ◌<◌, ◌≡◌, length};
ghost use Rattle.laws.specs.Filled.{Filled};
ghost use Rattle.outcomes.specs.Numbers.{number_told};
ghost use Rattle.matcher.specs.Sets.{Fits};
ghost use Rattle.judged_rest.specs.Lent.{lent};
ghost use Rattle.first_order.specs.Search.{pair, next_from, kind_in, Within, Found, number_at, Written};
ghost use Rattle.first_order.specs.Search;

use judged_rest::Reached;
use outcomes::Verdict;
use table::Steps;

// The first place from `from` on that has an output, or an input; the run's length where there is none.
fn next(output: &[bool], wanted: bool, from: usize) -> usize
    requires { from ≤ length output.now }
    ensures { (result ≡ next_from (kind_in output.now wanted) from (length output.now - from)) × (result ≤ length output.now) }
{
    match output[from..].iter().position(|kind| *kind == wanted) {
        Some(behind) => from + behind,
        None => output.len(),
    }
}

// By the verdict on what follows: some explanation breaks, or some does not.
fn reaches(breaking: bool, verdict: Verdict) -> bool
    ensures { result ≡ Search.reaches breaking (number_told verdict) }
{
    if breaking {
        return verdict != Verdict::Clear;
    }
    verdict == Verdict::Clear || verdict == Verdict::Suspect
}

// The order with the line at place k behind it.
fn with_line(steps: &Steps<'_>, from: Reached, output: bool, action: u8, k: usize) -> Reached
    requires { Fits steps.now.property from.cut × (k + 1 < 2 ^ 64) }
    ensures { (result ≡ Search.with_line steps.now.property from output action k) × Fits steps.now.property result.cut }
{
    let cut = matcher::moved(steps, from.cut, output, u64::from(action));
    if output {
        Reached {
            output: k + 1,
            cut,
            ..from
        }
    } else {
        Reached {
            input: k + 1,
            cut,
            ..from
        }
    }
}

// The place of the next line of the order: the output, wherever the wanted end can still be reached behind it.
fn choice(
    steps: &Steps<'_>,
    output: &[bool],
    action: &[u8],
    stamp: &[u64],
    breaking: bool,
    from: Reached,
) -> usize
    requires { Within steps.now.property (lent output.now action.now stamp.now) from }
    ensures { result ≡ Search.choice steps.now.property (lent output.now action.now stamp.now) breaking from }
{
    let x = next(output, false, from.input);
    let y = next(output, true, from.output);
    if stamp.len() <= y {
        return x;
    }
    if stamp.len() <= x {
        return y;
    }
    if stamp[x] + 2 * steps.property.ub < stamp[y] {
        return x;
    }
    let then = with_line(steps, from, true, action[y], y);
    let end = judged_rest::judge(steps, output, action, stamp, then);
    // Behind a refusal the number told is 0, that of clear.
    let verdict = end.map_or(Verdict::Clear, |reason| reason.verdict);
    if reaches(breaking, verdict) { y } else { x }
}

// The numbers of the lines of the first order with the wanted end.
fn order(
    steps: &Steps<'_>,
    output: &[bool],
    action: &[u8],
    stamp: &[u64],
    breaking: bool,
    numbers: &mut [u64],
)
    requires room { length stamp.now ≤ length numbers.old }
    requires found { Found steps.now.property (lent output.now action.now stamp.now) breaking }
    ensures { Filled 0 0 (length stamp.now) (number_at steps.now.property (lent output.now action.now stamp.now) breaking)
        numbers.old numbers.new }
{
    let mut here = Reached {
        input: 0,
        output: 0,
        cut: matcher::start(),
    };
    for number in numbers[..stamp.len()].iter_mut() {
        let k = choice(steps, output, action, stamp, breaking, here);
        here = with_line(steps, here, output[k], action[k], k);
        *number = k as u64 + 1;
    }
}

// An order and its moments.
pub fn write(
    steps: &Steps<'_>,
    output: &[bool],
    action: &[u8],
    stamp: &[u64],
    breaking: bool,
    numbers: &mut [u64],
    moments: &mut [i64],
)
    requires found { Found steps.now.property (lent output.now action.now stamp.now) breaking }
    requires stamp_in_bounds { (length stamp.now ≤ length numbers.old) × (length stamp.now ≤ length moments.old) }
    ensures { Written steps.now.property (lent output.now action.now stamp.now) breaking
        (pair numbers.old moments.old) (pair numbers.new moments.new) }
{
    order(steps, output, action, stamp, breaking, numbers);
    order_moments::earliest(steps.property, output, stamp, numbers, moments);
}
