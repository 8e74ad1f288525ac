// One line of a run on lent rows. What belongs to one property is two rows: the two words of each cut, one before each open input and one
// after all. What all properties share, the open inputs, is in `held`.
#![tactic(auto)]

ghost use Rattle.std.specs.Prelude.{◌+◌, ◌-◌, ◌*◌, ◌≤◌, ◌<◌, ◌≡◌, false, length};
ghost use Rattle.meaning.specs.Limits.{last_stamp};
ghost use Rattle.meaning.specs.Matcher.{some_to};
ghost use Rattle.outcomes.specs.Numbers.{verdict_meant};
ghost use Rattle.property.specs.declared.Property.{Property};
ghost use Rattle.matcher.specs.Sets.{Fits};
ghost use Rattle.matcher.specs.Sets;
ghost use Rattle.rows.specs.Rows.{Room};
ghost use Rattle.held.specs.Held.{Closes};
ghost use Rattle.cuts.specs.Steps.{line_of, front_after, front_says};
ghost use Rattle.cuts.specs.Fronts.{cut_at, with_cut, front_of, Usable, Holds, Swept, SweptOne, Appended};

use matcher::Cut;
use outcomes::Verdict;
use rows::{Span, Words};
use table::Steps;

// "there are never more than sixty-five cuts to hold": the matched lengths of each as a mask, and the armed ones beside it.
#[derive(Clone, Copy)]
pub struct Row {
    pub masks: [u64; 65],
    pub armed: [u64; 65],
}

// What cut i of property j stores.
fn cut_at(rows: &[Words], span: Span, j: usize, i: usize) -> Cut
    requires { Room rows.now span × (3 + 2 * j < length rows.now) × (i ≤ 64) }
    ensures { result ≡ cut_at rows.now span j i }
{
    Cut {
        mask: rows::word(rows, span, 2 + 2 * j, i),
        armed: rows::word(rows, span, 3 + 2 * j, i),
    }
}

pub fn put_cut(rows: &mut [Words], span: Span, j: usize, i: usize, cut: Cut)
    requires { Room rows.old span × (3 + 2 * j < length rows.old) × (i ≤ 64) }
    ensures { rows.new ≡ with_cut rows.old span j i cut }
{
    rows::put(rows, span, 2 + 2 * j, i, cut.mask);
    rows::put(rows, span, 3 + 2 * j, i, cut.armed);
}

// "a matched length above the sequence's", in the set of some cut.
pub fn strays(rows: &[Words], span: Span, j: usize, n: usize) -> bool
    requires { Room rows.now span × (3 + 2 * j < length rows.now) × (n ≤ 32) }
    ensures { result ≡ some_to span.count (λ i. Sets.stray n (cut_at rows.now span j i)) }
{
    for i in 0..=span.count {
        if matcher::stray(n, cut_at(rows, span, j, i)) {
            return true;
        }
    }
    false
}

// The verdict, read off the last cut.
pub fn verdict(rows: &[Words], span: Span, j: usize) -> Verdict
    requires { Room rows.now span × (3 + 2 * j < length rows.now) }
    ensures { (p : Property) → Fits p (cut_at rows.now span j span.count)
        → verdict_meant result ≡ front_says p (front_of rows.now span j) }
{
    matcher::verdict(cut_at(rows, span, j, span.count))
}

// The new set of the cut after an open input, when an output comes: the output directly behind that input, if the input
// may stand before it, or at an earlier cut, with that input behind it.
fn swept_cut(
    steps: &Steps<'_>,
    action: u64,
    stamp: u64,
    held: u64,
    input: u64,
    before: Cut,
    after: Cut,
) -> Cut
    requires { (held ≤ last_stamp) × Fits steps.now.property before × Fits steps.now.property after }
    ensures { SweptOne steps.now.property action stamp held input before after result }
{
    let behind = matcher::moved(steps, before, false, input);
    if held + 2 * steps.property.lb <= stamp {
        let direct = matcher::moved(steps, after, true, action);
        return matcher::joined(direct, behind);
    }
    behind
}

// An output goes through the cuts of property j. A turn reads and stores at one index alone, so that its place is found once: the open
// input before the next cut is read a turn ahead.
pub fn sweep(steps: &Steps<'_>, rows: &mut [Words], span: Span, j: usize, action: u64, stamp: u64)
    requires { Usable steps.now.property rows.old span j }
    ensures { Swept steps.now.property span j action stamp rows.old rows.new }
{
    let mut cut = matcher::moved(steps, cut_at(rows, span, j, 0), true, action);
    put_cut(rows, span, j, 0, cut);
    let mut held = rows::word(rows, span, 0, 0);
    let mut input = rows::word(rows, span, 1, 0);
    for i in 0..span.count {
        let next = i + 1;
        let after = cut_at(rows, span, j, next);
        cut = swept_cut(steps, action, stamp, held, input, cut, after);
        put_cut(rows, span, j, next, cut);
        held = rows::word(rows, span, 0, next);
        input = rows::word(rows, span, 1, next);
    }
}

// A new input comes last: one more cut of property j behind it.
pub fn append(steps: &Steps<'_>, rows: &mut [Words], span: Span, j: usize, action: u64)
    requires { Usable steps.now.property rows.old span j × (span.count < 64) }
    ensures { Appended steps.now.property span j action rows.old rows.new }
{
    let last = cut_at(rows, span, j, span.count);
    let cut = matcher::moved(steps, last, false, action);
    put_cut(rows, span, j, span.count + 1, cut);
}

// One line of a run, taken: the first `closed` open inputs give their places up, then an output goes through the cuts, or an
// input comes last.
pub fn take_line(
    steps: &Steps<'_>,
    rows: &mut [Words],
    span: Span,
    closed: usize,
    output: bool,
    action: u64,
    stamp: u64,
) -> Span
    requires usable { Usable steps.now.property rows.old span 0 }
    requires closes { Closes steps.now.property.ub rows.old span stamp closed × (stamp ≤ last_stamp) × (output ≡ false → span.count - closed < 64) }
    ensures { Holds steps.now.property (front_after steps.now.property (front_of rows.old span 0) (line_of output action stamp)) rows.new result 0 }
{
    let left = rows::shorter(span, closed);
    if output {
        sweep(steps, rows, left, 0, action, stamp);
        return left;
    }
    append(steps, rows, left, 0, action);
    held::append(rows, left, action, stamp);
    rows::longer(left)
}
