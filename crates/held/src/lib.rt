// The open inputs, which all properties of a log share: their stamps in row 0 and the numbers of their actions in row 1; how many have closed
// at a stamp, one more.
#![tactic(auto)]

ghost use Rattle.std.specs.Prelude.{ℕ, suc, ◌≤◌, ◌<◌, ◌≡◌, cond, ltb};
ghost use Rattle.meaning.specs.Limits.{last_bound, last_stamp};
ghost use Rattle.rows.specs.Rows.{Room, word};
ghost use Rattle.held.specs.Held.{with_input, Closes, stamps_fall};

use clock::Clock;
use rows::{Span, Words};

// What stands beside the rows: which of their places are in use, and the clock.
#[derive(Clone, Copy)]
pub struct Status {
    pub span: Span,
    pub clock: Clock,
}

// What all properties share: the stamps of the open inputs, the numbers of their actions, and what stands beside them.
#[derive(Clone, Copy)]
pub struct Shared {
    pub held: [u64; 65],
    pub acts: [u64; 65],
    pub status: Status,
}

// How many of the open inputs, from the first, have closed at a stamp: "open at stamp T if its stamp + 2·UB ≥ T".
pub fn closed_count(ub: u64, rows: &[Words], span: Span, stamp: u64) -> usize
    requires { (ub ≤ last_bound) × Room rows.now span × ((i : ℕ) → i < span.count → word rows.now span 0 i ≤ last_stamp) }
    ensures { Closes ub rows.now span stamp result }
{
    let wide = 2 * ub;
    (0..span.count)
        .find(|&i| stamp <= rows::word(rows, span, 0, i) + wide)
        .unwrap_or(span.count)
}

// A new input comes last.
pub fn append(rows: &mut [Words], span: Span, action: u64, stamp: u64)
    requires { Room rows.old span }
    ensures { rows.new ≡ with_input rows.old span action stamp }
{
    rows::put(rows, span, 0, span.count, stamp);
    rows::put(rows, span, 1, span.count, action);
}

// The stamp that a held one may not be above.
fn next_stamp(rows: &[Words], span: Span, i: usize, latest: u64) -> u64
    requires { Room rows.now span × (i < span.count) }
    ensures { result ≡ cond (ltb (suc i) span.count) (word rows.now span 0 (suc i)) latest }
{
    if i + 1 < span.count {
        rows::word(rows, span, 0, i + 1)
    } else {
        latest
    }
}

// Held stamps out of order or past the latest.
pub fn falls(rows: &[Words], span: Span, latest: u64) -> bool
    requires { Room rows.now span }
    ensures { result ≡ stamps_fall rows.now span latest }
{
    (0..span.count).any(|i| next_stamp(rows, span, i, latest) < rows::word(rows, span, 0, i))
}
