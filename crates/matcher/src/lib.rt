// What a cut stores: a set of what the matcher may remember there, in two words. No crate above looks inside them.
#![tactic(auto)]

ghost use Rattle.std.specs.Prelude.{ℕ, suc, ◌+◌, ◌^◌, ◌≤◌, ◌<◌, ◌≡◌, cond, get_or};
ghost use Rattle.std.specs.Int.Bits.{bit_or};
ghost use Rattle.meaning.specs.Matcher;
ghost use Rattle.outcomes.specs.Numbers.{verdict_meant};
ghost use Rattle.laws.specs.Bits.{bit};
ghost use Rattle.property.specs.declared.Property.{Property};
ghost use Rattle.property.specs.Meant.{action_of, meant};
ghost use Rattle.matcher.specs.Sets;
ghost use Rattle.matcher.specs.Sets.{set_of, cut_of, Fits, set_verdict, stepped, Arranged, Moved, Joined};

use limits::LAST_ACTION;
use outcomes::Verdict;
use table::{Steps, Table};

// The matched lengths that are not armed as a mask, and the armed word beside it: bit k + 1 is length k, armed, and bit 0 is broken.
#[derive(Clone, Copy)]
pub struct Cut {
    pub mask: u64,
    pub armed: u64,
}

// Nothing matched yet.
pub fn start() -> Cut
    ensures { result ≡ cut_of Matcher.at_start }
{
    Cut { mask: 1, armed: 0 }
}

// The empty set.
pub fn none() -> Cut
    ensures { result ≡ cut_of Matcher.none_of }
{
    Cut { mask: 0, armed: 0 }
}

// The words are those of no set for a sequence of n actions: a matched length above n in one of them.
pub fn stray(n: usize, cut: Cut) -> bool
    requires { n ≤ 32 }
    ensures { result ≡ Sets.stray n cut }
{
    0 < cut.mask >> (n + 1) || 0 < cut.armed >> (n + 2)
}

// The verdict, where the set is that of every explanation.
pub fn verdict(cut: Cut) -> Verdict
    ensures { (p : Property) → Fits p cut → verdict_meant result ≡ set_verdict p (set_of cut) }
{
    if cut.armed % 2 == 0 {
        return Verdict::Clear;
    }
    if 0 < cut.mask || 0 < cut.armed / 2 {
        return Verdict::Suspect;
    }
    Verdict::Certain
}

// The set of lengths that a set goes to by a row of the table.
fn step(table: &Table, at: usize, n: usize, mask: u64) -> u64
    requires n_bound { (n ≤ 32) × (at ≤ 4224) × (mask < 2 ^ suc n) }
    requires by_index { (k : ℕ) → k ≤ n → get_or table.now (at + k) 0 ≤ n }
    ensures { ((j : ℕ) → bit result j ≡ stepped n (λ k. get_or table.now (at + k) 0) (bit mask) j) × (result < 2 ^ suc n) }
{
    let mut rest = mask;
    let mut r = 0u64;
    while rest != 0 {
        let k = rest.trailing_zeros() as usize;
        r |= 1u64 << table[at + k];
        rest &= rest - 1;
    }
    r
}

// "an output outside the allowed set"
fn outside(allowed: u64, output: bool, action: u64) -> bool
    ensures { (p : Property) → p.allowed ≡ allowed → result ≡ Matcher.outside (meant p) (action_of output action) }
{
    output && (u64::from(LAST_ACTION) < action || (allowed >> action) % 2 != 1)
}

// The words of the lengths that are not armed or are so no more, those that stay armed, and broken: a whole match is armed too.
fn arranged(n: usize, free: u64, still: u64, broken: bool) -> Cut
    requires { (n ≤ 32) × (free < 2 ^ suc n) × (still < 2 ^ suc n) }
    ensures { Arranged n free still (cond broken 1 0) result }
{
    let low = free & ((1u64 << n) - 1);
    let up = (free - low) | still;
    Cut {
        mask: low,
        armed: up * 2 + u64::from(broken),
    }
}

// The states that those of a cut move to at an action: an output outside the set breaks those that are armed, an allowed one
// disarms them, an input keeps them armed.
pub fn moved(steps: &Steps<'_>, cut: Cut, output: bool, action: u64) -> Cut
    requires { Fits steps.now.property cut }
    ensures { Moved steps.now.property cut (action_of output action) result }
{
    let table = steps.table;
    let n = steps.property.n;
    let at = table::row(output, action);
    let armed_lengths = cut.armed / 2;
    let broken = cut.armed % 2 == 1;
    if outside(steps.property.allowed, output, action) {
        let free = step(table, at, n, cut.mask);
        return arranged(n, free, 0, broken || 0 < armed_lengths);
    }
    if output {
        let free = step(table, at, n, cut.mask | armed_lengths);
        return arranged(n, free, 0, broken);
    }
    let free = step(table, at, n, cut.mask);
    let still = step(table, at, n, armed_lengths);
    arranged(n, free, still, broken)
}

// Two sets joined.
pub fn joined(a: Cut, b: Cut) -> Cut
    ensures { Joined a b result }
{
    Cut {
        mask: a.mask | b.mask,
        armed: a.armed | b.armed,
    }
}
