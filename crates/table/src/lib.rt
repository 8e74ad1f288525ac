// The table of matched lengths: how long a beginning of a property's sequence ends what has happened after one more action.
#![tactic(auto)]

ghost use Rattle.std.specs.Prelude.{ℕ, ◌+◌, ◌≤◌, ◌<◌, ◌≡◌, length, get_or, replicate};
ghost use Rattle.meaning.specs.Matcher;
ghost use Rattle.meaning.specs.Numbers.{property_refusal};
ghost use Rattle.property.specs.Meant.{action_of, meant};
ghost use Rattle.table.specs.Table.{said, no_action, at_place, Numbered, action_of_place, Shorter, row_of, RowFilled, Made, IsTable};

use limits::LAST_ACTION;
use property::Property;

// A row of 33 matched lengths for each input and each output that a property may name, and one for every other number (`row`).
pub type Table = [u8; 4257];

// An output or an input, and its number. ?3 and !3 have nothing in common.
#[derive(Clone, Copy, PartialEq, Eq)]
pub struct Action {
    pub output: bool,
    pub number: u8,
}

impl Action {
    // Where its row begins in the table.
    fn row(self) -> usize
        ensures { result ≡ row_of self.output self.number }
    {
        row(self.output, u64::from(self.number))
    }
}

// After k matched actions an action comes. Do the first j end those k, and is the next one that action?
fn goes_on(sequence: &[Action], k: usize, j: usize, action: Action) -> bool
    requires { (j ≤ k) × (k ≤ length sequence.now) }
    ensures { result ≡ Matcher.goes_on (at_place sequence.now) (length sequence.now) k j (said action) }
{
    j < sequence.len() && sequence[j] == action && sequence[..k].ends_with(&sequence[..j])
}

// "After a mismatch the matcher must fall back to the longest shorter beginning of the sequence that ends there, found by
// the same question on a smaller length."
pub fn fall_back(sequence: &[Action], k: usize, action: Action, j: usize) -> usize
    requires { (length sequence.now ≤ 32) × (j ≤ k) × (k ≤ length sequence.now) }
    ensures { result ≡ Matcher.fall_back (at_place sequence.now) (length sequence.now) k (said action) j }
{
    if goes_on(sequence, k, j, action) {
        return j + 1;
    }
    if j == 0 {
        return 0;
    }
    fall_back(sequence, k, action, j - 1)
}

// Where the row of an action begins in the table.
pub fn row(output: bool, action: u64) -> usize
    ensures { result ≡ row_of output action }
{
    if u64::from(LAST_ACTION) < action {
        return 4224;
    }
    let at = action as usize * 33;
    if output { 2112 + at } else { at }
}

// For each matched length the longest shorter one that ends there: what ends the first k + 1 ends the first k and goes on
// with the action behind them.
fn shorter(sequence: &[Action]) -> [u8; 33]
    requires { length sequence.now ≤ 32 }
    ensures { (k : ℕ) → 0 < k → k ≤ length sequence.now → Shorter (at_place sequence.now) k (get_or result k 0) }
{
    let mut falls = [0u8; 33];
    for k in 1..sequence.len() {
        falls[k + 1] = fall_back(sequence, k, sequence[k], k - 1) as u8;
    }
    falls
}

// The matched length that an action leads to from k: one more, or what it leads to from the next shorter length.
fn entry(
    sequence: &[Action],
    falls: &[u8; 33],
    table: &Table,
    at: usize,
    k: usize,
    action: Action,
) -> u8
    requires n_bound { (length sequence.now ≤ 32) × (k ≤ length sequence.now) × (at ≤ 4224) }
    requires by_index { (j : ℕ) → 0 < j → j ≤ length sequence.now → Shorter (at_place sequence.now) j (get_or falls.now j 0) }
    requires by_index_2 { (j : ℕ) → j < k → get_or table.now (at + j) 0 ≡ Matcher.fall_back (at_place sequence.now) (length sequence.now) j (said action) j }
    ensures { result ≡ Matcher.fall_back (at_place sequence.now) (length sequence.now) k (said action) k }
{
    if k < sequence.len() && sequence[k] == action {
        return (k + 1) as u8;
    }
    if k == 0 {
        return 0;
    }
    table[at + falls[k] as usize]
}

// The row of one action: from each length up to the sequence's, the length that the action leads to.
fn fill_row(sequence: &[Action], falls: &[u8; 33], action: Action, table: &mut Table)
    requires n_bound { (length sequence.now ≤ 32) × (length table.old ≡ 4257) }
    requires by_index { (j : ℕ) → 0 < j → j ≤ length sequence.now → Shorter (at_place sequence.now) j (get_or falls.now j 0) }
    ensures { RowFilled (at_place sequence.now) (length sequence.now) action.output action.number table.old table.new }
{
    let at = action.row();
    for k in 0..=sequence.len() {
        table[at + k] = entry(sequence, falls, table, at, k, action);
    }
}

// The table of a property's steps. A row is made once for each action that the sequence names; the others stay 0.
fn table_of(sequence: &[Action], table: &mut Table)
    requires n_bound { (length sequence.now ≤ 32) × (length table.old ≡ 4257) × ((i : ℕ) → get_or table.old i 0 ≡ 0) }
    requires by_index { Numbered sequence.now }
    ensures { Made (at_place sequence.now) (length sequence.now) table.new }
{
    let falls = shorter(sequence);
    for (i, action) in sequence.iter().enumerate() {
        let at = action.row();
        if table[at + i] == 0 {
            fill_row(sequence, &falls, *action, table);
        }
    }
}

// The places of a property's sequence.
fn actions_of(p: &Property) -> [Action; 32]
    ensures long { length result ≡ 32 }
    ensures each { (i : ℕ) → i < 32 → get_or result i no_action ≡ action_of_place p.now i }
{
    std::array::from_fn(|i| Action {
        output: p.output[i],
        number: p.number[i],
    })
}

// Makes the table of a property's steps of one of zeros. It is lent, since 4 KB that are handed back are copied on their way.
pub fn fill(p: Property, table: &mut Table)
    requires { (property_refusal (meant p) ≡ 0) × (table.old ≡ replicate 4257 0) }
    ensures { IsTable p table.new }
{
    let actions = actions_of(&p);
    table_of(&actions[..p.n], table);
}

// A property that refusals 1, 2 and 3 do not name, and the table of its steps: made once, and lent to every line.
#[derive(Clone, Copy)]
pub struct Steps<'a> {
    pub property: Property,
    pub table: &'a Table,
    pub ghost formed: { property_refusal (meant property) ≡ 0 },
    pub ghost made: { IsTable property table.now },
}

impl<'a> Steps<'a> {
    pub fn new(property: Property, table: &'a Table) -> Self
        requires { (property_refusal (meant property) ≡ 0) × IsTable property table.now }
        ensures { result.property ≡ property }
    {
        Steps { property, table }
    }
}
