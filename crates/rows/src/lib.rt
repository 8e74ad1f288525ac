// The rows that a session lends, each of 65 words: row 0 has the stamps of the open inputs, row 1 the numbers of their actions, rows 2 + 2j
// and 3 + 2j the two words of each cut of property j, one before each open input and one after all. The places of a row are a ring: behind
// the last comes the first. Where an index stands in a row is said here and nowhere else.
#![tactic(auto)]

ghost use Rattle.std.specs.Prelude.{◌+◌, ◌≤◌, ◌<◌, ◌≡◌, length};
ghost use Rattle.rows.specs.Rows.{last_place, Within, Room};
ghost use Rattle.rows.specs.Rows;

// "there are never more than sixty-five cuts to hold"
pub const LAST_PLACE: usize = 64;

// A row.
pub type Words = [u64; 65];

// Which places of the rows are in use: those of so many open inputs, and one more, from this one on.
#[derive(Clone, Copy)]
pub struct Span {
    pub start: usize,
    pub count: usize,
}

// So many open inputs, from the first place on.
pub fn spanning(count: usize) -> Span
    ensures { result ≡ Rows.spanning count }
{
    Span { start: 0, count }
}

// Where index i stands: behind the last place comes the first.
#[tactic(auto, unfolding(crate::specs::Rows::place))]
fn place(span: Span, i: usize) -> usize
    requires { (span.start ≤ last_place) × (i ≤ last_place) }
    ensures { (result ≡ Rows.place span i) × (result ≤ last_place) }
{
    let p = span.start + i;
    if p <= LAST_PLACE { p } else { p - 65 }
}

// One open input more, behind the others.
#[tactic(auto, unfolding(crate::specs::Rows::longer))]
pub fn longer(span: Span) -> Span
    requires { span.count < last_place }
    ensures { result ≡ Rows.longer span }
{
    Span {
        count: span.count + 1,
        ..span
    }
}

// The first d open inputs and the cuts before them give their places up: nothing is moved.
#[tactic(auto, unfolding(crate::specs::Rows::shorter))]
pub fn shorter(span: Span, d: usize) -> Span
    requires { Within span × (d ≤ span.count) }
    ensures { result ≡ Rows.shorter span d }
{
    Span {
        start: place(span, d),
        count: span.count - d,
    }
}

// The word at index i of row k.
#[tactic(auto, unfolding(crate::specs::Rows::word))]
pub fn word(rows: &[Words], span: Span, k: usize, i: usize) -> u64
    requires { Room rows.now span × (k < length rows.now) × (i ≤ last_place) }
    ensures { result ≡ Rows.word rows.now span k i }
{
    rows[k][place(span, i)]
}

// A word is stored there.
#[tactic(auto, unfolding(crate::specs::Rows::with))]
pub fn put(rows: &mut [Words], span: Span, k: usize, i: usize, v: u64)
    requires { Room rows.old span × (k < length rows.old) × (i ≤ last_place) }
    ensures { rows.new ≡ Rows.with rows.old span k i v }
{
    rows[k][place(span, i)] = v;
}
