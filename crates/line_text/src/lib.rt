// A line of text as it grows: a byte, a word, a number in decimal.
#![tactic(auto)]

ghost use Rattle.std.specs.Prelude.{◌≡◌, ◌∷◌, [], ◌++◌, ◌+◌, ◌≤◌, ◌<◌, length};
ghost use Rattle.line_text.specs.Text.{space, digit, decimal, room, named_room};
ghost use Rattle.line_text.specs.Kept.{kept};

use std::marker::Model;

// A text of at most `ROOM` bytes. Behind it are zeros.
#[derive(Clone, Copy)]
pub struct Text<const ROOM: usize> {
    bytes: [u8; ROOM],
    len: usize,
}

// Clauses see the bytes of the text.
impl<const ROOM: usize> Model for Text<ROOM> {
    ghost use Rattle.std.specs.Prelude.{ℕ, List, length, take};
    ghost use Rattle.line_text.specs.Kept.{Keeps, kept};

    ghost Value = { List ℕ };

    ghost view = { λ t. take t.len t.bytes };

    ghost invariant = { λ t. Keeps ROOM t.bytes t.len };

    ghost inverse = { λ l. record { bytes = kept ROOM l; len = length l } };

    ghost inverse_ok = { λ t h. λ i. record { bytes = h.zeros i; len = h.text i } };
}

// A line of the listing with its newline.
pub type Line = Text<96>;

// A line of the listing with names and its newline.
pub type NamedLine = Text<144>;

// A line, whole: its bytes, and zeros behind them, 96 in all.
pub fn whole_line(line: &Line) -> &[u8]
    ensures bytes { result.now ≡ kept room line.now }
    ensures size { length result.now ≡ room }
{
    line.whole()
}

// A line with names, whole: its bytes, and zeros behind them, 144 in all.
pub fn whole_named_line(line: &NamedLine) -> &[u8]
    ensures bytes { result.now ≡ kept named_room line.now }
    ensures size { length result.now ≡ named_room }
{
    line.whole()
}

fn digit_of(d: u64) -> u8
    requires { d < 10 }
    ensures { result ≡ digit d }
{
    48 + d as u8
}

// The digits of a number, most significant first: those of its tenth stand before its last. It stays by hand (d): a loop that fills a buffer from
// its end, or `write!` with an error to drop, is no plainer.
fn digits_of(v: u64) -> Text<20>
    ensures { result ≡ decimal v }
{
    if v < 10 {
        return Text::empty().put(digit_of(v));
    }
    digits_of(v / 10).put(digit_of(v % 10))
}

impl<const ROOM: usize> Text<ROOM> {
    pub fn empty() -> Self
        ensures { result ≡ [] }
    {
        Text {
            bytes: [0; ROOM],
            len: 0,
        }
    }

    pub fn put(mut self, b: u8) -> Self
        requires { length self < ROOM }
        ensures { result ≡ self.entry ++ b ∷ [] }
    {
        self.bytes[self.len] = b;
        self.len += 1;
        self
    }

    pub fn put_word(mut self, w: &[u8]) -> Self
        requires { length self + length w.now ≤ ROOM }
        ensures { result ≡ self.entry ++ w.now }
    {
        let end = self.len + w.len();
        self.bytes[self.len..end].copy_from_slice(w);
        self.len = end;
        self
    }

    pub fn put_number(self, v: u64) -> Self
        requires { length self + 20 ≤ ROOM }
        ensures text { result ≡ self.entry ++ decimal v }
        ensures longer { length result ≤ length self.entry + 20 }
    {
        self.put_word(digits_of(v).as_bytes())
    }

    // The number, and the space behind it.
    pub fn put_field(self, v: u64) -> Self
        requires { length self + 21 ≤ ROOM }
        ensures text { result ≡ self.entry ++ decimal v ++ space ∷ [] }
        ensures longer { length result ≤ length self.entry + 21 }
    {
        self.put_number(v).put(b' ')
    }

    pub fn len(&self) -> usize
        ensures { result ≡ length self.now }
    {
        self.len
    }

    pub fn as_bytes(&self) -> &[u8]
        ensures bytes { result.now ≡ self.now }
        ensures within { length self.now ≤ ROOM }
    {
        &self.bytes[..self.len]
    }

    // The room, whole: the bytes of the text, and zeros behind them.
    pub fn whole(&self) -> &[u8]
        ensures bytes { result.now ≡ kept ROOM self.now }
        ensures size { length result.now ≡ ROOM }
    {
        &self.bytes[..]
    }
}
