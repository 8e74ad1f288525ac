// The text of the listing of document 01, case 15: its header, a line for each record taken, and its last line.
#![tactic(auto)]

ghost use Rattle.std.specs.Prelude.{◌≡◌, ◌++◌, ◌+◌, ◌≤◌, length};
ghost use Rattle.line_text.specs.Text.{room};
ghost use Rattle.printout.specs.Text.{letter, word, header_text, line_text, end_text, stop_text};
ghost use Rattle.printout.specs.Named.{named_header_text, front_text};

use line_text::Line;

// Kinds, verdicts and refusals come here as numbers: each text is promised for every number (`line_text`, `stop_text`), and a type would take calls away that are allowed.

#[tactic(auto, unfolding(crate::specs::Text::letter))]
fn letter_of(kind: u8) -> u8
    ensures { result ≡ letter kind }
{
    match kind {
        0 => b'I',
        1 => b'O',
        _ => b'G',
    }
}

#[tactic(auto, unfolding(crate::specs::Text::word))]
pub fn put_verdict(t: Line, verdict: u64) -> Line
    requires { length t + 7 ≤ room }
    ensures text { result ≡ t ++ word verdict }
    ensures longer { length result ≤ length t + 7 }
{
    match verdict {
        0 => t.put_word(b"clear"),
        1 => t.put_word(b"suspect"),
        2 => t.put_word(b"certain"),
        _ => t.put_word(b"blind"),
    }
}

// The first line of every listing.
#[tactic(auto, unfolding(crate::specs::Text::header_text))]
pub fn header() -> Line
    ensures { result ≡ header_text }
{
    Line::empty().put_word(b"line kind action stamp verdict open\n")
}

// The line of record `number`, which was taken.
#[tactic(auto, using(std::proofs::Common::append_assoc), unfolding(crate::specs::Text::line_text, crate::specs::Named::front_text))]
pub fn line(number: u64, kind: u8, action: u8, stamp: u64, verdict: u64, open_count: u64) -> Line
    ensures { result ≡ line_text number kind action stamp verdict open_count }
{
    let stamped = front(number, kind, action).put(b' ').put_field(stamp);
    put_verdict(stamped, verdict)
        .put(b' ')
        .put_number(open_count)
        .put(b'\n')
}

// The last line after the end record.
#[tactic(auto, using(std::proofs::Common::append_assoc), unfolding(crate::specs::Text::end_text))]
pub fn end(count: u64) -> Line
    ensures { result ≡ end_text count }
{
    Line::empty().put_word(b"end ").put_number(count).put(b'\n')
}

// The last line after a refusal.
#[tactic(auto, using(std::proofs::Common::append_assoc), unfolding(crate::specs::Text::stop_text))]
pub fn stop(count: u64, refusal: u64) -> Line
    ensures { result ≡ stop_text count refusal }
{
    Line::empty()
        .put_word(b"stop ")
        .put_field(count)
        .put_number(refusal)
        .put(b'\n')
}

// The first line of every listing with names.
#[tactic(auto, unfolding(crate::specs::Named::named_header_text))]
pub fn named_header() -> Line
    ensures { result ≡ named_header_text }
{
    Line::empty().put_word(b"line kind action name stamp verdict open\n")
}

// The front of the line of record `number`, behind which a name stands.
#[tactic(auto, using(std::proofs::Common::append_assoc), unfolding(crate::specs::Named::front_text))]
pub fn front(number: u64, kind: u8, action: u8) -> Line
    ensures text { result ≡ front_text number kind action }
    ensures within { length result ≤ 43 }
{
    Line::empty()
        .put_field(number)
        .put(letter_of(kind))
        .put(b' ')
        .put_number(u64::from(action))
}
