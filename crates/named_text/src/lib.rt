// The text of a line with a name: the line without one, and the name put behind its front.
#![tactic(auto)]

ghost use Rattle.std.specs.Prelude.{◌≡◌, ◌++◌, ◌+◌, ◌≤◌, length};
ghost use Rattle.line_text.specs.Text.{named_room};
ghost use Rattle.printout.specs.Named.{shown_name};
ghost use Rattle.named_text.specs.Text.{inserted};

use line_text::{Line, NamedLine};

// A name, or `-` where there is none.
#[tactic(auto, unfolding(printout::specs::Named::shown_name))]
fn put_name(t: NamedLine, name: &[u8]) -> NamedLine
    requires { (length t + 40 ≤ named_room) × (length name.now ≤ 40) }
    ensures text { result ≡ t ++ shown_name name.now }
    ensures longer { length result ≤ length t + 40 }
{
    if name.is_empty() {
        return t.put(b'-');
    }
    t.put_word(name)
}

// A line as it is.
pub fn unnamed(line: Line) -> NamedLine
    ensures { result ≡ line }
{
    NamedLine::empty().put_word(line.as_bytes())
}

// A line with a name behind its first `at` bytes.
pub fn with_name(line: Line, at: usize, name: &[u8]) -> NamedLine
    requires { (at ≤ length line) × (length name.now ≤ 40) }
    ensures { result ≡ inserted at name.now line }
{
    let bytes = line.as_bytes();
    let front = NamedLine::empty().put_word(&bytes[..at]).put(b' ');
    put_name(front, name).put_word(&bytes[at..])
}
