// The text of the reasons of document 02, CR 6: a verdict with its line, and each line of an order with its moment.
#![tactic(auto)]

ghost use Rattle.std.specs.Prelude.{◌≡◌, ◌++◌, ◌+◌, ◌≤◌, length};
ghost use Rattle.line_text.specs.Text.{room};
ghost use Rattle.reason_text.specs.Reason.{signed, reached_text, placed_text, blind_text, stop_alone_text};

use line_text::Line;
use printout::put_verdict;

#[tactic(auto, unfolding(crate::specs::Reason::signed))]
fn put_moment(t: Line, moment: i64) -> Line
    requires { length t + 21 ≤ room }
    ensures text { result ≡ t ++ signed moment }
    ensures longer { length result ≤ length t + 21 }
{
    if moment < 0 {
        return t.put(b'-').put_number(moment.unsigned_abs());
    }
    t.put_number(moment.unsigned_abs())
}

// The first line: the verdict, and after which line it was first reached. A verdict and a refusal are numbers here: each text is promised for every
// number (`reached_text`, `stop_alone_text`).
#[tactic(auto, using(std::proofs::Common::append_assoc), unfolding(crate::specs::Reason::reached_text))]
pub fn reached(verdict: u64, line: u64) -> Line
    ensures { result ≡ reached_text verdict line }
{
    put_verdict(Line::empty(), verdict)
        .put(b' ')
        .put_number(line)
        .put(b'\n')
}

// A line of an order, by its number in the run, and its moment.
#[tactic(auto, using(std::proofs::Common::append_assoc), unfolding(crate::specs::Reason::placed_text))]
pub fn placed(number: u64, moment: i64) -> Line
    ensures { result ≡ placed_text number moment }
{
    put_moment(Line::empty().put_field(number), moment).put(b'\n')
}

// The one line where no run is open.
#[tactic(auto, unfolding(crate::specs::Reason::blind_text))]
pub fn blind() -> Line
    ensures { result ≡ blind_text }
{
    Line::empty().put_word(b"blind\n")
}

// The one line after a refusal.
#[tactic(auto, using(std::proofs::Common::append_assoc), unfolding(crate::specs::Reason::stop_alone_text))]
pub fn stop(refusal: u64) -> Line
    ensures { result ≡ stop_alone_text refusal }
{
    Line::empty()
        .put_word(b"stop ")
        .put_number(refusal)
        .put(b'\n')
}
