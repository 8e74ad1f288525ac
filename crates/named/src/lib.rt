// The listing with names: what the second program adds to it for each record.
#![tactic(auto)]

ghost use Rattle.std.specs.Prelude.{◌≡◌};
ghost use Rattle.printout.specs.Named.{front_text};
ghost use Rattle.named.specs.Named.{names_of, named_call_text, named_of};
ghost use Rattle.named.specs.Insert.{kind_as, action_as, name_as, IsLine};

use line_text::{Line, NamedLine};
use printed::Printed;
use record_form::Record;
use session_record::Session;

// What a record adds to the listing, and what the next one starts from.
#[derive(Clone, Copy)]
pub struct Named {
    pub text: NamedLine,
    pub session: Session,
    // The number of records taken so far.
    pub count: u64,
    // The listing goes on: this was not its last line. A flag: text, session and count are there, and promised, in both cases.
    pub more: bool,
}

// The front of the line of a record; what is no input or output is shown as a gap.
#[tactic(auto, unfolding(crate::specs::Insert::kind_as, crate::specs::Insert::action_as))]
fn front_of(number: u64, read: Record) -> Line
    ensures { result ≡ front_text number (kind_as read) (action_as read) }
{
    match read {
        Record::Input(action, _) => printout::front(number, 0, action),
        Record::Output(action, _) => printout::front(number, 1, action),
        Record::Gap(lost, _) => printout::front(number, 2, lost),
        Record::End(_) => printout::front(number, 2, 0),
    }
}

// The name of its action; a gap has none.
#[tactic(auto, unfolding(crate::specs::Insert::name_as))]
fn name_of<'a>(site: &'a [u8], release: &'a [u8], read: Record) -> &'a [u8]
    ensures { result.now ≡ name_as site.now release.now read }
{
    match read {
        Record::Input(action, _) => names::name(site, release, false, action),
        Record::Output(action, _) => names::name(site, release, true, action),
        Record::Gap(_, _) | Record::End(_) => &release[release.len()..],
    }
}

// The line of the record at the front of the bytes, with its name.
fn named_line<'a>(
    site: &'a [u8],
    release: &'a [u8],
    bytes: &[u8],
    before: u64,
    number: u64,
    line: Line,
) -> NamedLine
    requires { IsLine bytes.now before number line }
    ensures { (l : IsLine bytes.now before number line)
        → result ≡ named_call_text (names_of site.now release.now) number l.call l.after }
{
    // A line is of a record that the reader took.
    let Ok(read) = record_form::read_record(bytes, before) else {
        return named_text::unnamed(line);
    };
    let front = front_of(number, read);
    named_text::with_name(line, front.len(), name_of(site, release, read))
}

// The record at the front of the bytes, after `count` that were taken: as `printed::record` lists it, with its name.
pub fn record<'a>(site: &'a [u8], release: &'a [u8], s: Session, count: u64, bytes: &[u8]) -> Named
    ensures { result ≡ named_of site.now release.now s count bytes.now }
{
    let before = s.shared.status.clock.latest;
    let Printed {
        text: line,
        session,
        count,
        more,
    } = printed::record(s, count, bytes);
    let text = if more {
        named_line(site, release, bytes, before, count, line)
    } else {
        named_text::unnamed(line)
    };
    Named {
        text,
        session,
        count,
        more,
    }
}
