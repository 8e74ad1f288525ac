// What the printing program adds to its listing: nothing or its last line for the property, and a line for each record.
#![tactic(auto)]

pub mod lent;

ghost use Rattle.std.specs.Prelude.{◌≡◌, ℕ, ◌≤◌, List, ◌∷◌};
ghost use Rattle.property_form.specs.Form.{form_size};
ghost use Rattle.property_form.specs.Read.{length_read};
ghost use Rattle.printed.specs.Printed.{printed_of, begun_of};

use line_text::Line;
use outcomes::Refusal;
use session_record::{Lent, Session, rows_of, unfit};
use table::Steps;

// What one part of the input adds to the listing, and what the next part starts from.
#[derive(Clone, Copy)]
pub struct Printed {
    pub text: Line,
    pub session: Session,
    // The number of records taken so far.
    pub count: u64,
    // The listing goes on: this was not its last line. A flag: text, session and count are there, and promised, in both cases.
    pub more: bool,
}

// The record at the front of the bytes, after `count` that were taken.
pub fn record(s: Session, count: u64, bytes: &[u8]) -> Printed
    ensures { result ≡ printed_of s count bytes.now }
{
    if unfit(s) {
        return Printed {
            text: printout::stop(count, u64::from(Refusal::OutOfRange)),
            session: s,
            count,
            more: false,
        };
    }
    let mut table = [0; 4257];
    table::fill(s.property, &mut table);
    let steps = Steps::new(s.property, &table);
    let mut rows = rows_of(s);
    let mut lent = Lent {
        steps: &steps,
        rows: &mut rows,
        status: s.shared.status,
    };
    let read = record_form::read_record(bytes, lent.status.clock.latest);
    let added = lent::record(&mut lent, count, read);
    Printed {
        text: added.text,
        session: if added.more { lent.made() } else { s },
        count: added.count,
        more: added.more,
    }
}

// The number of bytes of a packed property that starts with this byte, in which its length field stands.
pub fn size(first: u8) -> usize
    ensures { ((rest : List ℕ) → result ≡ form_size (length_read (first ∷ rest))) × (1 ≤ result) × (result ≤ 71) }
{
    let front = [first];
    let n = fields::field_at(&front, 0, 6);
    property_form::form_bytes(n as usize)
}

// The property at the front of the bytes, and a fresh session for it: nothing is added behind the header, or the last line.
pub fn begin(bytes: &[u8]) -> Printed
    ensures { result ≡ begun_of bytes.now }
{
    let read = property_form::read_property(bytes);
    let more = read.is_ok();
    let (text, property) = match read {
        Ok(p) => (Line::empty(), p),
        Err(refusal) => (printout::stop(0, u64::from(refusal)), property::none()),
    };
    Printed {
        text,
        session: session::fresh(property).session,
        count: 0,
        more,
    }
}
