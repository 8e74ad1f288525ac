// The session record, which the caller keeps; the rows of it that are lent, and the way back; what calls on it give back; refusal 10.
#![tactic(auto)]

mod loan;

ghost use Rattle.std.specs.Prelude.{◌+◌, ◌≤◌, ◌<◌, ◌≡◌, cond, length};
ghost use Rattle.rows.specs.declared.Span.{Span};
ghost use Rattle.rows.specs.Rows.{Within, Room};
ghost use Rattle.session_record.specs.Record.{rows_of, out_of_range};
ghost use Rattle.session_record.specs.Lent.{memory, record_in, Ready, of_arrays, packed_pair, packed_of, blank};
ghost use Rattle.session_record.specs.Loan.{memory_in};

use clock::Clock;
use cuts::Row;
use held::{Shared, Status};
use limits::{LAST_STAMP, MOST_OPEN};
pub use loan::Lent;
use matcher::Cut;
use outcomes::{Refusal, Verdict};
use property::Property;
use rows::{LAST_PLACE, Span, Words};

#[derive(Clone, Copy)]
pub struct Session {
    pub property: Property,
    // The open inputs, the latest stamp, is it blind: what all properties of a log share.
    pub shared: Shared,
    // What each cut stores: what belongs to this property.
    pub row: Row,
}

// What is told of a call that is taken: the verdict, and the number open.
#[derive(Clone, Copy)]
pub struct Told {
    pub verdict: Verdict,
    pub open_count: u64,
}

// What a call answers.
pub type Answer = Result<Told, Refusal>;

// What a call gives back: where it is refused, the session as it was.
#[derive(Clone, Copy)]
pub struct Stepped {
    pub answer: Answer,
    pub session: Session,
}

// The rows of one session, in the order in which they are lent: stamps, actions, and the two words of each cut.
pub type Block = [Words; 4];

// The rows of a record.
pub fn rows_of(s: Session) -> Block
    ensures { (result ≡ rows_of s) × (length result ≡ 4) × ((span : Span) → Within span → Room result span) }
{
    let Shared { held, acts, .. } = s.shared;
    let Row { masks, armed } = s.row;
    [held, acts, masks, armed]
}

// The record is one that refusal 10 names.
pub fn unfit(s: Session) -> bool
    ensures { result ≡ out_of_range s }
{
    let Status { span, clock } = s.shared.status;
    if property::refused(s.property).is_err() || LAST_PLACE < span.start || MOST_OPEN < span.count {
        return true;
    }
    let rows = rows_of(s);
    if held::falls(&rows, span, clock.latest) || LAST_STAMP < clock.latest {
        return true;
    }
    if clock.blind {
        return 0 < span.count;
    }
    cuts::strays(&rows, span, 0, s.property.n)
}

// Two rows, from the first place on: of the open inputs, or of the cuts.
#[derive(Clone, Copy)]
struct Pair {
    pub first: Words,
    pub second: Words,
}

// The first n words of rows k and k + 1, and zeros behind them. Both in one loop, so that a place is found once.
fn packed(rows: &[Words], span: Span, k: usize, n: usize) -> Pair
    requires { Room rows.now span × (k + 1 < length rows.now) × (n ≤ 65) }
    ensures { result ≡ packed_pair rows.now span k n }
{
    let mut first = [0u64; 65];
    let mut second = [0u64; 65];
    for i in 0..n {
        first[i] = rows::word(rows, span, k, i);
        second[i] = rows::word(rows, span, k + 1, i);
    }
    Pair { first, second }
}

// The record of arrays and what stands beside them, as they are.
pub fn of_arrays(
    p: Property,
    held: Words,
    acts: Words,
    masks: Words,
    armed: Words,
    status: Status,
) -> Session
    ensures { result ≡ of_arrays p held acts masks armed status }
{
    Session {
        property: p,
        shared: Shared { held, acts, status },
        row: Row { masks, armed },
    }
}

// The record of these rows, of which so many cuts are in use.
fn stored(p: Property, rows: &[Words], span: Span, cuts: usize, clock: Clock) -> Session
    requires { Room rows.now span × (3 < length rows.now) × (cuts ≤ 65) }
    ensures { result ≡ packed_of p rows.now span cuts clock }
{
    let inputs = packed(rows, span, 0, span.count);
    let words = packed(rows, span, 2, cuts);
    let status = Status {
        span: rows::spanning(span.count),
        clock,
    };
    of_arrays(
        p,
        inputs.first,
        inputs.second,
        words.first,
        words.second,
        status,
    )
}

// How many cuts are in use: one before each open input and one after all, and none while blind.
fn cuts_in_use(count: usize, blind: bool) -> usize
    requires { count ≤ 64 }
    ensures { (result ≡ cond blind 0 (count + 1)) × (result ≤ 65) }
{
    if blind { 0 } else { count + 1 }
}

// The record for the caller, of what the rows hold: nothing stands in places not in use.
pub fn made(p: Property, rows: &[Words], status: Status) -> Session
    requires { Ready (memory p rows.now status) }
    ensures { result ≡ record_in (memory p rows.now status) }
{
    let Status { span, clock } = status;
    let cuts = cuts_in_use(span.count, clock.blind);
    stored(p, rows, span, cuts, clock)
}

impl Lent<'_> {
    // The record for the caller, of what is lent.
    pub fn made(&self) -> Session
        ensures { result ≡ record_in (memory_in self.now) }
    {
        made(self.steps.property, self.rows, self.status)
    }
}

// A record with no open input, its one cut as given.
pub fn blank(p: Property, first: Cut) -> Session
    ensures { result ≡ blank p first }
{
    let mut masks = [0u64; 65];
    let mut armed = [0u64; 65];
    masks[0] = first.mask;
    armed[0] = first.armed;
    let status = Status {
        span: rows::spanning(0),
        clock: clock::fresh(),
    };
    of_arrays(p, [0u64; 65], [0u64; 65], masks, armed, status)
}
