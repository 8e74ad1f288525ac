// A session: taken from a script, and printed.
use clock::Clock;
use held::Status;
use rows::Span;
use script::arguments::Arguments;
use script::properties;
use script::properties::PropertyText;
use script::text::used;
use session_record::Session;
use std::fmt;
use std::fmt::{Display, Formatter};

// A property, start, count, the ring's places as they stand (65 held stamps, 65 actions, 65 masks, 65 words of armed lengths), latest, blind.
pub fn read(arguments: &mut Arguments<'_>) -> Session {
    let property = properties::read(arguments);
    let span = Span {
        start: arguments.size(),
        count: arguments.size(),
    };
    let held = arguments.words();
    let acts = arguments.bytes::<65>().map(u64::from);
    let masks = arguments.words();
    let armed = arguments.words();
    let clock = Clock {
        latest: arguments.word(),
        blind: arguments.flag(),
    };
    session_record::of_arrays(property, held, acts, masks, armed, Status { span, clock })
}

// The lines of its property, and five more.
#[derive(Clone, Copy)]
pub struct SessionText<'a>(pub &'a Session);

impl Display for SessionText<'_> {
    fn fmt<W: fmt::Write>(&self, f: &mut Formatter<W>) -> fmt::Result {
        let session = self.0;
        let shared = &session.shared;
        let Status { span, clock } = shared.status;
        let blind = u8::from(clock.blind);
        write!(f, "{}", PropertyText(&session.property))?;
        writeln!(
            f,
            "session {} {} {} {blind}",
            span.start, span.count, clock.latest
        )?;
        writeln!(f, "held{}", used(&shared.held))?;
        writeln!(f, "acts{}", used(&shared.acts))?;
        writeln!(f, "masks{}", used(&session.row.masks))?;
        writeln!(f, "marks{}", used(&session.row.armed))
    }
}
