// The calls on the session, which keep the one that they leave.
use crate::numbers::Answer;
use crate::sessions::SessionText;
use crate::{Page, sessions};
use script::arguments::Arguments;
use script::properties;
use script::text::Rest;
use session_record::{Session, Stepped};
use std::fmt;
use std::fmt::Write;
use walk::Stop;

// The answer to fresh, line and mark.
fn keep(page: &mut Page, name: char, stepped: Stepped, session: &mut Session) -> fmt::Result {
    let answer = Answer(
        stepped
            .answer
            .map(|told| [u64::from(told.verdict), told.open_count]),
    );
    *session = stepped.session;
    writeln!(page, "{name} {answer}")?;
    write!(page, "{}", SessionText(session))
}

pub fn fresh(page: &mut Page, arguments: &mut Arguments<'_>, session: &mut Session) -> fmt::Result {
    let property = properties::read(arguments);
    keep(page, 'F', session::fresh(property), session)
}

pub fn line(page: &mut Page, arguments: &mut Arguments<'_>, session: &mut Session) -> fmt::Result {
    let output = arguments.flag();
    let action = arguments.byte();
    let stamp = arguments.word();
    keep(
        page,
        'L',
        session::line(*session, output, action, stamp),
        session,
    )
}

pub fn mark(page: &mut Page, arguments: &mut Arguments<'_>, session: &mut Session) -> fmt::Result {
    let lost = arguments.byte();
    let stamp = arguments.word();
    keep(page, 'G', session::mark(*session, lost, stamp), session)
}

// How it stopped: 0 by its budget, 1 at an end, 2 at a refusal; and the refusal.
fn stop_numbers(stop: Stop) -> (u64, u64) {
    match stop {
        Stop::Budget => (0, 0),
        Stop::End => (1, 0),
        Stop::Refused(refusal) => (2, u64::from(refusal)),
    }
}

pub fn walk_on(
    page: &mut Page,
    arguments: &mut Arguments<'_>,
    session: &mut Session,
) -> fmt::Result {
    let budget = arguments.size();
    let trace = arguments.string();
    let walked = walk::walk(*session, trace, budget);
    let (stop, refusal) = stop_numbers(walked.stop);
    let rest = Rest(walk::walk_rest(trace, walked.read));
    *session = walked.session;
    writeln!(
        page,
        "W {} {stop} {refusal} {} {} {rest}",
        walked.taken, walked.read, walked.lost
    )?;
    write!(page, "{}", SessionText(session))
}

// The session is the one in the script.
pub fn given(page: &mut Page, arguments: &mut Arguments<'_>, session: &mut Session) -> fmt::Result {
    *session = sessions::read(arguments);
    writeln!(page, "T")?;
    write!(page, "{}", SessionText(session))
}
