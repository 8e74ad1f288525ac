// "The session record stays with the caller": the proved step by value, and one thin function that stores what it gives.
#![tactic(auto)]

ghost use Rattle.std.specs.Prelude.{◌≡◌};
ghost use Rattle.session_record.specs.Step.{answer_in, stepped_of, stepping_in};
ghost use Rattle.kept.specs.Event.{call_of};

use session_record::{Answer, Session, Stepped};

// One event of a trace: a line (an output or an input, the number of its action, its stamp) or a gap mark (the number of lost lines,
// its stamp).
#[derive(Clone, Copy)]
pub enum Event {
    Line(bool, u8, u64),
    Mark(u8, u64),
}

// The proved step by value, of either kind: its one contract is all that `step` has to know.
fn next(s: Session, event: Event) -> Stepped
    ensures { stepping_in result ≡ stepped_of s (call_of event) }
{
    match event {
        Event::Line(output, action, stamp) => session::line(s, output, action, stamp),
        Event::Mark(lost, stamp) => session::mark(s, lost, stamp),
    }
}

// The step on a session that the caller keeps. It looks at nothing in the record: the step by value has given back the record as
// it was where it refuses. What calls a step in Rattle calls `session` by value.
pub fn step(s: &mut Session, event: Event) -> Answer
    ensures { (answer_in result ≡ (stepped_of s.old (call_of event)).answer) × (s.new ≡ (stepped_of s.old (call_of event)).session) }
{
    let stepped = next(*s, event);
    *s = stepped.session;
    stepped.answer
}
