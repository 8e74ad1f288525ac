// The clock of a session, which all properties of a log share: the latest stamp, and is the session blind.
#![tactic(auto)]

ghost use Rattle.std.specs.Prelude.{◌≤◌, ◌≡◌};
ghost use Rattle.meaning.specs.Limits.{last_stamp};
ghost use Rattle.meaning.specs.Words.{Line};
ghost use Rattle.meaning.specs.Numbers.{property_refusal};
ghost use Rattle.meaning.specs.Calls.{Mark, stamp_refusal};
ghost use Rattle.meaning.specs.Calls;
ghost use Rattle.outcomes.specs.Numbers.{refusal_in};
ghost use Rattle.property.specs.Meant.{meant};
ghost use Rattle.clock.specs.Time.{clock_of, stored_clock};

use limits::LAST_STAMP;
use outcomes::Refusal;
use property::Property;

#[derive(Clone, Copy)]
pub struct Clock {
    pub latest: u64,
    pub blind: bool,
}

// "A fresh session has .. latest stamp 0."
pub fn fresh() -> Clock
    ensures { result ≡ stored_clock Calls.fresh_clock }
{
    Clock {
        latest: 0,
        blind: false,
    }
}

// Refusal 4 or 5 of a stamp, the first that holds.
pub fn refused(clock: Clock, stamp: u64) -> Result<(), Refusal>
    ensures { refusal_in result ≡ stamp_refusal (clock_of clock) stamp }
{
    if LAST_STAMP < stamp {
        return Err(Refusal::StampTooLate);
    }
    if stamp < clock.latest {
        return Err(Refusal::StampTooEarly);
    }
    Ok(())
}

// "T exceeds the latest stamp by more than 2·UB"
#[tactic(auto, using(property::proofs::Refusal::taken_bounds))]
pub fn beyond(p: Property, clock: Clock, stamp: u64) -> bool
    requires { (property_refusal (meant p) ≡ 0) × (clock.latest ≤ last_stamp) }
    ensures { result ≡ Calls.beyond (meant p) (clock_of clock) stamp }
{
    clock.latest + 2 * p.ub < stamp
}

// After a line that is taken: is the session blind then?
pub fn ticked(clock: Clock, stamp: u64, blind: bool) -> Clock
    ensures { (l : Line) → l.stamp ≡ stamp → result ≡ stored_clock (Calls.ticked (clock_of clock) l blind) }
{
    Clock {
        latest: stamp,
        blind,
    }
}

// After a gap mark that is taken.
pub fn marked(clock: Clock, stamp: u64) -> Clock
    ensures { (g : Mark) → g.stamp ≡ stamp → result ≡ stored_clock (Calls.marked (clock_of clock) g) }
{
    Clock {
        latest: stamp,
        blind: true,
    }
}
