// A property as plain data, and refusals 1, 2 and 3 of it.
#![tactic(auto)]

ghost use Rattle.std.specs.Prelude.{◌≡◌, ◌≤◌};
ghost use Rattle.meaning.specs.Numbers.{property_refusal, any_action_above};
ghost use Rattle.outcomes.specs.Numbers.{refusal_in};
ghost use Rattle.property.specs.Meant.{meant, sequence_of};
ghost use Rattle.property.specs.Zeros.{zeros};

use limits::{LAST_ACTION, LAST_BOUND, MOST_ACTIONS};
use outcomes::Refusal;

// A line of a log: is it an output, the number of its action, its stamp.
#[derive(Clone, Copy)]
pub struct Line {
    pub output: bool,
    pub action: u8,
    pub stamp: u64,
}

#[derive(Clone, Copy)]
pub struct Property {
    // The length of the sequence; places from it on are not read.
    pub n: usize,
    // Place by place: an output (true) or an input, and its number.
    pub output: [bool; 32],
    pub number: [u8; 32],
    // Bit k is set where output k is allowed.
    pub allowed: u64,
    pub lb: u64,
    pub ub: u64,
}

// Where there is no property: zeros.
pub fn none() -> Property
    ensures { result ≡ zeros }
{
    Property {
        n: 0,
        output: [false; 32],
        number: [0; 32],
        allowed: 0,
        lb: 0,
        ub: 0,
    }
}

// Whether an action number of the sequence is above 63.
fn above(p: Property) -> bool
    requires { p.n ≤ 32 }
    ensures { result ≡ any_action_above (sequence_of p) }
{
    p.number[..p.n].iter().any(|&k| LAST_ACTION < k)
}

// Refusal 1, 2 or 3 of a property, the first that holds.
#[tactic(auto, using(crate::proofs::Refusal::refusal_is, std::proofs::lemmas::Bool::Decides::nat_tests))]
pub fn refused(p: Property) -> Result<(), Refusal>
    ensures { refusal_in result ≡ property_refusal (meant p) }
{
    if p.n < 1 || MOST_ACTIONS < p.n {
        return Err(Refusal::Length);
    }
    if p.lb < 1 || p.ub < p.lb || LAST_BOUND < p.ub {
        return Err(Refusal::Bounds);
    }
    if above(p) {
        return Err(Refusal::Number);
    }
    Ok(())
}
