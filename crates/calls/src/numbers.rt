// Document 01's numbers for what a call gives back.
use outcomes::Refusal;
use script::text::Numbers;
use std::fmt;
use std::fmt::{Display, Formatter};

// A refusal's number and zeros behind it, or 0 and the values.
#[derive(Clone, Copy)]
pub struct Answer<const N: usize>(pub Result<[u64; N], Refusal>);

impl<const N: usize> Display for Answer<N> {
    fn fmt<W: fmt::Write>(&self, f: &mut Formatter<W>) -> fmt::Result {
        match self.0 {
            Ok(values) => write!(f, "0{}", Numbers(&values)),
            Err(refusal) => write!(f, "{}{}", u64::from(refusal), Numbers(&[0u64; N])),
        }
    }
}

// What says nothing but its refusal.
pub fn refusal(judged: Result<(), Refusal>) -> Answer<0> {
    Answer(judged.map(|()| []))
}
