// What a call comes to: a verdict on the run that is open, or a refusal. Each has the number that the documents give it.
#![tactic(auto)]

ghost use Rattle.outcomes.specs.Numbers.{refusal_number, number_told};
ghost use Rattle.std.specs.Prelude.{◌≡◌};

/// Why a call is refused.
#[derive(Clone, Copy, Debug, PartialEq, Eq)]
pub enum Refusal {
    /// The sequence's length is 0 or above 32.
    Length,
    /// The bounds are outside 1 ≤ LB ≤ UB ≤ 60,000,000.
    Bounds,
    /// An action number, or a number of lost lines, is above 63.
    Number,
    /// A stamp is above 2^40 − 1.
    StampTooLate,
    /// A stamp is below the latest.
    StampTooEarly,
    /// More than 64 inputs would be open.
    TooManyOpen,
    /// Fewer packed bytes than the form needs, or no end record; lists of a run that are not equally long.
    TooShort,
    /// The packed form is broken, or to be written broken.
    Broken,
    /// There is no room for the answer.
    NoRoom,
    /// A session record has values out of range.
    OutOfRange,
    /// The site's list of names is broken.
    SiteList,
    /// The release's list of names is broken.
    ReleaseList,
    /// A run to be explained has more than 256 lines.
    TooManyLines,
}

/// What is said of the run that is open.
#[derive(Clone, Copy, Debug, PartialEq, Eq)]
pub enum Verdict {
    /// No explanation breaks the property.
    Clear,
    /// Some break it and some do not.
    Suspect,
    /// All break it.
    Certain,
    /// No run is open.
    Blind,
}

impl From<Refusal> for u64 {
    ghost from_gives = { λ refusal n. n ≡ refusal_number refusal };

    fn from(refusal: Refusal) -> u64 {
        match refusal {
            Refusal::Length => 1,
            Refusal::Bounds => 2,
            Refusal::Number => 3,
            Refusal::StampTooLate => 4,
            Refusal::StampTooEarly => 5,
            Refusal::TooManyOpen => 6,
            Refusal::TooShort => 7,
            Refusal::Broken => 8,
            Refusal::NoRoom => 9,
            Refusal::OutOfRange => 10,
            Refusal::SiteList => 11,
            Refusal::ReleaseList => 12,
            Refusal::TooManyLines => 13,
        }
    }
}

impl From<Verdict> for u64 {
    ghost from_gives = { λ verdict n. n ≡ number_told verdict };

    fn from(verdict: Verdict) -> u64 {
        match verdict {
            Verdict::Clear => 0,
            Verdict::Suspect => 1,
            Verdict::Certain => 2,
            Verdict::Blind => 3,
        }
    }
}
