// The residence time of a packet in a node (document 01's "stay"), apart from the stamps that it
// comes from: nodes see this type and nothing of stamps.
#![tactic(auto)]

use refusal::Refusal;
use std::error::Error;
use std::fmt;

/// Why there is no residence between two stamps.
#[derive(Clone, Copy, Debug, PartialEq, Eq, Hash)]
pub enum ResidenceError {
    /// A stamp that is no time (refusal 9).
    InvalidStamp,
    /// Longer than any residence that is accepted (refusal 10).
    TooLong,
}

impl fmt::Display for ResidenceError {
    ghost use Rattle.std.specs.Prelude.{Some};
    ghost use Rattle.residence.specs.Residence.{words_of};

    ghost output = { λ error. Some (words_of error) };

    fn fmt<W: fmt::Write>(&self, f: &mut fmt::Formatter<W>) -> fmt::Result {
        f.write_str(match self {
            ResidenceError::InvalidStamp => "a stamp is no time",
            ResidenceError::TooLong => "the residence is too long",
        })
    }
}

impl Error for ResidenceError {}

impl From<ResidenceError> for Refusal {
    ghost use Rattle.residence.specs.Residence.{RefusedAs};

    ghost from_gives = { RefusedAs };

    fn from(error: ResidenceError) -> Refusal {
        match error {
            ResidenceError::InvalidStamp => Refusal::InvalidStamp,
            ResidenceError::TooLong => Refusal::TooLongResidence,
        }
    }
}

/// The residence in pad units, nanoseconds times 65,536, or why there is none.
pub type Residence = Result<u64, ResidenceError>;

/// Units from here on (four seconds) come from no stamps, and no node keeps them.
pub const LIMIT: u64 = 262_144_000_000_000;
