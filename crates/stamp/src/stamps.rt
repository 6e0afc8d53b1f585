// The stamps of a node call, in the format of the card's clock.
ghost use Rattle.std.specs.Prelude.{◌≡◌};
ghost use Rattle.residence.specs.Residence.{residence_answer};
ghost use Rattle.stamp.specs.Stamps.{residence_of};

use crate::{ntp, ptp};
use residence::Residence;

/// The stamps of a message's entry and exit.
#[derive(Clone, Copy)]
pub enum Stamps {
    Ptp(ptp::Stamp, ptp::Stamp),
    Ntp(ntp::Stamp, ntp::Stamp),
}

/// The residence between the two, as it goes on to a node: nothing behind it knows the format. A
/// function, since its answer is a Result, for which there is no From.
pub fn residence_of(stamps: Stamps) -> Residence
    ensures { residence_answer result ≡ residence_of stamps }
{
    match stamps {
        Stamps::Ptp(entry, exit) => ptp::residence_between(entry, exit),
        Stamps::Ntp(entry, exit) => ntp::residence_between(entry, exit),
    }
}
