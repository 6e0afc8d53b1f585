// The stamps of a case: 16 octets, the entry's seconds and nanoseconds (NTP: seconds and fraction),
// then the exit's, 4 octets each.
use stamp::{Stamps, ntp, ptp};
use std::fmt;

// The format of a case's stamps. The name of an operation has "-ntp" behind it for NTP.
#[derive(Clone, Copy)]
pub(crate) enum Format {
    Ptp,
    Ntp,
}

impl Format {
    // The stamps at the start of s.
    pub(crate) fn read(self, s: &[u8]) -> Stamps {
        match self {
            Format::Ptp => {
                let stamp = |at| ptp::Stamp {
                    seconds: octets::read32(s, at),
                    nanoseconds: octets::read32(s, at + 4),
                };
                Stamps::Ptp(stamp(0), stamp(8))
            }
            Format::Ntp => {
                let stamp = |at| ntp::Stamp {
                    seconds: octets::read32(s, at),
                    fraction: octets::read32(s, at + 4),
                };
                Stamps::Ntp(stamp(0), stamp(8))
            }
        }
    }
}

impl fmt::Display for Format {
    fn fmt<W: fmt::Write>(&self, f: &mut fmt::Formatter<W>) -> fmt::Result {
        f.write_str(match self {
            Format::Ptp => "",
            Format::Ntp => "-ntp",
        })
    }
}
