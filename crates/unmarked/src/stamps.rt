// Stamps of a message that comes to a card when the card's clock begins.
use stamp::{Stamps, ntp, ptp};

const PTP_ZERO: ptp::Stamp = ptp::Stamp {
    seconds: 0,
    nanoseconds: 0,
};

pub(crate) const NTP_ZERO: ntp::Stamp = ntp::Stamp {
    seconds: 0,
    fraction: 0,
};

// It leaves so many nanoseconds later, by a clock of the PTP format.
pub(crate) fn nanoseconds(nanoseconds: u32) -> Stamps {
    let exit = ptp::Stamp {
        nanoseconds,
        ..PTP_ZERO
    };
    Stamps::Ptp(PTP_ZERO, exit)
}

// It leaves then, by a clock of the NTP format.
pub(crate) fn until(exit: ntp::Stamp) -> Stamps {
    Stamps::Ntp(NTP_ZERO, exit)
}
