// Residences between PTP stamps in nanoseconds, without and with a borrow. A case of `vectors` has
// them in pad units.
use refusal::Refusal;
use stamp::ptp;
use stamp::ptp::Stamp;
use std::fmt;

// A stamp, as these lines show it and no others.
#[derive(Clone, Copy)]
struct Shown(Stamp);

impl fmt::Display for Shown {
    fn fmt<W: fmt::Write>(&self, f: &mut fmt::Formatter<W>) -> fmt::Result {
        write!(f, "{} s {}", self.0.seconds, self.0.nanoseconds)
    }
}

fn at(seconds: u32, nanoseconds: u32) -> Stamp {
    Stamp {
        seconds,
        nanoseconds,
    }
}

fn between(rt: &impl Print, entry: Stamp, exit: Stamp) {
    let _ = print!(rt; "residence from {} to {}: ", Shown(entry), Shown(exit));
    let _ = match ptp::nanoseconds_between(entry, exit) {
        Ok(nanoseconds) => println!(rt; "{nanoseconds} ns"),
        Err(error) => println!(rt; "{}", Refusal::from(error)),
    };
}

pub(crate) fn run(rt: &impl Print) {
    for (entry, exit) in [
        // equal nanoseconds: no borrow
        (at(5, 7), at(5, 7)),
        (at(5, 7), at(8, 7)),
        (at(5, 7), at(9, 7)),
        // a borrow, then one across the wrap of the seconds
        (at(10, 999_999_000), at(11, 500)),
        (at(u32::MAX, 999_999_999), at(0, 0)),
        // a borrow from four seconds: the longest; from five, and from none: 10
        (at(5, 1), at(9, 0)),
        (at(5, 1), at(10, 0)),
        (at(5, 1), at(5, 0)),
    ] {
        between(rt, entry, exit);
    }
}
