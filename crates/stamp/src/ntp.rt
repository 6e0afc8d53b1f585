// The residence between two NTP 64-bit timestamps (RFC 8877, 4.2.1; document 02, W-203).
ghost use Rattle.std.specs.Prelude.{◌≡◌, ◌+◌, ◌-◌, ◌%◌, ◌^◌, ◌<◌};
ghost use Rattle.residence.specs.Residence.{residence_answer};
ghost use Rattle.stamp.specs.Ntp.{as_number, difference, in_pad_units, limit, residence_of};

use residence::{Residence, ResidenceError};

/// An NTP 64-bit timestamp: seconds, and the fraction of a second in units of 2^-32. Every value is
/// a time.
#[derive(Clone, Copy)]
pub struct Stamp {
    pub seconds: u32,
    pub fraction: u32,
}

// A difference from here on, 2^34 (four seconds), is no residence.
const LIMIT: u64 = 17_179_869_184;

// The stamp as one number, in units of 2^-32 second.
fn as_number(stamp: Stamp) -> u64
    ensures { result ≡ as_number stamp }
{
    u64::from(stamp.seconds) * 4_294_967_296 + u64::from(stamp.fraction)
}

// The exit less the entry: the numbers pass from 2^64 - 1 to 0.
fn number_between(entry: u64, exit: u64) -> u64
    ensures { result ≡ (exit + 2 ^ 64 - entry) % 2 ^ 64 }
{
    exit.wrapping_sub(entry)
}

/// The difference of whole stamps, in units of 2^-32 second.
pub fn difference_between(entry: Stamp, exit: Stamp) -> u64
    ensures { result ≡ difference entry exit }
{
    number_between(as_number(entry), as_number(exit))
}

// A difference in pad units, rounded down. The product fits in 64 bits, with little room.
fn in_pad_units(difference: u64) -> u64
    requires { difference < limit }
    ensures { result ≡ in_pad_units difference }
{
    difference * 1_000_000_000 / 65_536
}

/// The residence in pad units, as it goes on to a node; too long is refusal 10, and nothing else is
/// refused.
pub fn residence_between(entry: Stamp, exit: Stamp) -> Residence
    ensures { residence_answer result ≡ residence_of entry exit }
{
    let difference = difference_between(entry, exit);
    if LIMIT <= difference {
        return Err(ResidenceError::TooLong);
    }
    Ok(in_pad_units(difference))
}
