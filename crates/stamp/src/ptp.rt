// The residence between two PTP truncated timestamps (RFC 8877, 4.3; document 01, Stamps and the stay).
// Entry and exit are parameters of their own: any two stamps are good.
ghost use Rattle.std.specs.Prelude.{◌≡◌, ◌≤◌};
ghost use Rattle.residence.specs.Residence.{residence_answer};
ghost use Rattle.stamp.specs.Ptp.{seconds_difference, nanoseconds_of, residence_of};
ghost use Rattle.stamp.specs.Formula.{seconds_part, nanoseconds_part};

use residence::{Residence, ResidenceError};

/// A PTP truncated timestamp. Nanoseconds over 999,999,999 are no time.
#[derive(Clone, Copy)]
pub struct Stamp {
    pub seconds: u32,
    pub nanoseconds: u32,
}

/// The difference of the seconds, which pass from 4,294,967,295 to 0.
pub fn seconds_between(entry: u32, exit: u32) -> u32
    ensures { result ≡ seconds_difference entry exit }
{
    exit.wrapping_sub(entry)
}

// The exit less the entry, in seconds and nanoseconds below a second.
#[derive(Clone, Copy)]
struct Difference {
    seconds: u32,
    nanoseconds: u32,
}

// The difference of stamps that refusal 9 lets through, as the hardware has it (document 02, W-207).
// The borrow is 1 exactly where the exit's nanoseconds are below the entry's.
fn difference_between(entry: Stamp, exit: Stamp) -> Difference
    requires { (entry.nanoseconds ≤ 999999999) × (exit.nanoseconds ≤ 999999999) }
    ensures { (result.seconds ≡ seconds_part entry exit) × (result.nanoseconds ≡ nanoseconds_part entry exit) }
{
    let borrow = u32::from(exit.nanoseconds < entry.nanoseconds);
    let seconds = seconds_between(entry.seconds, exit.seconds).wrapping_sub(borrow);
    let nanoseconds = exit.nanoseconds + 1_000_000_000 * borrow - entry.nanoseconds;
    Difference {
        seconds,
        nanoseconds,
    }
}

/// The residence in nanoseconds, or why there is none.
pub fn nanoseconds_between(entry: Stamp, exit: Stamp) -> Result<u64, ResidenceError>
    ensures { residence_answer result ≡ nanoseconds_of entry exit }
{
    if entry.nanoseconds > 999_999_999 || exit.nanoseconds > 999_999_999 {
        return Err(ResidenceError::InvalidStamp);
    }
    let difference = difference_between(entry, exit);
    // Four seconds or more are over 3,999,999,999 nanoseconds.
    if difference.seconds > 3 {
        return Err(ResidenceError::TooLong);
    }
    Ok(u64::from(difference.seconds) * 1_000_000_000 + u64::from(difference.nanoseconds))
}

/// The residence in pad units, as it goes on to a node.
pub fn residence_between(entry: Stamp, exit: Stamp) -> Residence
    ensures { residence_answer result ≡ residence_of entry exit }
{
    Ok(nanoseconds_between(entry, exit)? * 65_536)
}
