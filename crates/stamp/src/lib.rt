// Timestamps and the residence between two of them: PTP truncated stamps (document 01, Stamps and
// the stay) and NTP 64-bit stamps (document 02, W-203), both of RFC 8877.
#![tactic(auto)]

pub mod ntp;
pub mod ptp;
mod stamps;

pub use stamps::{Stamps, residence_of};
