// Sums on the Scratch Pad: a residence onto a pad, and two pads. The largest pad means that the
// correction cannot be represented (IEEE 1588), and stays.
#![tactic(auto)]

ghost use Rattle.std.specs.Prelude.{◌≡◌};
ghost use Rattle.refusal.specs.Refusal.{answer_of};
ghost use Rattle.scratch_pad.specs.Sum.{raised, pad_sum};

use refusal::Refusal;

/// The pad that means that the correction cannot be represented.
pub const LARGEST: i64 = i64::MAX;

/// A pad and a residence in pad units: LARGEST where the sum is that or more.
pub fn add_residence(pad: i64, units: u64) -> i64
    ensures { result ≡ raised pad units }
{
    pad.saturating_add_unsigned(units)
}

/// Two pads: LARGEST where either is that, or their sum is that or more; refusal 11 where the sum
/// is below -2^63.
pub fn add_pads(first: i64, second: i64) -> Result<i64, Refusal>
    ensures { answer_of result ≡ pad_sum first second }
{
    if first == LARGEST || second == LARGEST {
        return Ok(LARGEST);
    }
    match first.checked_add(second) {
        Some(sum) => Ok(sum),
        // Both are above 0, or both below.
        None if first > 0 => Ok(LARGEST),
        None => Err(Refusal::SumOutOfRange),
    }
}
