// The contents of a capture: how many bodies it has, and where each starts.
ghost use Rattle.std.specs.Prelude.{◌<◌, ◌≤◌, ◌≡◌};
ghost use Rattle.capture.specs.Layout.{count_in, start_of};

use crate::layout;

/// How many bodies the octets say there are.
pub fn count(capture: &[u8]) -> usize
    ensures { (result ≡ count_in capture.now) × (result < 65536) }
{
    octets::read16(capture, layout::COUNT) as usize
}

// Where body k of n starts, as the octets say; behind the last body, the end.
#[tactic(auto, unfolding(crate::specs::Layout::start_of))]
pub(crate) fn start(capture: &[u8], n: usize, k: usize) -> usize
    requires { (n ≡ count_in capture.now) × (k ≤ 65536) }
    ensures { result ≡ start_of capture.now k }
{
    if k < n {
        octets::read32(capture, layout::OFFSETS + layout::OFFSET_SIZE * k) as usize
    } else {
        capture.len()
    }
}
