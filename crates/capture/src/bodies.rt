// The bodies of a capture: which octets are one, and which string of octets is a capture.
ghost use Rattle.std.specs.Prelude.{◌-◌, ◌≡◌, take, drop};
ghost use Rattle.capture.specs.Layout.{body_at, is_capture};

use crate::kinds::classify;
use crate::{contents, layout};

// The octets from one place to another, as far as there are any.
fn between(octets: &[u8], from: usize, to: usize) -> &[u8]
    ensures { result.now ≡ take (to - from) (drop from octets.now) }
{
    let end = octets.len().min(to);
    if from < end { &octets[from..end] } else { &[] }
}

/// Body k: from where it starts to where the next one does, and the last one to the end. There is
/// nothing in a body that the capture does not have.
#[tactic(auto, unfolding(crate::specs::Layout::body_at))]
pub fn body(capture: &[u8], k: usize) -> &[u8]
    ensures { result.now ≡ body_at capture.now k }
{
    let n = contents::count(capture);
    if n <= k {
        return &[];
    }
    let from = contents::start(capture, n, k);
    let to = contents::start(capture, n, k + 1);
    between(capture, from, to)
}

/// The octets are a capture: of its size, with the offsets of bodies back to back, to its end.
pub fn is_capture(capture: &[u8]) -> bool
    ensures { result ≡ is_capture capture.now }
{
    if capture.len() > layout::LARGEST {
        return false;
    }
    let n = contents::count(capture);
    if n > layout::MOST_BODIES
        || contents::start(capture, n, 0) != layout::OFFSETS + layout::OFFSET_SIZE * n
    {
        return false;
    }
    for k in 0..n {
        if classify(body(capture, k)).is_none() {
            return false;
        }
    }
    true
}
