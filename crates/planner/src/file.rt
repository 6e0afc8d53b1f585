// A path in octets, as the programs take it: S, the two pads, the number of hops, and the hops, each a
// mode and a residence.
ghost use Rattle.std.specs.Prelude.{◌≡◌, ◌≤◌, take};
ghost use Rattle.refusal.specs.Refusal.{answer_of};
ghost use Rattle.planner.specs.File.{start_in, count_in, is_path, hop_from, hops_from, plan_in};

use crate::plan_array;
use hops::{End, Hop, MOST, Start};
use refusal::Refusal;

const TWO_STEP: usize = 0;

const SYNC_PAD: usize = 1;

const FOLLOW_UP_PAD: usize = 9;

const COUNT: usize = 17;

// The first hop, and what a hop takes.
const HOPS: usize = 19;

const HOP_SIZE: usize = 9;

fn start_in(path: &[u8]) -> Start
    ensures { result ≡ start_in path.now }
{
    Start {
        sync_pad: octets::read_signed(path, SYNC_PAD),
        follow_up_pad: octets::read_signed(path, FOLLOW_UP_PAD),
        two_step: octets::read8(path, TWO_STEP) != 0,
    }
}

// How many hops there are.
fn count_in(path: &[u8]) -> usize
    ensures value { result ≡ count_in path.now }
    ensures upper_bound { result ≤ 65535 }
{
    octets::read16(path, COUNT) as usize
}

/// Whether octets are laid out so: S is 0 or 1, and they end behind the last hop.
pub fn is_path(path: &[u8]) -> bool
    ensures { result ≡ is_path path.now }
{
    octets::read8(path, TWO_STEP) <= 1 && path.len() == HOPS + count_in(path) * HOP_SIZE
}

fn hop_from(path: &[u8], at: usize) -> Hop
    requires { at ≤ 2314 }
    ensures { result ≡ hop_from path.now at }
{
    Hop {
        mode: octets::read8(path, at),
        residence: octets::read64(path, at + 1),
    }
}

// The first `count` hops, at the start of an array.
fn hops_in(path: &[u8], count: usize) -> [Hop; MOST]
    requires { count ≤ 255 }
    ensures { take count result ≡ hops_from count path.now 19 }
{
    let mut hops = [Hop {
        mode: 0,
        residence: 0,
    }; MOST];
    for i in 0..count {
        hops[i] = hop_from(path, HOPS + i * HOP_SIZE);
    }
    hops
}

/// The plan of the path. An octet past the end counts as 0.
pub fn plan_octets(path: &[u8]) -> Result<End, Refusal>
    ensures { answer_of result ≡ plan_in path.now }
{
    let count = count_in(path);
    if MOST < count {
        return Err(Refusal::TooManyHops);
    }
    plan_array(hops_in(path, count), count, start_in(path))
}
