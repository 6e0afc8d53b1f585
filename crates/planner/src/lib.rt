// The plan of a path (document 02, W-212): the pads that it would show, by plain sums over its hops.
// One thin function walks a lent slice of hops and calls the others with numbers (`sums_of`), and
// `plan` closes its sums; one takes the hops by value, for a caller that has no such slice
// (`plan_array`).
#![tactic(auto)]

mod file;
mod sums;

ghost use Rattle.std.specs.Prelude.{◌≡◌, ◌≤◌, length, take};
ghost use Rattle.refusal.specs.Refusal.{answer_of};
ghost use Rattle.hops.specs.Plan.{plan_of};
ghost use Rattle.planner.specs.Sums.{checked_sums, plan_first};

pub use file::{is_path, plan_octets};
use hops::{End, Hop, MOST, Start};
use refusal::Refusal;
use sums::Sums;

// The sums over these hops, or the refusal of the first bad one.
fn sums_of(hops: &[Hop]) -> Result<Sums, Refusal>
    requires { length hops.now ≤ 255 }
    ensures { answer_of result ≡ checked_sums hops.now }
{
    let mut sums = sums::none();
    for hop in hops {
        sums = sums::step(sums, hop.mode, hop.residence)?;
    }
    Ok(sums)
}

/// The plan of a path with these hops, in the Sync's order; or refusal 28, or 29 or 10 of the first bad
/// hop.
#[tactic(auto, using(crate::proofs::Closed::plan_steps))]
pub fn plan(hops: &[Hop], start: Start) -> Result<End, Refusal>
    ensures { answer_of result ≡ plan_of hops.now start }
{
    if hops.len() > MOST {
        return Err(Refusal::TooManyHops);
    }
    let sums = sums_of(hops)?;
    Ok(sums::closed(sums, start))
}

/// The plan of a path with the first `count` hops of an array; over 255 it is refusal 28. A path in
/// octets has its count in front, and there is no heap for a list of so many hops.
pub fn plan_array(hops: [Hop; MOST], count: usize, start: Start) -> Result<End, Refusal>
    ensures { answer_of result ≡ plan_first hops count start }
{
    if MOST < count {
        return Err(Refusal::TooManyHops);
    }
    plan(&hops[..count], start)
}
