// The sums over a path's hops: of none, made hop by hop, and closed as its plan.
ghost use Rattle.std.specs.Prelude.{◌≡◌, false};
ghost use Rattle.refusal.specs.Refusal.{answer_of};
ghost use Rattle.hops.specs.Plan.{follow_up_start};
ghost use Rattle.planner.specs.Sums.{Small, going, hop_of, step_of, end_by};

use hops::{End, ONE_STEP, Start, TWO_STEP};
use refusal::Refusal;
use residence::LIMIT;

// Of the hops so far: the residences by mode; whether any was two-step.
#[derive(Clone, Copy)]
pub(crate) struct Sums {
    one_step: u64,
    two_step: u64,
    creates: bool,
}

// Of no hops.
pub(crate) fn none() -> Sums
    ensures { result ≡ going 0 0 false }
{
    Sums {
        one_step: 0,
        two_step: 0,
        creates: false,
    }
}

// One hop more: refusals 29 and 10. The mode is C's number.
pub(crate) fn step(sums: Sums, mode: u8, residence: u64) -> Result<Sums, Refusal>
    requires { Small sums }
    ensures { answer_of result ≡ step_of sums (hop_of mode residence) }
{
    match mode {
        ONE_STEP | TWO_STEP if LIMIT <= residence => Err(Refusal::TooLongResidence),
        ONE_STEP => Ok(Sums {
            one_step: sums.one_step + residence,
            ..sums
        }),
        TWO_STEP => Ok(Sums {
            two_step: sums.two_step + residence,
            creates: true,
            ..sums
        }),
        _ => Err(Refusal::Mode),
    }
}

// The pad from which the Follow_Up's sum starts: with S clear that of one created on the way.
fn follow_up_start(start: Start) -> i64
    ensures { result ≡ follow_up_start start }
{
    if start.two_step {
        start.follow_up_pad
    } else {
        0
    }
}

// What the path ends with.
pub(crate) fn closed(sums: Sums, start: Start) -> End
    ensures { result ≡ end_by sums.one_step sums.two_step sums.creates start }
{
    let exists = start.two_step || sums.creates;
    End {
        sync_pad: scratch_pad::add_residence(start.sync_pad, sums.one_step),
        follow_up_pad: scratch_pad::add_residence(follow_up_start(start), sums.two_step),
        two_step: exists,
        exists,
    }
}
