// The plan of a path, for C: the function rtm_plan of c/include/bunpennant.h, in an archive of its own
// (a router needs none, and its node calls stay as fast as they are).
#![tactic(auto)]

ghost use Rattle.std.specs.Prelude.{◌≡◌};
ghost use Rattle.hops.specs.Plan.{start_with, plan_of};
ghost use Rattle.bunpennant.specs.C.{told};
ghost use Rattle.bunpennant_plan.specs.Plans.{pad_words, plan_told};

use hops::{End, Hop, Start};

// The words of a path's end.
fn words_of(end: End) -> [u64; 4]
    ensures { result ≡ pad_words end }
{
    [
        end.sync_pad.cast_unsigned(),
        end.follow_up_pad.cast_unsigned(),
        u64::from(end.two_step),
        u64::from(end.exists),
    ]
}

/// The plan: 0, or refusal 28, 29 or 10, which leaves the struct as it came.
pub fn rtm_plan(
    hops: &[Hop],
    sync_pad: i64,
    follow_up_pad: i64,
    two_step: bool,
    pads: &mut [u64; 4],
) -> u8
    ensures { told result pads.new
        ≡ plan_told pads.old (plan_of hops.now (start_with sync_pad follow_up_pad two_step)) }
{
    let start = Start {
        sync_pad,
        follow_up_pad,
        two_step,
    };
    bunpennant::tell(planner::plan(hops, start).map(words_of), pads)
}
