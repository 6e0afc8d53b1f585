// Correcting the packet at the egress, for C: the function rtm_correct of c/include/bunpennant.h, in an
// archive of its own. In one archive with rtm_join it would be a second caller of the join, which the
// compiler then no longer puts into rtm_join.
#![tactic(auto)]

ghost use Rattle.std.specs.Prelude.{◌≡◌};
ghost use Rattle.correction.specs.Correct.{correct_of};
ghost use Rattle.bunpennant.specs.C.{told};
ghost use Rattle.bunpennant_correct.specs.Corrections.{told_corrected};

/// The total of a joined pair added to the correctionField of the PTPv2 header that stands at a place
/// of the copy: 0, or a refusal, joining's or 30 to 33, which leaves the copy as it came.
pub fn rtm_correct(sync: &[u8], follow_up: &[u8], place: usize, copy: &mut [u8]) -> u8
    ensures { told result copy.new ≡ told_corrected (correct_of sync.now follow_up.now place copy.old) }
{
    bunpennant::number(corrector::correct(sync, follow_up, place, copy))
}
