// Joining at the egress, with the packet shown.
ghost use Rattle.std.specs.Prelude.{◌≡◌};
ghost use Rattle.egress.specs.Join.{join_of};
ghost use Rattle.bunpennant.specs.C.{told, join_told};

/// The total, and the packet shown: 0, or the Sync's refusals 1 to 8, the Follow_Up's, 18, or 11, which
/// leave the struct as it came.
#[unsafe(no_mangle)]
pub extern "C" fn rtm_join(sync: &[u8], follow_up: &[u8], joined: &mut [u64; 4]) -> u8
    ensures { told result joined.new
        ≡ join_told joined.old sync.now follow_up.now (join_of sync.now follow_up.now) }
{
    bunpennant::rtm_join(sync, follow_up, joined)
}
