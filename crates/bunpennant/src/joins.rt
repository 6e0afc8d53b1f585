// Joining at the egress, with the packet shown.
ghost use Rattle.std.specs.Prelude.{◌≡◌};
ghost use Rattle.egress.specs.Join.{join_of};
ghost use Rattle.egress.specs.Pair.{Whole};
ghost use Rattle.bunpennant.specs.C.{told, put_joined, join_told};

use message::layout;

// Which message's packet is shown.
const OF_SYNC: u64 = 0;

const OF_FOLLOW_UP: u64 = 1;

// The total, and the packet of a message of types 2 to 4.
fn put_joined(joined: &mut [u64; 4], total: i64, which: u64, message: &[u8])
    requires { Whole message.now }
    ensures { joined.new ≡ put_joined joined.old total which message.now }
{
    joined[0] = total.cast_unsigned();
    joined[1] = which;
    joined[2] = layout::CARRIED as u64;
    joined[3] = (message.len() - layout::CARRIED) as u64;
}

/// The total, and the packet shown: 0, or the Sync's refusals 1 to 8, the Follow_Up's, 18, or 11, which
/// leave the struct as it came.
pub fn rtm_join(sync: &[u8], follow_up: &[u8], joined: &mut [u64; 4]) -> u8
    ensures { told result joined.new
        ≡ join_told joined.old sync.now follow_up.now (join_of sync.now follow_up.now) }
{
    match egress::join(sync, follow_up) {
        Ok(total) if layout::CARRIED < follow_up.len() => {
            put_joined(joined, total, OF_FOLLOW_UP, follow_up);
            0
        }
        Ok(total) => {
            put_joined(joined, total, OF_SYNC, sync);
            0
        }
        Err(refusal) => refusal.number(),
    }
}
