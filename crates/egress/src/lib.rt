// Joining at the egress (document 01, Writing and joining): the total of a Sync's pad and its
// Follow_Up's, and the packet shown. The two messages are parameters of their own, as C hands them over.
#![tactic(auto)]

ghost use Rattle.std.specs.Prelude.{◌≡◌};
ghost use Rattle.refusal.specs.Refusal.{answer_of};
ghost use Rattle.egress.specs.Join.{is_pair, join_of, or_else, shown_of};

use message::{Message, types};
use refusal::Refusal;

/// The total of the two pads, the largest pad where that is too big: the Sync's refusals 1 to 8, the
/// Follow_Up's 1 to 8, 18, and 11 where the sum is below the range.
pub fn join(sync: &[u8], follow_up: &[u8]) -> Result<i64, Refusal>
    ensures { answer_of result ≡ join_of sync.now follow_up.now }
{
    let sync = reader::read(sync)?;
    let follow_up = reader::read(follow_up)?;
    if !are_pair(sync, follow_up) {
        return Err(Refusal::NotAPair);
    }
    scratch_pad::add_pads(sync.header().pad, follow_up.header().pad)
}

// A Sync with S set and a Follow_Up, of one Type and one exchange. The return leaves a `let .. else`.
fn are_pair(sync: Message, follow_up: Message) -> bool
    ensures { result ≡ is_pair sync follow_up }
{
    let (Message::Ptp(h, t), Message::Ptp(g, u)) = (sync, follow_up) else {
        return false;
    };
    t.ptp_type == types::SYNC
        && t.two_step
        && u.ptp_type == types::FOLLOW_UP
        && h.message_type == g.message_type
        && t.clock == u.clock
        && t.port == u.port
        && t.sequence == u.sequence
}

/// The packet of a joined pair, a part of one of the two messages: the Follow_Up's carried packet,
/// or the Sync's where that is empty. On any refusal of joining the part is empty; where an empty
/// part lies is left open: it has no octets.
pub fn shown<'a>(sync: &'a [u8], follow_up: &'a [u8]) -> &'a [u8]
    ensures { result.now ≡ shown_of sync.now follow_up.now }
{
    match join(sync, follow_up) {
        Ok(_) => or_else(reader::carried(follow_up), reader::carried(sync)),
        Err(_) => &[],
    }
}

// The first part, or the second where the first is empty.
fn or_else<'a>(first: &'a [u8], second: &'a [u8]) -> &'a [u8]
    ensures { result.now ≡ or_else first.now second.now }
{
    if first.is_empty() { second } else { first }
}
