// A recorded call, made again. A node changes its message, and the capture is not changed: each call
// is lent a copy.
ghost use Rattle.std.specs.Prelude.{◌≤◌, ◌≡◌, length};
ghost use Rattle.residence.specs.Residence.{accepted_of};
ghost use Rattle.records.specs.Slots.{Slots};
ghost use Rattle.rules.specs.Path.{units_of};
ghost use Rattle.refusal.specs.Refusal.{answer_of};
ghost use Rattle.node.specs.Calls.{one_step_call, two_step_call};
ghost use Rattle.words.specs.Words.{slots_of};
ghost use Rattle.rtm.specs.Stamped.{stamped_residence};
ghost use Rattle.report.specs.Events.{stamp_at, stamps_in, message_in, lent_output};
ghost use Rattle.rerun.specs.Calls.{made, made_of};

use capture::layout;
use node::{Handled, Told};
use refusal::Refusal;
use residence::Residence;
use stamp::{Stamps, ptp};

// The largest message that a node reads, and so the size of the copy that a call is lent; a larger
// message is refused whatever it holds.
pub(crate) const LARGEST_MESSAGE: usize = message::layout::LARGEST;

// The size of the output that is lent to each call.
const OUTPUT_SIZE: usize = 36;

// A body that is a call, so that both stamps are there.
#[derive(Clone, Copy)]
pub(crate) struct Recorded<'a> {
    pub body: &'a [u8],
    ghost whole: { 17 ≤ length body.now },
}

fn stamp_at(stamps: &[u8], at: usize) -> ptp::Stamp
    requires { at ≤ 8 }
    ensures { result ≡ stamp_at stamps.now at }
{
    ptp::Stamp {
        seconds: octets::read32(stamps, at),
        nanoseconds: octets::read32(stamps, at + 4),
    }
}

impl<'a> Recorded<'a> {
    // The residence between its stamps. Of a part with a fixed size the compiler knows how many octets
    // it has: read from the body they made a capture take a quarter longer.
    pub(crate) fn residence(self) -> Residence
        ensures { result ≡ stamped_residence (stamps_in self.entry.body.now) }
    {
        let stamps = &self.body[layout::ENTRY..layout::MESSAGE];
        let entry = stamp_at(stamps, 0);
        let exit = stamp_at(stamps, layout::EXIT - layout::ENTRY);
        stamp::residence_of(Stamps::Ptp(entry, exit))
    }

    pub(crate) fn message(self) -> &'a [u8]
        ensures { result.now ≡ message_in self.entry.body.now }
    {
        &self.body[layout::MESSAGE..]
    }
}

// A residence in pad units; 0 where a node takes none. No From: it is a number of another crate's Result.
pub(crate) fn units_of(residence: Residence) -> u64
    ensures { result ≡ units_of (accepted_of residence) }
{
    match residence {
        Ok(units) if units < residence::LIMIT => units,
        _ => 0,
    }
}

// The answer of a one-step call, whatever the table.
pub(crate) fn one_step(
    copy: &mut [u8; LARGEST_MESSAGE],
    message: &[u8],
    residence: Residence,
) -> Result<Handled, Refusal>
    ensures { (t : Slots) → answer_of result ≡ (made_of t (one_step_call message.now lent_output residence)).answer }
{
    if message.len() > LARGEST_MESSAGE {
        return Err(Refusal::TooLong);
    }
    let lent = &mut copy[..message.len()];
    lent.copy_from_slice(message);
    node::handle_one_step(lent, residence)
}

// The answer of a two-step call, what it collected, and the table after it.
pub(crate) fn two_step(
    words: &mut [u64; 64],
    copy: &mut [u8; LARGEST_MESSAGE],
    message: &[u8],
    residence: Residence,
) -> Told
    ensures { made result words.new ≡ made_of (slots_of words.old) (two_step_call message.now lent_output residence) }
{
    if message.len() > LARGEST_MESSAGE {
        return Told {
            answer: Err(Refusal::TooLong),
            collected: 0,
        };
    }
    let mut output = [0u8; OUTPUT_SIZE];
    let lent = &mut copy[..message.len()];
    lent.copy_from_slice(message);
    node::tell_two_step(words, lent, &mut output, residence)
}
