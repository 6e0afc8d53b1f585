// The octets that a node changes or writes.
ghost use Rattle.std.specs.Prelude.{◌≡◌, ◌≤◌, ◌++◌, length, take, drop};
ghost use Rattle.scratch_pad.specs.Sum.{raised};
ghost use Rattle.rules.specs.Change.{pad_of, with_pad, with_two_step, follow_up_fields, follow_up_of};
ghost use Rattle.handling.specs.Handling.{created_in};

use message::layout;

// Octets 18 and 19, the length that the sub-TLV states.
const SUB_TLV_LENGTH: usize = layout::VALUE + layout::SUB_TLV_LENGTH;

// Octet 20, with the S bit.
const FLAGS: usize = layout::VALUE + layout::FLAGS;

// Octets 24 to 35, port identity and sequence.
const IDENTITY: usize = layout::VALUE + layout::CLOCK_IDENTITY;

/// Adds units to the pad: the largest pad where the sum is that or more.
pub fn add_to_pad(message: &mut [u8], units: u64)
    ensures { message.new ≡ with_pad message.old (raised (pad_of message.old) units) }
{
    let pad = octets::read_signed(message, layout::SCRATCH_PAD);
    let sum = scratch_pad::add_residence(pad, units);
    let octets = octets::octets_signed(sum);
    octets::put(message, layout::SCRATCH_PAD, &octets);
}

/// Sets the S bit, and changes nothing else; a message that has no octet 20 stays as it came.
pub fn set_two_step(message: &mut [u8])
    ensures { message.new ≡ with_two_step message.old }
{
    let flags = [octets::read8(message, FLAGS) % 128 + 128];
    octets::put(message, FLAGS, &flags);
}

// Octets 14 to 23 of the Follow_Up of a Sync: Length 20, sub-TLV type 1, the length that the Sync's
// sub-TLV states, S set, PTPType 8.
fn follow_up_fields(sync: &[u8]) -> [u8; 10]
    requires { 36 ≤ length sync.now }
    ensures { result ≡ follow_up_fields (take 2 (drop 18 sync.now)) }
{
    let high = sync[SUB_TLV_LENGTH];
    let low = sync[SUB_TLV_LENGTH + 1];
    [0, 20, 0, 1, high, low, 0x80, 0, 0, 0x08]
}

// Writes the 36 octets of the Follow_Up.
fn put_follow_up(output: &mut [u8], sync: &[u8], units: u64)
    requires { (36 ≤ length output.old) × (36 ≤ length sync.now) }
    ensures { output.new ≡ follow_up_of sync.now units ++ drop 36 output.old }
{
    let pad = octets::octets64(units);
    let fields = follow_up_fields(sync);
    octets::put(output, 0, &layout::G_ACH_HEADER);
    octets::put(output, layout::SCRATCH_PAD, &pad);
    octets::put(output, layout::TYPE, &sync[layout::TYPE..layout::LENGTH]);
    octets::put(output, layout::LENGTH, &fields);
    octets::put(output, IDENTITY, &sync[IDENTITY..layout::CARRIED]);
}

/// Writes the Follow_Up of a Sync at the start of the output; one that has no room for its 36 octets
/// stays as it came, and so does any where the Sync has fewer.
pub fn create_follow_up(output: &mut [u8], sync: &[u8], units: u64)
    ensures { output.new ≡ created_in sync.now units output.old }
{
    if output.len() >= layout::CARRIED && sync.len() >= layout::CARRIED {
        put_follow_up(output, sync, units);
    }
}
