// Correcting the packet at the egress (document 02, W-214): the total of a joined pair is added to
// the correctionField of the PTPv2 packet that it carried. Its parameters stand each by itself, as C
// hands them over.
#![tactic(auto)]

ghost use Rattle.std.specs.Prelude.{◌≡◌, ◌+◌, ◌≤◌, length, drop};
ghost use Rattle.octets.specs.Octets.{signed_octets, put};
ghost use Rattle.message.specs.Read.{message_value, sub_tlv as read_sub_tlv, carried_of};
ghost use Rattle.egress.specs.Pair.{Whole};
ghost use Rattle.correction.specs.Header.{ptp_header};
ghost use Rattle.correction.specs.Correct.{carrier_of, carrier_sub_tlv, agrees, field_of, packet_field, correct_of};
ghost use Rattle.refusal.specs.Refusal.{answer_of};
ghost use Rattle.corrector.specs.Answers.{corrected_left};

use correction::layout;
use message::SubTlv;
use message::layout::CARRIED;
use refusal::Refusal;

// A header of version 2 with the message type, source port and sequence of the sub-TLV.
fn agrees(header: &[u8], sub_tlv: SubTlv) -> bool
    ensures { result ≡ agrees sub_tlv (ptp_header header.now) }
{
    octets::read8(header, layout::VERSION_PTP) % 16 == layout::PTP_V2
        && octets::read8(header, layout::MESSAGE_TYPE) % 16 == sub_tlv.ptp_type
        && octets::read64(header, layout::CLOCK_IDENTITY) == sub_tlv.clock
        && octets::read16(header, layout::PORT_NUMBER) == sub_tlv.port
        && octets::read16(header, layout::SEQUENCE_ID) == sub_tlv.sequence
}

// The header's correctionField and the total, by the rule of two pads, whose refusal is 33 here.
fn new_field(header: &[u8], total: i64) -> Result<i64, Refusal>
    ensures { answer_of result ≡ field_of (ptp_header header.now) total }
{
    scratch_pad::add_pads(octets::read_signed(header, layout::CORRECTION_FIELD), total).map_err(
        |_| Refusal::CorrectionOutOfRange,
    )
}

// The packet from a place on, nothing where it ends before. The place is never added to: it may be any
// number.
fn header_at(copy: &[u8], place: usize) -> &[u8]
    ensures { result.now ≡ drop place copy.now }
{
    copy.get(place..).unwrap_or(&[])
}

// The new correctionField of a copy of the packet that this message carried: refusals 30 to 33.
fn field_by_carrier(carrier: &[u8], place: usize, copy: &[u8], total: i64) -> Result<i64, Refusal>
    requires { Whole carrier.now }
    ensures { answer_of result
        ≡ packet_field (carried_of carrier.now) (read_sub_tlv (message_value carrier.now)) place copy.now total }
{
    if !octets::same(copy, &carrier[CARRIED..]) {
        return Err(Refusal::NotACopy);
    }
    let header = header_at(copy, place);
    if header.len() < layout::HEADER_SIZE {
        return Err(Refusal::NoPtpHeader);
    }
    if !agrees(header, reader::sub_tlv(reader::value(carrier))) {
        return Err(Refusal::PtpHeaderMismatch);
    }
    new_field(header, total)
}

// The message that carried the packet: the Follow_Up, or the Sync where the Follow_Up's is empty.
fn carrier<'a>(sync: &'a [u8], follow_up: &'a [u8]) -> &'a [u8]
    requires { Whole follow_up.now }
    ensures { result.now ≡ carrier_of sync.now follow_up.now }
{
    if CARRIED < follow_up.len() {
        return follow_up;
    }
    sync
}

// The same for a joined pair. `field_by_carrier` is called in one place, so that it is put into this
// function.
fn field_of_pair(
    sync: &[u8],
    follow_up: &[u8],
    place: usize,
    copy: &[u8],
    total: i64,
) -> Result<i64, Refusal>
    requires { Whole sync.now × Whole follow_up.now }
    ensures { answer_of result
        ≡ packet_field (carried_of (carrier_of sync.now follow_up.now)) (carrier_sub_tlv sync.now follow_up.now) place copy.now total }
{
    field_by_carrier(carrier(sync, follow_up), place, copy, total)
}

// Stores a correctionField in the header at a place.
fn put_field(copy: &mut [u8], place: usize, field: i64)
    requires { place + 34 ≤ length copy.old }
    ensures { copy.new ≡ put copy.old (place + 8) (signed_octets field) }
{
    let field_octets = octets::octets_signed(field);
    octets::put(copy, place + layout::CORRECTION_FIELD, &field_octets);
}

/// Adds the total of a Sync and its Follow_Up to the correctionField of the PTPv2 header that stands
/// at a place of the shown packet, in a copy of that packet, and answers the new field: 2^63-1 where
/// either of the two is that, or their sum is that or more. No other octet of the copy changes, and a
/// refusal leaves it as it came. Refusals: joining's; 30 for a copy of another size or other octets
/// than the shown packet; 31 for a header of 34 octets that does not fit at the place, which may be
/// any number; 32 for a version other than 2, or a message type, source port or sequence other than
/// in the sub-TLV of the message that carried the packet; 33 for a sum below -2^63. The packet's UDP
/// checksum is the host's work.
pub fn correct(sync: &[u8], follow_up: &[u8], place: usize, copy: &mut [u8]) -> Result<i64, Refusal>
    ensures { corrected_left result copy.new ≡ correct_of sync.now follow_up.now place copy.old }
{
    let total = egress::join(sync, follow_up)?;
    let field = field_of_pair(sync, follow_up, place, copy, total)?;
    put_field(copy, place, field);
    Ok(field)
}
