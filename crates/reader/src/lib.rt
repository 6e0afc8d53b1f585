// Reading an RTM message (RFC 8169, 3; document 01, The RTM message): what refuses it, the fields of
// its header and of the sub-TLV behind that, and the carried packet.
#![tactic(auto)]

ghost use Rattle.std.specs.Prelude.{◌≡◌, length, drop};
ghost use Rattle.refusal.specs.Answer.{checked};
ghost use Rattle.refusal.specs.Refusal.{answer_of};
ghost use Rattle.message.specs.Read.{is_rtm, header as read_header, message_value, header_of, sub_tlv as read_sub_tlv, sub_tlv_of, read_of, packet_at, carried_of};
ghost use Rattle.reader.specs.Fields.{sub_tlv_in};

use message::{Header, Message, SubTlv, is_sub_tlv_length, layout, types};
use refusal::Refusal;

/// The message's fields, or the first of refusals 1 to 8.
#[inline(always)]
pub fn read(s: &[u8]) -> Result<Message, Refusal>
    ensures { answer_of result ≡ read_of s.now }
{
    let header = read_header(s)?;
    let value = value(s);
    match header.message_type {
        types::NO_PAYLOAD if !value.is_empty() => Err(Refusal::ValueSize),
        types::NO_PAYLOAD | types::NTP => Ok(Message::Plain(header)),
        _ => Ok(Message::Ptp(header, read_sub_tlv(value)?)),
    }
}

/// The header, octets 0 to 15, or the first of refusals 1 to 6.
#[inline(always)]
pub fn read_header(s: &[u8]) -> Result<Header, Refusal>
    ensures { answer_of result ≡ header_of s.now }
{
    if s.len() < layout::VALUE {
        return Err(Refusal::TooShort);
    }
    if s.len() > layout::LARGEST {
        return Err(Refusal::TooLong);
    }
    if !is_rtm(s) {
        return Err(Refusal::NotRtm);
    }
    if s[0] % 16 != 0 {
        return Err(Refusal::Version);
    }
    if octets::read16(s, layout::LENGTH) as usize != s.len() - layout::VALUE {
        return Err(Refusal::Length);
    }
    let message_type = message_type(s);
    // Two comparisons: tested as a range, it costs a one-step call a register and its stack.
    if message_type < types::NO_PAYLOAD || message_type > types::NTP {
        return Err(Refusal::Type);
    }
    Ok(Header {
        message_type,
        pad: pad(s),
    })
}

// Octets 0, 2 and 3: high half 1, and 00 0F; octet 1 is ignored. Taken from one number, the two tests
// compile to one comparison: read apart, they made a message of type 1 a quarter slower.
fn is_rtm(s: &[u8]) -> bool
    ensures { result ≡ is_rtm s.now }
{
    let first = octets::read32(s, 0);
    first / 0x1000_0000 == 1 && first % 0x1_0000 == u32::from(layout::RTM_CHANNEL)
}

/// The sub-TLV with which the Value of types 2 to 4 begins, or refusal 7 or 8.
#[inline(always)]
pub fn read_sub_tlv(value: &[u8]) -> Result<SubTlv, Refusal>
    ensures { answer_of result ≡ sub_tlv_of value.now }
{
    if value.len() < layout::SUB_TLV_SIZE {
        return Err(Refusal::ValueSize);
    }
    let sub_tlv = sub_tlv(value);
    if octets::read16(value, layout::SUB_TLV_TYPE) != layout::PTP_SUB_TLV
        || !is_sub_tlv_length(sub_tlv.length)
    {
        return Err(Refusal::SubTlv);
    }
    Ok(sub_tlv)
}

/// Whether the whole message can be read: if not, the first of refusals 1 to 8.
#[inline(always)]
pub fn check(s: &[u8]) -> Result<(), Refusal>
    ensures { answer_of result ≡ checked (read_of s.now) }
{
    read(s)?;
    Ok(())
}

/// The Type. This and the readers below it refuse nothing: an octet past the end reads as 0.
pub fn message_type(s: &[u8]) -> u16
    ensures { result ≡ (read_header s.now).message_type }
{
    octets::read16(s, layout::TYPE)
}

/// The Scratch Pad.
#[inline(always)]
pub fn pad(s: &[u8]) -> i64
    ensures { result ≡ (read_header s.now).pad }
{
    octets::read_signed(s, layout::SCRATCH_PAD)
}

/// The Value.
pub fn value(s: &[u8]) -> &[u8]
    ensures { result.now ≡ message_value s.now }
{
    after(s, layout::VALUE)
}

/// The PTPType of the sub-TLV in a Value.
pub fn ptp_type(value: &[u8]) -> u8
    ensures { result ≡ (read_sub_tlv value.now).ptp_type }
{
    octets::read8(value, layout::PTP_TYPE) % 16
}

/// The sub-TLV in a Value, and zeros where that has under 20 octets.
pub fn sub_tlv(value: &[u8]) -> SubTlv
    ensures { result ≡ sub_tlv_in value.now }
{
    if value.len() < layout::SUB_TLV_SIZE {
        return SubTlv::default();
    }
    SubTlv {
        length: octets::read16(value, layout::SUB_TLV_LENGTH),
        two_step: value[layout::FLAGS] >= 128,
        ptp_type: ptp_type(value),
        clock: octets::read64(value, layout::CLOCK_IDENTITY),
        port: octets::read16(value, layout::PORT_NUMBER),
        sequence: octets::read16(value, layout::SEQUENCE_ID),
    }
}

/// The carried packet as a part of the message: from octet 36 on, or the whole Value of type 5. It
/// is empty for type 1 and on refusal. Where an empty part lies is left open: it has no octets.
pub fn carried(s: &[u8]) -> &[u8]
    ensures { result.now ≡ carried_of s.now }
{
    after(s, packet_at(s))
}

/// Where the carried packet starts: behind the sub-TLV, whichever length that states, or with the
/// Value; a refused message has none, and it is the end.
#[inline(always)]
fn packet_at(s: &[u8]) -> usize
    ensures { result ≡ packet_at (length s.now) (read_of s.now) }
{
    match read(s) {
        Ok(Message::Plain(_)) => layout::VALUE,
        Ok(Message::Ptp(..)) => layout::CARRIED,
        Err(_) => s.len(),
    }
}

/// The part from octet n on; an empty one where n is past the end.
fn after(s: &[u8], n: usize) -> &[u8]
    ensures { result.now ≡ drop n s.now }
{
    s.get(n..).unwrap_or(&[])
}
