// Writing an RTM message (RFC 8169, 3; document 01, Writing and joining): its fields and its carried
// packet, into a lent output.
#![tactic(auto)]

ghost use Rattle.std.specs.Prelude.{◌≡◌, ◌+◌, ◌≤◌, ◌++◌, length, drop};
ghost use Rattle.message.specs.Write.{header_octets, sub_tlv_header, flag_octets, sub_tlv_octets, plain_octets, ptp_octets, fit_of, size_of, write_of};
ghost use Rattle.refusal.specs.Refusal.{answer_of};
ghost use Rattle.refusal.specs.Written.{written};

use message::{Fields, Header, SubTlv, is_ptp, is_sub_tlv_length, layout, types};
pub use refusal::Refusal;

// The size of a message whose carried packet starts at `start`: refusals 2 and 12.
fn fit(start: usize, carried: usize, room: usize) -> Result<usize, Refusal>
    requires { start ≤ 2048 }
    ensures { answer_of result ≡ fit_of (start + carried) room }
{
    if carried > layout::LARGEST - start {
        return Err(Refusal::TooLong);
    }
    if start + carried > room {
        return Err(Refusal::OutputTooSmall);
    }
    Ok(start + carried)
}

// The message's size: refusals 6, 17, 23 and 7, then those of `fit`.
fn size(message_type: u16, sub_tlv: SubTlv, carried: usize, room: usize) -> Result<usize, Refusal>
    ensures { answer_of result ≡ size_of message_type sub_tlv carried room }
{
    if !matches!(message_type, types::NO_PAYLOAD..=types::NTP) {
        return Err(Refusal::Type);
    }
    if is_ptp(message_type) {
        if sub_tlv.ptp_type > types::LAST_PTP_TYPE {
            return Err(Refusal::PtpType);
        }
        if !is_sub_tlv_length(sub_tlv.length) {
            return Err(Refusal::SubTlvLength);
        }
        return fit(layout::CARRIED, carried, room);
    }
    if message_type == types::NO_PAYLOAD && carried > 0 {
        return Err(Refusal::ValueSize);
    }
    fit(layout::VALUE, carried, room)
}

// The header, octets 0 to 15, before a Value of so many octets.
fn put_header(out: &mut [u8], header: Header, count: u16)
    requires { 16 ≤ length out.old }
    ensures { out.new ≡ header_octets header count ++ drop 16 out.old }
{
    let pad = octets::octets_signed(header.pad);
    let message_type = octets::octets16(header.message_type);
    let size = octets::octets16(count);
    octets::put(out, 0, &layout::G_ACH_HEADER);
    octets::put(out, layout::SCRATCH_PAD, &pad);
    octets::put(out, layout::TYPE, &message_type);
    octets::put(out, layout::LENGTH, &size);
}

// The sub-TLV, the first 20 octets of the Value.
fn put_sub_tlv(value: &mut [u8], sub_tlv: SubTlv)
    requires { 20 ≤ length value.old }
    ensures { value.new ≡ sub_tlv_octets sub_tlv ++ drop 20 value.old }
{
    let header = sub_tlv_header(sub_tlv.length);
    let flags = flag_octets(sub_tlv.two_step, sub_tlv.ptp_type);
    let clock = octets::octets64(sub_tlv.clock);
    let port = octets::octets16(sub_tlv.port);
    let sequence = octets::octets16(sub_tlv.sequence);
    octets::put(value, layout::SUB_TLV_TYPE, &header);
    octets::put(value, layout::FLAGS, &flags);
    octets::put(value, layout::CLOCK_IDENTITY, &clock);
    octets::put(value, layout::PORT_NUMBER, &port);
    octets::put(value, layout::SEQUENCE_ID, &sequence);
}

// The sub-TLV's type and the length that it states, octets 16 to 19 of the message.
fn sub_tlv_header(length: u16) -> [u8; 4]
    ensures { result ≡ sub_tlv_header length }
{
    let sub_tlv_type = octets::octets16(layout::PTP_SUB_TLV);
    let stated = octets::octets16(length);
    [sub_tlv_type[0], sub_tlv_type[1], stated[0], stated[1]]
}

// The two-step flag and the PTPType, octets 20 to 23 of the message.
fn flag_octets(two_step: bool, ptp_type: u8) -> [u8; 4]
    ensures { result ≡ flag_octets two_step ptp_type }
{
    [if two_step { 0x80 } else { 0 }, 0, 0, ptp_type]
}

// A message of types 2 to 4.
fn put_ptp(out: &mut [u8], fields: Fields, carried: &[u8])
    requires { (36 + length carried.now ≤ length out.old) × (length carried.now ≤ 2012) }
    ensures { out.new ≡ ptp_octets fields carried.now ++ drop (36 + length carried.now) out.old }
{
    put_header(
        out,
        fields.header,
        (layout::SUB_TLV_SIZE + carried.len()) as u16,
    );
    put_sub_tlv(&mut out[layout::VALUE..], fields.sub_tlv);
    octets::put(out, layout::CARRIED, carried);
}

// A message of types 1 and 5.
fn put_plain(out: &mut [u8], header: Header, carried: &[u8])
    requires { (16 + length carried.now ≤ length out.old) × (length carried.now ≤ 2032) }
    ensures { out.new ≡ plain_octets header carried.now ++ drop (16 + length carried.now) out.old }
{
    put_header(out, header, carried.len() as u16);
    octets::put(out, layout::VALUE, carried);
}

/// Writes a message at the start of the output, which stays as it came beyond the size and on
/// refusal, and answers the size. The order of refusals is 6, 17, 23, 7, 2, 12.
pub fn write(out: &mut [u8], fields: Fields, carried: &[u8]) -> Result<usize, Refusal>
    ensures { written result out.new ≡ write_of fields carried.now out.old }
{
    let size = size(
        fields.header.message_type,
        fields.sub_tlv,
        carried.len(),
        out.len(),
    )?;
    if is_ptp(fields.header.message_type) {
        put_ptp(out, fields, carried);
    } else {
        put_plain(out, fields.header, carried);
    }
    Ok(size)
}
