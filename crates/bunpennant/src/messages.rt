// Messages: read, their carried packet found, written.
ghost use Rattle.std.specs.Prelude.{◌≡◌};
ghost use Rattle.refusal.specs.Answer.{value, and_then};
ghost use Rattle.message.specs.Read.{read_of};
ghost use Rattle.message.specs.Write.{write_of};
ghost use Rattle.bunpennant.specs.C.{told, tell, message_fields, fields_in, packet_part, sized, sized_of};

use crate::{fields, sizes};
use message::Message;

/// The message's fields: 0, or the first of refusals 1 to 8, which leaves the struct as it came.
pub fn rtm_read(message: &[u8], fields: &mut [u16; 16]) -> u8
    ensures { told result fields.new
        ≡ tell fields.old (and_then (read_of message.now) (λ m. value (message_fields fields.old m))) }
{
    match reader::read(message) {
        Ok(Message::Plain(header)) => {
            fields::put_header(fields, header);
            0
        }
        Ok(Message::Ptp(header, sub_tlv)) => {
            fields::put_header(fields, header);
            fields::put_sub_tlv(fields, sub_tlv);
            0
        }
        Err(refusal) => refusal.number(),
    }
}

/// The carried packet's offset and length: 0, or the first of refusals 1 to 8, which leaves both as they
/// came.
pub fn rtm_carried(message: &[u8], packet: &mut [u64; 2]) -> u8
    ensures { told result packet.new
        ≡ tell packet.old (and_then (read_of message.now) (λ m. value (packet_part packet.old message.now))) }
{
    match reader::check(message) {
        Ok(()) => {
            let length = reader::carried(message).len();
            packet[0] = (message.len() - length) as u64;
            packet[1] = length as u64;
            0
        }
        Err(refusal) => refusal.number(),
    }
}

/// Writes a message: 0 and its size, or a refusal, which leaves output and size as they came. The order
/// of refusals is 6, 17, 23, 7, 2, 12.
pub fn rtm_write(fields: &[u16; 16], carried: &[u8], output: &mut [u8], size: &mut usize) -> u8
    ensures { sized result output.new size.new
        ≡ sized_of size.old (write_of (fields_in fields.now) carried.now output.old) }
{
    sizes::tell(
        writer::write(output, fields::fields_in(fields), carried),
        size,
    )
}
