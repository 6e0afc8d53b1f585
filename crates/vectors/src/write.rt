// Operations 2 and 13: a message written from its fields.
use crate::{case, outputs};
use message::{Fields, Header, SubTlv, layout};
use std::io;

// The fields of the body, in their order: Type (2), pad (8), s (1), PTPType (1), port (10),
// sequence (2). The sub-TLV's length is given apart.
fn fields(body: &[u8], length: u16) -> Fields {
    let header = Header {
        message_type: octets::read16(body, 0),
        pad: octets::read_signed(body, 2),
    };
    let sub_tlv = SubTlv {
        length,
        two_step: octets::read8(body, 10) == 1,
        ptp_type: octets::read8(body, 11),
        clock: octets::read64(body, 12),
        port: octets::read16(body, 20),
        sequence: octets::read16(body, 22),
    };
    Fields { header, sub_tlv }
}

// Writes into an output of the size that the rest of the body gives: room (2), and the carried
// packet.
fn show(rt: &impl Print, name: &str, fields: Fields, rest: &[u8]) -> io::Result<()> {
    let room = octets::read16(rest, 0);
    let (carried, _) = case::counted(case::after(rest, 2));
    outputs::show(rt, name, room, |out| {
        writer::write(out, fields, carried)
    })
}

// With the length that RFC 8169 gives.
pub(crate) fn run(rt: &impl Print, body: &[u8]) -> io::Result<()> {
    let fields = fields(body, layout::PTP_SUB_TLV_LENGTH);
    show(rt, "write", fields, case::after(body, 24))
}

// With a length (2) of the body's, behind the sequence.
pub(crate) fn run_length(rt: &impl Print, body: &[u8]) -> io::Result<()> {
    let fields = fields(body, octets::read16(body, 24));
    show(rt, "write-length", fields, case::after(body, 26))
}
