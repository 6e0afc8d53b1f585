// The length that a sub-TLV states (document 02, W-202): written, read again, and copied into a
// created Follow_Up. The packet does not move with it.
use crate::answers::told;
use crate::messages;
use message::{Message, layout};
use table::Table;

fn read(rt: &impl Print, message: &[u8]) {
    let _ = match reader::read(message) {
        Ok(Message::Plain(_)) => print!(rt; "length -"),
        Ok(Message::Ptp(_, sub_tlv)) => print!(rt; "length {}", sub_tlv.length),
        Err(refusal) => print!(rt; "{refusal}"),
    };
    let _ = print!(rt; ", packet of {}", reader::carried(message).len());
}

fn create(rt: &impl Print, sync: &mut [u8]) {
    let mut output = [0; 36];
    let done = node::handle_two_step(Table::new(), sync, &mut output, Ok(7));
    let _ = print!(rt; "; {} ", told(done.answer));
    read(rt, &output);
}

// A Sync that carries a packet, and its Follow_Up.
fn show(rt: &impl Print, length: u16) {
    let _ = print!(rt; "sub-TLV's length {length}: ");
    let mut fields = messages::one_step_sync();
    fields.sub_tlv.length = length;
    let mut sync = [0; 38];
    let _ = writer::write(&mut sync, fields, b"\x0A\x0B");
    read(rt, &sync);
    create(rt, &mut sync);
    let _ = println!(rt; "");
}

pub(crate) fn run(rt: &impl Print) {
    show(rt, layout::PTP_SUB_TLV_VALUE_LENGTH);
    show(rt, layout::PTP_SUB_TLV_LENGTH);
}
