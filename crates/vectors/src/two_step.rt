// Operations 5 and 16: a message at a two-step node.
use crate::shown::Octets;
use crate::stamps::Format;
use crate::{case, outputs, tables};
use node::Done;
use print::{Told, Word};
use std::io;

// The fields of the body behind the table.
const STAMPS: usize = tables::SIZE;

const ROOM: usize = tables::SIZE + 16;

const MESSAGE: usize = tables::SIZE + 18;

pub(crate) fn run(rt: &impl Print, format: Format, body: &[u8]) -> io::Result<()> {
    let stamps = format.read(case::after(body, STAMPS));
    let room = octets::read16(body, ROOM);
    let (message, _) = case::counted(case::after(body, MESSAGE));
    let mut buffer = [0; case::MOST];
    let message = case::copied(&mut buffer, message);
    let mut out = [outputs::UNWRITTEN; case::MOST];
    let out = &mut out[..room as usize];
    let Done { table, answer } = rtm::two_step(tables::read(body), message, out, stamps);
    let told = Told(answer.map(Word));
    let (message, out, table) = (Octets(message), Octets(out), tables::Shown(table));
    println!(rt; "two-step{format} {told} message {message} out {out} table {table}")
}
