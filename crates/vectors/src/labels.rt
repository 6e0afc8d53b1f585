// Operations 21 and 22: the TTL for the next timing node, and the label entries.
use crate::shown::Octets;
use crate::{case, outputs};
use print::Told;
use std::io;

pub(crate) fn run_search(rt: &impl Print, body: &[u8]) -> io::Result<()> {
    let position = octets::read64(body, 0) as usize;
    let (hops, rest) = case::counted(case::after(body, 8));
    let (set, _) = case::counted(rest);
    println!(rt; "ttl {}", Told(label_stack::next_ttl(hops, set, position)))
}

pub(crate) fn run_write(rt: &impl Print, body: &[u8]) -> io::Result<()> {
    let position = octets::read64(body, 0) as usize;
    let label = octets::read32(body, 8);
    let room = octets::read16(body, 12);
    let (hops, rest) = case::counted(case::after(body, 14));
    let (set, _) = case::counted(rest);
    let mut out = [outputs::UNWRITTEN; case::MOST];
    let out = &mut out[..room as usize];
    let answer = label_stack::write(hops, set, position, label, out);
    let told = Told(answer.map(|_| "written"));
    println!(rt; "labels {told} out {}", Octets(out))
}
