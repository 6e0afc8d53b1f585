// Operation 27: the packet of a pair corrected at the egress.
use crate::case;
use crate::shown::Octets;
use print::Told;
use std::io;

pub(crate) fn run(rt: &impl Print, body: &[u8]) -> io::Result<()> {
    let place = octets::read64(body, 0) as usize;
    let (sync, rest) = case::counted(case::after(body, 8));
    let (follow_up, rest) = case::counted(rest);
    let (packet, _) = case::counted(rest);
    let mut buffer = [0; case::MOST];
    let copy = case::copied(&mut buffer, packet);
    let answer = corrector::correct(sync, follow_up, place, copy);
    println!(rt;
        "correct {} copy {}",
        Told(answer.map(|_| "done")),
        Octets(copy)
    )
}
