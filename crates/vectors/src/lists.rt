// Operations 8 and 9: the entries of an address list.
use crate::case;
use crate::shown::Octets;
use print::Told;
use std::io;

pub(crate) fn run_count(rt: &impl Print, body: &[u8]) -> io::Result<()> {
    let (list, _) = case::counted(body);
    println!(rt; "count {}", Told(rtm_set::count(list)))
}

pub(crate) fn run_entry(rt: &impl Print, body: &[u8]) -> io::Result<()> {
    let place = octets::read16(body, 0) as usize;
    let (list, _) = case::counted(case::after(body, 2));
    let told = Told(rtm_set::lookup(list, place).map(|_| "at"));
    println!(rt; "entry {told} {}", Octets(rtm_set::entry(list, place)))
}
