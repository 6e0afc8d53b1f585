// Operations 17, 18 and 20: a record added to a table, one collected from it, and how many wait there.
use crate::shown::Named;
use crate::{case, tables};
use print::Told;
use std::io;
use table::{Entered, Taken};

// Where the residence stands in the body, behind the table and the identity.
const RESIDENCE: usize = tables::SIZE + 13;

pub(crate) fn run_add(rt: &impl Print, body: &[u8]) -> io::Result<()> {
    let identity = tables::identity(case::after(body, tables::SIZE));
    let residence = octets::read64(body, RESIDENCE);
    let Entered { table, answer } = tables::read(body).add(identity, residence);
    let told = Told(answer.map(|()| "waiting"));
    println!(rt; "add {told} table {}", tables::Shown(table))
}

pub(crate) fn run_collect(rt: &impl Print, body: &[u8]) -> io::Result<()> {
    let identity = tables::identity(case::after(body, tables::SIZE));
    let Taken { table, answer } = tables::read(body).collect(identity);
    let told = Told(answer.map(|units| Named("units", units)));
    println!(rt; "collect {told} table {}", tables::Shown(table))
}

pub(crate) fn run_waiting(rt: &impl Print, body: &[u8]) -> io::Result<()> {
    println!(rt; "waiting {}", tables::read(body).waiting())
}
