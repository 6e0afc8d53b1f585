// Operation 6: a tick.
use crate::tables;
use std::io;
use table::Ticked;

pub(crate) fn run(rt: &impl Print, body: &[u8]) -> io::Result<()> {
    let Ticked { table, emptied } = tables::read(body).tick();
    println!(rt; "tick {emptied} table {}", tables::Shown(table))
}
