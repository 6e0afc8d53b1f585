// Operations 10, 11, 19, 24 and 25: the image of a table, written, loaded and converted.
use crate::shown::Named;
use crate::{case, outputs, tables};
use print::Told;
use std::io;
use table::{Reloaded, Table};

pub(crate) fn run_write(rt: &impl Print, body: &[u8]) -> io::Result<()> {
    let room = octets::read16(body, tables::SIZE);
    outputs::show(rt, "image-write", room, |out| tables::read(body).write(out))
}

// The image loaded over a new table, which is shown where it was loaded.
pub(crate) fn run_load(rt: &impl Print, body: &[u8]) -> io::Result<()> {
    let (image, _) = case::counted(body);
    let Reloaded { table, answer } = Table::new().load(image);
    let told = Told(answer.map(|()| Named("table", tables::Shown(table))));
    println!(rt; "image-load {told}")
}

// The image loaded over the table of the body.
pub(crate) fn run_replace(rt: &impl Print, body: &[u8]) -> io::Result<()> {
    let (image, _) = case::counted(case::after(body, tables::SIZE));
    let Reloaded { table, answer } = tables::read(body).load(image);
    let told = Told(answer.map(|()| "loaded"));
    println!(rt; "image-replace {told} table {}", tables::Shown(table))
}

// The form that an image is converted to.
#[derive(Clone, Copy)]
pub(crate) enum To {
    New,
    Old,
}

// The image of the body, behind the room (2), converted.
pub(crate) fn run_convert(rt: &impl Print, to: To, body: &[u8]) -> io::Result<()> {
    let (image, _) = case::counted(case::after(body, 2));
    let name = match to {
        To::New => "image-to-new",
        To::Old => "image-to-old",
    };
    outputs::show(rt, name, octets::read16(body, 0), |out| match to {
        To::New => switchover::to_new(image, out),
        To::Old => switchover::to_old(image, out),
    })
}
