// Operations 3 and 14: the residence between two stamps.
use crate::shown::Named;
use crate::stamps::Format;
use print::Told;
use refusal::Refusal;
use std::io;

pub(crate) fn run(rt: &impl Print, format: Format, body: &[u8]) -> io::Result<()> {
    let residence = stamp::residence_of(format.read(body)).map_err(Refusal::from);
    let told = Told(residence.map(|units| Named("units", units)));
    println!(rt; "residence{format} {told}")
}
