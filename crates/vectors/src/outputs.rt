// An output that a case lends, each octet AA before the call.
use crate::case;
use crate::shown::{Named, Octets};
use print::Told;
use refusal::Refusal;
use std::io;

pub(crate) const UNWRITTEN: u8 = 0xAA;

// Lends an output of so many octets to be written, and shows the size that is answered and what the
// output holds then.
pub(crate) fn show<R, F>(rt: &R, name: &str, room: u16, write: F) -> io::Result<()>
where
    R: Print,
    F: FnOnce(&mut [u8]) -> Result<usize, Refusal>,
    requires { F.IsAlwaysCallable write }
{
    let mut out = [UNWRITTEN; case::MOST];
    let out = &mut out[..room as usize];
    let told = Told(write(out).map(|size| Named("size", size)));
    println!(rt; "{name} {told} out {}", Octets(out))
}
