// Standard input, so many octets at a time. As with any read, no contract can say what was read.
#![tactic(auto)]

ghost use Rattle.std.specs.Prelude.{◌≤◌, ◌≡◌, length, drop};
ghost use Rattle.io.specs.Counts.{IsPrefixLen};
ghost use Rattle.input.specs.Reads.{Reads};

use std::io::Read;

// The most octets that one call reads.
const MOST: usize = 65536;

/// Reads until buf is full, the input ends or a read fails, and answers how many octets stand at its
/// start; what buf holds beyond them is left open. A read that a signal interrupts before it moves an
/// octet counts as one that failed.
pub fn fill(rt: &impl Input, buf: &mut [u8]) -> usize
    ensures { IsPrefixLen result buf.new }
{
    let mut reader = rt.reader();
    let mut done: usize = 0;
    // By `read`, since `read_exact` leaves open what stands before an error.
    while done < buf.len() {
        let n = reader.read(&mut buf[done..]).unwrap_or(0);
        if n == 0 {
            break;
        }
        done += n;
    }
    done
}

// Reads to the start of buf, by way of `incoming`, as many octets as that has. Of what a read leaves
// behind the octets that it tells of nothing is known, and so only those go to buf.
fn receive(rt: &impl Input, buf: &mut [u8], incoming: &mut [u8]) -> usize
    requires { length incoming.old ≤ length buf.old }
    ensures prefix_len { IsPrefixLen result buf.new }
    ensures upper_bound { result ≤ length incoming.old }
    ensures buf_unchanged { drop result buf.new ≡ drop result buf.old }
{
    let n = fill(rt, incoming);
    octets::put(buf, 0, &incoming[..n]);
    n
}

/// Reads the next `size` octets to the start of buf, or all where fewer are left, and answers how
/// many. The octets of buf beyond those stay. Where buf has no room for `size` octets, or `size` is
/// over 65,536, it reads none.
pub fn read(rt: &impl Input, buf: &mut [u8], size: usize) -> usize
    ensures prefix_len { IsPrefixLen result buf.new }
    ensures reads { Reads size buf.old buf.new result }
{
    let room = buf.len();
    if room < size || MOST < size {
        return 0;
    }
    let mut incoming = [0u8; MOST];
    receive(rt, buf, &mut incoming[..size])
}
