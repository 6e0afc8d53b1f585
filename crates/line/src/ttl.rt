// The program `show_ttl`: the TTL for the next timing node and the two label entries (document 02,
// W-208) for what stands on standard input.
ghost use Rattle.std.specs.Prelude.{◌≡◌, ◌++◌, ◌≤◌, length, take, drop, replicate};
ghost use Rattle.io.specs.Counts.{IsPrefixLen};
ghost use Rattle.refusal.specs.Answer.{value as told};
ghost use Rattle.label_stack.specs.Labels.{labels_of};
ghost use Rattle.line.specs.Ttl.{set_place, laid_out, labels_line_by, labels_line, ttl_line_of};

use crate::text::Text;
use crate::{ROOM, program};

// The input: the position, the LSP's label, then the hops and the RTM_SET list, each behind its size.
const POSITION: usize = 0;

const LABEL: usize = 8;

const HOPS_SIZE: usize = 12;

const HOPS: usize = 14;

// An octet more than the largest input, so that a longer one is seen to be.
const MOST: usize = 65536;

// Where the size of the RTM_SET list stands.
fn set_place(lists: &[u8]) -> usize
    ensures value { result ≡ set_place lists.now }
    ensures upper_bound { result ≤ 65549 }
{
    HOPS + octets::read16(lists, HOPS_SIZE) as usize
}

// Whether the input ends behind the RTM_SET list, and is not too long.
fn laid_out(lists: &[u8]) -> bool
    ensures { result ≡ laid_out lists.now }
{
    let place = set_place(lists);
    lists.len() < MOST && lists.len() == place + 2 + octets::read16(lists, place) as usize
}

// The line of a TTL and the label entries with it.
fn entries_line(ttl: u8, entries: [u8; 8]) -> Text
    ensures { result ≡ labels_line_by entries (told ttl) }
{
    let mut text = Text::new();
    text.field(b"ttl ", ttl as u64);
    text.word(b" ");
    text.hex(octets::read64(&entries, 0));
    text.word(b"\n");
    text
}

// The line of the search and the label entries.
fn labels_line(position: usize, label: u32, hops: &[u8], set: &[u8]) -> Text
    ensures { result ≡ labels_line (labels_of hops.now set.now position label (replicate 8 0)) }
{
    let mut entries = [0u8; 8];
    match label_stack::write(hops, set, position, label, &mut entries) {
        Ok(ttl) => entries_line(ttl, entries),
        Err(refusal) => Text::refused(refusal),
    }
}

fn lists_text(lists: &[u8]) -> Text
    ensures { result ≡ ttl_line_of lists.now }
{
    if !laid_out(lists) {
        return Text::of(b"malformed\n");
    }
    let place = set_place(lists);
    labels_line(
        octets::read64(lists, POSITION) as usize,
        octets::read32(lists, LABEL),
        &lists[HOPS..place],
        &lists[place + 2..],
    )
}

/// The line of an input, at the start of out; answers its length. Octets of out beyond it stay.
pub fn ttl_line(lists: &[u8], out: &mut [u8; ROOM]) -> usize
    ensures out_after { take result out.new ≡ ttl_line_of lists.now }
    ensures out_unchanged { drop result out.new ≡ drop result out.old }
    ensures prefix_len { IsPrefixLen result out.new }
{
    lists_text(lists).copy_to(out)
}

/// Prints the line of an input, and answers how many octets it has. A write that fails is not told.
pub fn print_ttl(rt: &impl Print, lists: &[u8]) -> usize
    ensures { result ≡ length (ttl_line_of lists.now) }
{
    lists_text(lists).print(rt)
}

/// Reads standard input, prints its line, and answers how many octets it read.
pub fn show_ttl(rt: &(impl Input + Print)) -> usize
    ensures { result ≤ 65536 }
{
    program::run(rt, &mut [0; MOST], |lists| print_ttl(rt, lists))
}
