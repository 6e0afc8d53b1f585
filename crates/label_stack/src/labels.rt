// The two label entries, written at the start of a lent output.
ghost use Rattle.std.specs.Prelude.{◌≡◌, ◌≤◌, length};
ghost use Rattle.label_stack.specs.Labels.{entry_octets, lsp_entry, labelled, labels_by, labels_of};
ghost use Rattle.refusal.specs.Written.{written};

use crate::layout;
use crate::search::next_ttl;
use refusal::Refusal;

// The LSP's entry: its label and the TTL, traffic class 0, not bottom of stack.
fn lsp_entry(label: u32, ttl: u8) -> [u8; 4]
    requires { label ≤ 1048575 }
    ensures { result ≡ entry_octets (lsp_entry label ttl) }
{
    octets::octets32(label * layout::LABEL_UNIT + u32::from(ttl))
}

// Writes the two entries for a TTL: refusals 25 and 12.
fn put_entries(ttl: u8, label: u32, out: &mut [u8]) -> Result<u8, Refusal>
    ensures { written result out.new ≡ labels_by label out.old (labelled label (length out.old) ttl) }
{
    if !(layout::FIRST_LABEL..=layout::LAST_LABEL).contains(&label) {
        return Err(Refusal::Label);
    }
    if out.len() < layout::BOTH_SIZE {
        return Err(Refusal::OutputTooSmall);
    }
    let lsp = lsp_entry(label, ttl);
    octets::put(out, 0, &lsp);
    octets::put(out, layout::SECOND_ENTRY, &layout::GAL_ENTRY);
    Ok(ttl)
}

/// The search of `next_ttl`, and the two entries for its answer at the start of the output: the LSP's
/// label with this TTL, then the G-ACh Label. After the search's refusals 25 for a label below 16 or
/// over 1,048,575, then 12. Octets beyond the eight stay, and a refusal leaves the output as it came.
pub fn write(
    hops: &[u8],
    set: &[u8],
    position: usize,
    label: u32,
    out: &mut [u8],
) -> Result<u8, Refusal>
    ensures { written result out.new ≡ labels_of hops.now set.now position label out.old }
{
    put_entries(next_ttl(hops, set, position)?, label, out)
}
