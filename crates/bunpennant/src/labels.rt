// The TTL for the next timing node, and the two label entries.
ghost use Rattle.std.specs.Prelude.{◌≡◌};
ghost use Rattle.label_stack.specs.Ttl.{ttl_of};
ghost use Rattle.label_stack.specs.Labels.{labels_of};
ghost use Rattle.bunpennant.specs.C.{told, tell, told_write};

use crate::sizes;

/// The distance from the hop at a position to the nearest later one that is in RTM_SET: 0 and the
/// TTL, or refusal 19, 20, 21 or 24, which leaves the TTL as it came.
pub fn rtm_next_ttl(hops: &[u8], set: &[u8], position: usize, ttl: &mut u8) -> u8
    ensures { told result ttl.new ≡ tell ttl.old (ttl_of hops.now set.now position) }
{
    sizes::tell(label_stack::next_ttl(hops, set, position), ttl)
}

/// The two label entries for that TTL, at the start of the output: 0, or a refusal, the search's, 25
/// or 12, which leaves the output as it came.
pub fn rtm_write_labels(
    hops: &[u8],
    set: &[u8],
    position: usize,
    label: u32,
    output: &mut [u8],
) -> u8
    ensures { told result output.new ≡ told_write (labels_of hops.now set.now position label output.old) }
{
    sizes::number(label_stack::write(hops, set, position, label, output))
}
