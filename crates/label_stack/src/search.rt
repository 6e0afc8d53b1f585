// The search for the nearest later hop of a path that is in the RTM_SET list.
ghost use Rattle.std.specs.Prelude.{◌≡◌, ◌≤◌, length};
ghost use Rattle.refusal.specs.Refusal.{answer_of};
ghost use Rattle.rtm_set.specs.Entries.{entries_in, Sound};
ghost use Rattle.label_stack.specs.Ttl.{same_address, occurs, searched, ttl_of};

use refusal::Refusal;
use rtm_set::layout;

// Whether two entries have the same type and address; octets 2 and 3 are not looked at, so that
// it is no `==`.
fn same_address(hop: &[u8], entry: &[u8]) -> bool
    requires { (4 ≤ length hop.now) × (4 ≤ length entry.now) }
    ensures { result ≡ same_address hop.now entry.now }
{
    hop[layout::TYPE] == entry[layout::TYPE]
        && octets::same(&hop[layout::ADDRESS..], &entry[layout::ADDRESS..])
}

// Whether a hop's type and address occur in a list that is not refused. Here and below a `while`: the
// stride is each entry's length, for which no `for` fits.
fn occurs(hop: &[u8], set: &[u8]) -> bool
    requires { (4 ≤ length hop.now) × Sound set.now }
    ensures { result ≡ occurs hop.now (entries_in set.now) }
{
    let mut at = 0;
    while at < set.len() {
        let size = set[at + layout::LENGTH] as usize;
        if same_address(hop, &set[at..at + size]) {
            return true;
        }
        at += size;
    }
    false
}

// Of two lists that are not refused, the hops so many: refusals 21 and 24. The hops are walked once.
fn search(hops: &[u8], set: &[u8], position: usize, count: usize) -> Result<u8, Refusal>
    requires { (count ≡ length (entries_in hops.now)) × Sound hops.now × Sound set.now }
    ensures { answer_of result ≡ searched (entries_in hops.now) (entries_in set.now) position }
{
    if count <= position {
        return Err(Refusal::NoEntry);
    }
    let mut at = 0;
    let mut place = 0;
    while at < hops.len() {
        let size = hops[at + layout::LENGTH] as usize;
        if position < place && occurs(&hops[at..at + size], set) {
            return Ok((place - position) as u8);
        }
        at += size;
        place += 1;
    }
    Err(Refusal::NoTimingNode)
}

/// The TTL that takes a packet from the hop at a position, counted from 0, to the nearest later hop
/// that is in the RTM_SET list. The hops are an address list from ingress to egress; RTM_SET may be
/// in any order. Refusals: the hops' 19 and 20, RTM_SET's 19 and 20, 21 for the position, 24 where no
/// later hop is in RTM_SET.
pub fn next_ttl(hops: &[u8], set: &[u8], position: usize) -> Result<u8, Refusal>
    ensures { answer_of result ≡ ttl_of hops.now set.now position }
{
    let count = rtm_set::count(hops)?;
    rtm_set::count(set)?;
    search(hops, set, position, count)
}
