// The address list of the RTM_SET TLV.
ghost use Rattle.std.specs.Prelude.{◌≡◌};
ghost use Rattle.refusal.specs.Answer.{value, and_then};
ghost use Rattle.rtm_set.specs.Entries.{count_of, part_of};
ghost use Rattle.bunpennant.specs.C.{told, tell, put_part};

use crate::sizes;

/// How many entries the list has: 0 and the count, or refusal 19 or 20, which leaves the count as it
/// came.
pub fn rtm_address_count(list: &[u8], count: &mut usize) -> u8
    ensures { told result count.new ≡ tell count.old (count_of list.now) }
{
    sizes::tell(rtm_set::count(list), count)
}

/// Where the entry at a place, counted from 0, begins in the list and how long it is: 0, or refusal 19,
/// 20 or 21, which leaves both as they came.
pub fn rtm_address_entry(list: &[u8], place: usize, entry: &mut [u64; 2]) -> u8
    ensures { told result entry.new
        ≡ tell entry.old (and_then (part_of list.now place) (λ p. value (put_part entry.old p.offset p.length))) }
{
    match rtm_set::locate(list, place) {
        Ok(part) => {
            entry[0] = part.offset as u64;
            entry[1] = part.length as u64;
            0
        }
        Err(refusal) => refusal.number(),
    }
}
