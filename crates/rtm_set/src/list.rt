// Counting the entries of a list, and finding one.
ghost use Rattle.std.specs.Prelude.{◌≡◌, ◌-◌, ◌≤◌, length};
ghost use Rattle.refusal.specs.Refusal.{answer_of};
ghost use Rattle.rtm_set.specs.Entries.{count_of, entry_of, part_by, part_of, behind};
ghost use Rattle.rtm_set.specs.Answers.{size_of, front_of, shown_of};

use crate::layout;
use crate::part::Part;
use refusal::Refusal;

// The whole length of an entry of a known type.
fn entry_size(entry_type: u8) -> Option<usize>
    ensures { result ≡ size_of entry_type }
{
    match entry_type {
        layout::IPV4 => Some(layout::IPV4_SIZE),
        layout::IPV6 => Some(layout::IPV6_SIZE),
        layout::UNNUMBERED => Some(layout::UNNUMBERED_SIZE),
        _ => None,
    }
}

// The size of the entry at the front, unless it is cut short, of unknown type or of wrong length.
fn front(list: &[u8]) -> Option<usize>
    ensures { result ≡ front_of list.now }
{
    let &[entry_type, stated, ..] = list else {
        return None;
    };
    let size = entry_size(entry_type)?;
    if usize::from(stated) != size || list.len() < size {
        return None;
    }
    Some(size)
}

// An entry is read, then the rest of the list in the same way: the octets left fall at each call.
fn count_rest(list: &[u8]) -> Result<usize, Refusal>
    requires { length list.now ≤ 1024 }
    ensures { answer_of result ≡ count_of list.now }
{
    if list.is_empty() {
        return Ok(0);
    }
    let Some(size) = front(list) else {
        return Err(Refusal::BadEntry);
    };
    Ok(count_rest(&list[size..])? + 1)
}

/// The count of entries: refusals 19 and 20.
pub fn count(list: &[u8]) -> Result<usize, Refusal>
    ensures { answer_of result ≡ count_of list.now }
{
    if list.len() > layout::LARGEST {
        return Err(Refusal::ListTooLong);
    }
    count_rest(list)
}

// The list from the entry at a place on; where it has none there, from where it ends or a bad entry
// stands. Only what stands before is read.
fn locate_rest(list: &[u8], place: usize) -> &[u8]
    requires { length list.now ≤ 1024 }
    ensures upper_bound { length result.now ≤ length list.now }
    ensures part_from { behind (length list.now - length result.now) (part_of result.now 0) ≡ part_of list.now place }
{
    let is_front = place == 0;
    if is_front {
        return list;
    }
    let Some(size) = front(list) else {
        return list;
    };
    locate_rest(&list[size..], place - 1)
}

/// Where the entry at a place, counted from 0, begins in the list, and its length: refusals 19, 20
/// (also for an entry beyond the place) and 21.
pub fn locate(list: &[u8], place: usize) -> Result<Part, Refusal>
    ensures { answer_of result ≡ part_of list.now place }
{
    if layout::LARGEST < list.len() {
        return Err(Refusal::ListTooLong);
    }
    let rest = locate_rest(list, place);
    let offset = list.len() - rest.len();
    count_rest(rest)?;
    let Some(length) = front(rest) else {
        return Err(Refusal::NoEntry);
    };
    Ok(Part { offset, length })
}

/// The entry at a place as a part of the list, with the refusals of `locate`.
pub fn lookup(list: &[u8], place: usize) -> Result<&[u8], Refusal>
    ensures { shown_of result ≡ entry_of list.now place }
{
    let part = locate(list, place)?;
    Ok(&list[part.offset..part.offset + part.length])
}

/// The entry at a place, and an empty part on refusal. Where an empty part lies is left open: it has
/// no octets.
pub fn entry(list: &[u8], place: usize) -> &[u8]
    ensures { result.now ≡ part_by (entry_of list.now place) }
{
    lookup(list, place).unwrap_or(&[])
}
