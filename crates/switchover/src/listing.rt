// The records of a table as an image lists them, and which records an image can hold and tell.
ghost use Rattle.std.specs.Prelude.{◌-◌, ◌≤◌, ◌≡◌, take, drop, replicate};
ghost use Rattle.records.specs.Slots.{identity_of, zeros, records_of};
ghost use Rattle.image.specs.Image.{right_wait, sound, every, differ, distinct, loadable, of_sync, tells};

use image::Form;
use records::{Identity, Record, RecordKind};

// Records from slot 0 on, and how many; the other slots are zeros. There is no heap for a Vec.
#[derive(Clone, Copy)]
pub(crate) struct Listing {
    pub slots: [Record; 16],
    pub count: usize,
    ghost few: { count ≤ 16 },
    ghost others: { drop count slots ≡ replicate (16 - count) zeros },
}

impl Listing {
    pub(crate) fn records(&self) -> &[Record]
        ensures { result.now ≡ take self.now.count self.now.slots }
    {
        &self.slots[..self.count]
    }
}

// The records of a table, in slot order. (Put into its caller it is unrolled, and takes 664 octets of
// stack more.)
#[inline(never)]
pub(crate) fn list(slots: &[Record; 16]) -> Listing
    ensures { take result.count result.slots ≡ records_of slots.now }
{
    let none = [Record::zeros(); 16];
    let mut listing = Listing {
        slots: none,
        count: 0,
    };
    for slot in slots {
        let holds = slot.wait != 0;
        if holds {
            let place = listing.count;
            // Raised before the slot is written: what stands behind `count` is zeros at each step.
            listing.count += 1;
            listing.slots[place] = *slot;
        }
    }
    listing
}

fn has_right_wait(slot: Record) -> bool
    ensures { result ≡ right_wait slot }
{
    matches!(slot.wait, 1..=3)
}

// Wait and residence are such as a node leaves.
fn is_sound(slot: Record) -> bool
    ensures { result ≡ sound slot }
{
    has_right_wait(slot) && slot.residence < residence::LIMIT
}

// The identity differs from those of the records.
fn differs_from_all(identity: Identity, records: &[Record]) -> bool
    ensures { result ≡ every (differ identity) records.now }
{
    records.iter().all(|record| differs(identity, *record))
}

#[tactic(auto, unfolding(image::specs::Image::differ))]
fn differs(identity: Identity, slot: Record) -> bool
    ensures { result ≡ differ identity slot }
{
    !identity.equals(slot.identity())
}

// No two of the records have the same identity.
fn are_distinct(records: &[Record]) -> bool
    ensures { result ≡ distinct records.now }
{
    for (i, record) in records.iter().enumerate() {
        if !differs_from_all(record.identity(), &records[i + 1..]) {
            return false;
        }
    }
    true
}

// Each of the records is sound.
fn are_sound(records: &[Record]) -> bool
    ensures { result ≡ every sound records.now }
{
    records.iter().all(|record| is_sound(*record))
}

// The records are such as an image can hold.
pub(crate) fn are_loadable(records: &[Record]) -> bool
    ensures { result ≡ loadable records.now }
{
    records.len() <= 16 && are_sound(records) && are_distinct(records)
}

// The record is of kind Sync.
#[tactic(auto, unfolding(image::specs::Image::of_sync))]
fn is_of_sync(slot: Record) -> bool
    ensures { result ≡ of_sync slot }
{
    slot.kind == RecordKind::Sync
}

// Each of the records is of kind Sync.
fn are_of_sync(records: &[Record]) -> bool
    ensures { result ≡ every of_sync records.now }
{
    records.iter().all(|record| is_of_sync(*record))
}

// An image of the form tells the kinds of the records.
pub(crate) fn are_told(form: Form, records: &[Record]) -> bool
    ensures { result ≡ tells form records.now }
{
    // One match of two cases: no closure is plainer.
    match form {
        Form::Old => are_of_sync(records),
        Form::New => true,
    }
}
