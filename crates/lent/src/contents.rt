// The words of a lent table as records, and back.
ghost use Rattle.std.specs.Prelude.{◌≡◌};
ghost use Rattle.refusal.specs.Answer.{value};
ghost use Rattle.words.specs.Words.{slots_of};
ghost use Rattle.words.specs.Answers.{left, filled_on};

use crate::layout::{SLOTS, Slot};
use crate::{operations, packed};
use records::Record;

/// The slots as records.
pub fn slots(words: &[u64; 64]) -> [Record; 16]
    ensures { result ≡ slots_of words.now }
{
    let mut slots = [Record::zeros(); 16];
    for i in 0..SLOTS {
        let slot = Slot { number: i };
        slots[i] = packed::decode(
            words[slot.clock()],
            words[slot.packed()],
            words[slot.residence()],
        );
    }
    slots
}

/// Replaces every slot, and the number; reserved words stay.
pub fn fill(words: &mut [u64; 64], slots: [Record; 16], number: u8)
    ensures { left (value 0) words.new ≡ filled_on slots number words.old }
{
    for (k, entry) in slots.iter().enumerate() {
        operations::put_record(words, Slot { number: k }, *entry);
    }
    operations::set_number(words, number);
}
