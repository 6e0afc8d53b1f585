// What is done with a lent table, and how many records wait in it.
ghost use Rattle.std.specs.Prelude.{◌≡◌, cond, not, ◌&&◌, ◌+◌, ◌*◌, ◌/◌, ◌%◌, ◌≤◌, eqb, length, get_or};
ghost use Rattle.refusal.specs.Answer.{value};
ghost use Rattle.records.specs.declared.Identity.{Identity};
ghost use Rattle.records.specs.Slots.{holds, empty, lowest};
ghost use Rattle.records.specs.Node.{add as request_add, collect as request_collect};
ghost use Rattle.records.specs.Number.{read_number};
ghost use Rattle.words.specs.Words.{slots_of, number_of, key_of, put_slot, put_record, with_number, age_slot};
ghost use Rattle.words.specs.Answers.{left, new_on, request_on, tick_on};
ghost use Rattle.words.specs.Meaning.{IdentityFits, RecordFits};
ghost use Rattle.refusal.specs.Refusal.{answer_of};
ghost use Rattle.lent.specs.Answers.{entry_answer, place_of};

use crate::layout::Slot;
use crate::{layout, packed};
use records::{Identity, Record, number};
use refusal::Refusal;

// The slot holds a record with this key and clock identity. The clock is read where the key is found.
fn holds(words: &[u64; 64], slot: Slot, key: u64, clock: u64) -> bool
    ensures { result
        ≡ ((eqb key (get_or words.now (slot.number * 3 + 17) 0 / 65536 % 8589934592) && not (eqb (get_or words.now (slot.number * 3 + 17) 0 % 256) 0))
        && eqb clock (get_or words.now (slot.number * 3 + 16) 0)) }
{
    packed::has_key(words[slot.packed()], key) && clock == words[slot.clock()]
}

// The lowest slot that holds a record of the identity with this key and clock identity.
fn place(words: &[u64; 64], key: u64, clock: u64) -> Option<Slot>
    ensures { (q : Identity)
        → key ≡ key_of q
        → clock ≡ q.clock
        → IdentityFits q
        → place_of result ≡ lowest (holds q) (slots_of words.now) }
{
    for i in 0..layout::SLOTS {
        let slot = Slot { number: i };
        if holds(words, slot, key, clock) {
            return Some(slot);
        }
    }
    None
}

// The lowest empty slot.
fn vacancy(words: &[u64; 64]) -> Option<Slot>
    ensures { place_of result ≡ lowest empty (slots_of words.now) }
{
    for i in 0..layout::SLOTS {
        let slot = Slot { number: i };
        if words[slot.packed()] % layout::OCTET == 0 {
            return Some(slot);
        }
    }
    None
}

/// The number as it is kept.
#[tactic(auto, unfolding(words::specs::Words::number_of))]
pub fn number(words: &[u64; 64]) -> u8
    ensures { result ≡ number_of words.now }
{
    (words[layout::NUMBER] % layout::OCTET) as u8
}

#[tactic(auto, unfolding(words::specs::Words::with_number))]
pub(crate) fn set_number(words: &mut [u64; 64], number: u8)
    ensures { words.new ≡ with_number words.old number }
{
    words[layout::NUMBER] = packed::with_number(words[layout::NUMBER], number);
}

#[tactic(auto, unfolding(words::specs::Words::put_slot))]
fn put(words: &mut [u64; 64], slot: Slot, clock: u64, packed: u64, residence: u64)
    ensures { words.new ≡ put_slot words.old slot.number clock packed residence }
{
    words[slot.clock()] = clock;
    words[slot.packed()] = packed;
    words[slot.residence()] = residence;
}

// Puts a record into a slot. The ranges are for the proofs of callers.
pub(crate) fn put_record(words: &mut [u64; 64], slot: Slot, entry: Record)
    ensures { (words.new ≡ put_record words.old slot.number entry) × RecordFits entry }
{
    put(
        words,
        slot,
        entry.clock,
        packed::packed_of(entry),
        entry.residence,
    );
}

fn residence_at(words: &[u64; 64], slot: Slot) -> u64
    ensures { result ≡ get_or words.now (slot.number * 3 + 18) 0 }
{
    words[slot.residence()]
}

/// Makes it a table with no records: all zeros.
#[tactic(auto, unfolding(words::specs::Words::decoded, words::specs::Words::slots_of, words::specs::Words::number_of))]
pub fn clear(words: &mut [u64; 64])
    ensures { left (value 0) words.new ≡ new_on }
{
    *words = [0; 64];
}

/// How many records wait, by the number that the table keeps: at most 16. No slot is looked at.
pub fn waiting(words: &[u64; 64]) -> u8
    ensures { result ≡ read_number (number_of words.now) }
{
    number::read(number(words))
}

/// Puts a record with a wait of 3 into the lowest empty slot; refusal 13 where one with its
/// identity waits already, 14 where no slot is empty.
pub fn add(words: &mut [u64; 64], identity: Identity, residence: u64) -> Result<(), Refusal>
    ensures { left (entry_answer result) words.new ≡ request_on (request_add identity residence) words.old }
{
    let kept = number(words);
    if place(words, packed::key_of(identity), identity.clock).is_some() {
        return Err(Refusal::AlreadyWaiting);
    }
    let slot = vacancy(words).ok_or(Refusal::NoEmptySlot)?;
    let entry = Record {
        clock: identity.clock,
        port: identity.port,
        sequence: identity.sequence,
        kind: identity.kind,
        residence,
        wait: 3,
    };
    put_record(words, slot, entry);
    set_number(words, number::one_more(kept));
    Ok(())
}

/// Takes the record with this identity out; refusal 15 where there is none.
pub fn collect(words: &mut [u64; 64], identity: Identity) -> Result<u64, Refusal>
    ensures { left (answer_of result) words.new ≡ request_on (request_collect identity) words.old }
{
    let slot = place(words, packed::key_of(identity), identity.clock).ok_or(Refusal::NoRecord)?;
    let residence = residence_at(words, slot);
    let kept = number(words);
    put(words, slot, 0, 0, 0);
    set_number(words, number::fewer(1, kept));
    Ok(residence)
}

// A slot after a tick, and whether it was emptied. It also writes, so that it is no test in one
// expression.
fn age(words: &mut [u64; 64], slot: Slot) -> bool
    ensures value { result ≡ eqb (get_or words.old (slot.number * 3 + 17) 0 % 256) 1 }
    ensures words_after { words.new ≡ age_slot words.old slot.number }
{
    let packed = words[slot.packed()];
    if packed % layout::OCTET == 1 {
        put(words, slot, 0, 0, 0);
        return true;
    }
    words[slot.packed()] = packed::lowered(packed);
    false
}

/// Lowers every wait above 0 by one, empties the slots whose wait reaches 0, and counts them.
pub fn tick(words: &mut [u64; 64]) -> u8
    ensures { left (value result) words.new ≡ tick_on words.old }
{
    let kept = number(words);
    let mut emptied: u8 = 0;
    for i in 0..layout::SLOTS {
        emptied += u8::from(age(words, Slot { number: i }));
    }
    set_number(words, number::fewer(emptied, kept));
    emptied
}
