// The table lent as its words, with rubbish in every reserved bit, over several calls: what each call
// leaves of the words, and that by value it leaves the same.
use crate::answers::{Loaded, told};
use crate::card::Card;
use crate::messages;
use crate::messages::Kind;
use crate::switchovers::OLD_IMAGE;
use table::Table;

// Rubbish: as word 0 with a number of 0, as a packed word with a wait of 0.
const RUBBISH: u64 = 0xA5A5_A5A5_A5A5_A500;

// The words of a slot: a clock, the rest of the identity with the wait, and a residence.
type Slot = [u64; 3];

const EMPTY: Slot = [0; 3];

// A Sync's record as a node keeps it, with a wait of 3.
const KEPT: Slot = [1, 0x0000_0001_0001_0003, 9];

// A record with this wait, and rubbish beside it.
fn waiting(wait: u8) -> Slot {
    [2, 0xA5A4_0002_0002_A500 + u64::from(wait), 5]
}

// The words with this number and these slots, and rubbish beside them.
fn words_of(number: u8, slots: [Slot; 16]) -> [u64; 64] {
    let mut words = [RUBBISH; 64];
    words[0] += u64::from(number);
    let (places, _) = words[16..].as_chunks_mut::<3>();
    for (place, slot) in places.iter_mut().zip(slots) {
        *place = slot;
    }
    words
}

// A card with its table by value, and the same table lent.
#[derive(Drop)]
struct Both<'a, R: Print> {
    card: Card<'a, R>,
    words: [u64; 64],
}

impl<'a, R: Print> Both<'a, R> {
    fn new(rt: &'a R, words: [u64; 64]) -> Both<'a, R> {
        let card = Card::with_table(rt, Table { words });
        Both { card, words }
    }

    // Tells whether the lent words are those by value, and those wanted.
    fn compare(&self, wanted: [u64; 64]) {
        if self.words == self.card.table.words && self.words == wanted {
            let _ = print!(self.card.rt; " as wanted");
        } else {
            let _ = print!(self.card.rt; " other words");
        }
    }

    // Hands a message of identity 1 to the node. A Follow_Up's residence is not looked at.
    fn hand(&mut self, kind: Kind, wanted: [u64; 64]) {
        self.card.hand(kind, 1);
        let mut message = messages::written(kind.fields(1));
        let mut output = [0; 36];
        let answer = node::handle_two_step_lent(&mut self.words, &mut message, &mut output, Ok(9));
        let _ = print!(self.card.rt; " lent {} pad {}", told(answer), reader::pad(&message));
        self.compare(wanted);
    }

    fn tick(&mut self, wanted: [u64; 64]) {
        self.card.tick();
        let _ = print!(self.card.rt; " lent {}", table::tick(&mut self.words));
        self.compare(wanted);
    }

    fn load(&mut self, octets: &[u8], wanted: [u64; 64]) {
        self.card.table = self.card.table.load(octets).table;
        let _ = print!(self.card.rt; ", {}", Loaded(table::load_image(&mut self.words, octets)));
        self.compare(wanted);
    }
}

// A record waits with rubbish beside its wait. A Sync is kept behind it, a second one refused, the
// Follow_Up added, and the first record ages out; each by value, and lent.
fn in_service(rt: &impl Print) {
    let _ = print!(rt; "reserved words");
    let mut slots = [[RUBBISH; 3]; 16];
    slots[0] = waiting(3);
    let mut both = Both::new(rt, words_of(1, slots));
    slots[1] = KEPT;
    both.hand(Kind::Sync, words_of(2, slots));
    both.hand(Kind::Sync, words_of(2, slots));
    slots[1] = EMPTY;
    both.hand(Kind::FollowUp, words_of(1, slots));
    slots[0] = waiting(2);
    both.tick(words_of(1, slots));
    slots[0] = waiting(1);
    both.tick(words_of(1, slots));
    slots[0] = EMPTY;
    both.tick(words_of(0, slots));
    let _ = println!(rt; "");
}

// A load that is refused leaves every word, and one that is not replaces all words of slots.
fn loads(rt: &impl Print) {
    let _ = print!(rt; "reserved words and loads");
    let mut slots = [[RUBBISH; 3]; 16];
    slots[0] = waiting(3);
    let before = words_of(2, slots);
    let mut both = Both::new(rt, before);
    both.load(b"\x01", before);
    let mut loaded = [EMPTY; 16];
    loaded[0] = KEPT;
    both.load(&OLD_IMAGE, words_of(1, loaded));
    let _ = println!(rt; "");
}

pub(crate) fn run(rt: &impl Print) {
    in_service(rt);
    loads(rt);
}
