// A card of a router, a two-step node with its table. Each call prints what the node answers.
use crate::answers::{Loaded, told};
use crate::messages;
use crate::messages::Kind;
use crate::slots::{Slot, record};
use message::Fields;
use residence::Residence;
use stamp::Stamps;
use table::Table;

// The largest image, of 16 records.
pub(crate) const LARGEST: usize = 386;

#[derive(Drop)]
pub(crate) struct Card<'a, R: Print> {
    pub(crate) rt: &'a R,
    pub(crate) table: Table,
}

impl<'a, R: Print> Card<'a, R> {
    pub(crate) fn new(rt: &'a R) -> Card<'a, R> {
        Card::with_table(rt, Table::new())
    }

    pub(crate) fn with_table(rt: &'a R, table: Table) -> Card<'a, R> {
        Card { rt, table }
    }

    // Hands a message with its stamps to the node.
    pub(crate) fn handle_stamped(&mut self, message: &mut [u8], output: &mut [u8], stamps: Stamps) {
        let done = rtm::two_step(self.table, message, output, stamps);
        self.table = done.table;
        let _ = print!(self.rt; ", {}", told(done.answer));
    }

    // Hands a message with a residence to the node, and prints its pad.
    pub(crate) fn handle(&mut self, fields: Fields, residence: Residence) {
        let mut message = messages::written(fields);
        let mut output = [0; 36];
        let done = node::handle_two_step(self.table, &mut message, &mut output, residence);
        self.table = done.table;
        let _ = print!(self.rt; "{} pad {}", told(done.answer), reader::pad(&message));
    }

    // Names a message by its kind and its sequence, and hands it to the node.
    pub(crate) fn hand_fields(&mut self, kind: Kind, fields: Fields) {
        let _ = print!(self.rt; ", {kind} {} ", fields.sub_tlv.sequence);
        self.handle(fields, kind.residence());
    }

    pub(crate) fn hand(&mut self, kind: Kind, identity: u16) {
        self.hand_fields(kind, kind.fields(identity));
    }

    pub(crate) fn tick(&mut self) {
        let ticked = self.table.tick();
        self.table = ticked.table;
        let _ = print!(self.rt; ", tick {}", ticked.emptied);
    }

    pub(crate) fn ticks(&mut self, count: u8) {
        for _ in 0..count {
            self.tick();
        }
    }

    // Prints the number that the table keeps and the one that it answers.
    pub(crate) fn ask(&self) {
        let _ = print!(self.rt;
            ", keeps {} answers {}",
            self.table.number(),
            self.table.waiting()
        );
    }

    // Loads the octets into the card's table, and prints its first two slots.
    pub(crate) fn load(&mut self, octets: &[u8]) {
        let loaded = self.table.load(octets);
        self.table = loaded.table;
        let slots = self.table.slots();
        let _ = print!(self.rt;
            ", {} {} {}",
            Loaded(loaded.answer),
            Slot(slots[0]),
            Slot(slots[1])
        );
    }

    // The image of the card's table, in this buffer; none where it cannot be written.
    pub(crate) fn image<'b>(&self, buffer: &'b mut [u8; LARGEST]) -> Option<&'b [u8]> {
        match self.table.write(buffer) {
            Ok(size) => {
                let _ = print!(self.rt; ", image of {size}");
                Some(&buffer[..size.min(LARGEST)])
            }
            Err(refusal) => {
                let _ = print!(self.rt; ", image {refusal}");
                None
            }
        }
    }

    // Another card, whose table holds rubbish, takes over with the image; without one this card stays.
    pub(crate) fn switch(&mut self) {
        let mut buffer = [0xAA; LARGEST];
        if let Some(image) = self.image(&mut buffer) {
            self.table = Table::of([record(9, 9, 255); 16], 255);
            self.load(image);
        }
    }
}
