// The table of waiting records by value, document 01's form ("The table is handed in and handed back
// by each operation"): each method copies the words once, makes one call of the lent form (crate
// `lent`) and hands them back. And the image of a table, lent or by value.
#![tactic(auto)]

mod images;

ghost use Rattle.std.specs.Prelude.{◌≡◌, replicate};
ghost use Rattle.records.specs.Node.{add as request_add, collect as request_collect};
ghost use Rattle.records.specs.Number.{read_number};
ghost use Rattle.refusal.specs.Written.{written};
ghost use Rattle.image.specs.Image.{write_of};
ghost use Rattle.words.specs.Words.{slots_of, number_of};
ghost use Rattle.words.specs.Answers.{new_on, request_on, tick_on, filled_on};
ghost use Rattle.table.specs.Table.{made, entered, taken, counted, load_on, reloaded};

pub use images::{load_image, write_image};
pub use lent::{add, clear, collect, fill, number, slots, tick, waiting};
use records::{Identity, Record};
pub use refusal::Refusal;

/// The words are slots, a number and room for later fields (specs/Words.antt of `words`). In a new
/// or a loaded table, and in what the operations make of one, the number is how many slots hold a
/// record. In any other table it is any octet: over 16 it is read as 16, and no answer but that of
/// `waiting` depends on it.
#[derive(Clone, Copy)]
pub struct Table {
    pub words: [u64; 64],
}

// What the methods hand back is document 01's form: they take the table by value, and hand it back on
// refusal too, so that it stands beside the answer.

/// The table after a record was added, and the answer.
#[derive(Clone, Copy)]
pub struct Entered {
    pub table: Table,
    pub answer: Result<(), Refusal>,
}

/// The table after a record was collected, and the answer.
#[derive(Clone, Copy)]
pub struct Taken {
    pub table: Table,
    pub answer: Result<u64, Refusal>,
}

/// The table after a tick, and how many slots it emptied.
#[derive(Clone, Copy)]
pub struct Ticked {
    pub table: Table,
    pub emptied: u8,
}

/// The table after an image was loaded, and the answer.
#[derive(Clone, Copy)]
pub struct Reloaded {
    pub table: Table,
    pub answer: Result<(), Refusal>,
}

impl Table {
    /// A table with no records: all zeros.
    #[tactic(auto, unfolding(words::specs::Words::decoded, words::specs::Words::slots_of, words::specs::Words::number_of))]
    pub fn new() -> Table
        ensures { made result ≡ new_on }
    {
        Table { words: [0; 64] }
    }

    /// A table with these slots and this number, and nothing else.
    pub fn of(slots: [Record; 16], number: u8) -> Table
        ensures { made result ≡ filled_on slots number (replicate 64 0) }
    {
        let mut table = Table::new();
        lent::fill(&mut table.words, slots, number);
        table
    }

    /// The slots as records.
    pub fn slots(self) -> [Record; 16]
        ensures { result ≡ slots_of self.words }
    {
        lent::slots(&self.words)
    }

    /// The number as it is kept.
    pub fn number(self) -> u8
        ensures { result ≡ number_of self.words }
    {
        lent::number(&self.words)
    }

    /// How many records wait, by the number that the table keeps: at most 16. No slot is looked at.
    pub fn waiting(self) -> u8
        ensures { result ≡ read_number (number_of self.words) }
    {
        lent::waiting(&self.words)
    }

    /// Puts a record with a wait of 3 into the lowest empty slot; refusal 13 where one with its
    /// identity waits already, 14 where no slot is empty.
    pub fn add(mut self, identity: Identity, residence: u64) -> Entered
        ensures { entered result ≡ request_on (request_add identity residence) self.words }
    {
        let answer = lent::add(&mut self.words, identity, residence);
        Entered {
            table: self,
            answer,
        }
    }

    /// Takes the record with this identity out; refusal 15 where there is none.
    pub fn collect(mut self, identity: Identity) -> Taken
        ensures { taken result ≡ request_on (request_collect identity) self.words }
    {
        let answer = lent::collect(&mut self.words, identity);
        Taken {
            table: self,
            answer,
        }
    }

    /// Lowers every wait above 0 by one, empties the slots whose wait reaches 0, and counts them.
    pub fn tick(mut self) -> Ticked
        ensures { counted result ≡ tick_on self.words }
    {
        let emptied = lent::tick(&mut self.words);
        Ticked {
            table: self,
            emptied,
        }
    }

    /// Writes the image of this table, in the new form, at the start of the output, which stays as
    /// it came beyond the size and on refusal. Only records count. Refusal 22 where they could not
    /// be loaded, then 12.
    pub fn write(self, out: &mut [u8]) -> Result<usize, Refusal>
        ensures { written result out.new ≡ write_of (slots_of self.words) out.old }
    {
        images::write_image(&self.words, out)
    }

    /// The table that an image of either form loads: its records from slot 0 on, in its order, and
    /// zeros; and their number. Reserved words stay. Refusal 22 for any other octets, with the
    /// table that came.
    pub fn load(mut self, octets: &[u8]) -> Reloaded
        ensures { reloaded result ≡ load_on octets.now self.words }
    {
        let answer = images::load_image(&mut self.words, octets);
        Reloaded {
            table: self,
            answer,
        }
    }
}
