// The layout of a table's words, in their order (specs/Words.antt of `words`).
ghost use Rattle.std.specs.Prelude.{◌≡◌, ◌+◌, ◌*◌, ◌<◌};

// The number, in the low octet of its word.
pub(crate) const NUMBER: usize = 0;

// The three words of slot 0; those of slot k lie k times SLOT further on.
const CLOCK: usize = 16;

const PACKED: usize = 17;

const RESIDENCE: usize = 18;

const SLOT: usize = 3;

pub(crate) const SLOTS: usize = 16;

// A slot of the table by its number, and where its words are.
#[derive(Clone, Copy)]
pub(crate) struct Slot {
    pub number: usize,
    ghost of_table: { number < 16 },
}

impl Slot {
    pub(crate) fn clock(self) -> usize
        ensures { result ≡ self.number * 3 + 16 }
    {
        self.number * SLOT + CLOCK
    }

    pub(crate) fn packed(self) -> usize
        ensures { result ≡ self.number * 3 + 17 }
    {
        self.number * SLOT + PACKED
    }

    pub(crate) fn residence(self) -> usize
        ensures { result ≡ self.number * 3 + 18 }
    {
        self.number * SLOT + RESIDENCE
    }
}

// The fields of a packed word: the lowest bit of each as a number, the wait's first. An octet, a
// number of 16 bits, and the key of 33 bits, which is sequence, port number and kind.
pub(crate) const OCTET: u64 = 256;

pub(crate) const SEQUENCE: u64 = 65_536;

pub(crate) const PORT: u64 = 4_294_967_296;

pub(crate) const KIND: u64 = 281_474_976_710_656;

pub(crate) const BITS_16: u64 = 65_536;

pub(crate) const KEYS: u64 = 8_589_934_592;
