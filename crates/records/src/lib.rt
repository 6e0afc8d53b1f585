// The records that wait for a Follow_Up or a Delay_Resp (document 01, What a node does; document 02,
// W-204): what they are, the number that a table keeps of them, and, in specs/ and proofs/, what a
// table of them does and the theorem that the order of calls at a node does not matter. The table
// itself is the crate `table`.
#![tactic(auto)]

pub mod number;

ghost use Rattle.std.specs.Prelude.{◌≡◌};
ghost use Rattle.records.specs.Slots.{kind_number, identity_of, same, zeros};

/// What a record is kept for: a Sync, whose residence goes on its Follow_Up, or a Delay_Req, whose
/// residence goes on its Delay_Resp (document 02, W-204).
#[derive(Clone, Copy, PartialEq, Eq)]
pub enum RecordKind {
    Sync = 0,
    Delay = 1,
}

/// The identity of a Sync or Follow_Up, a Delay_Req or Delay_Resp: its kind, its port identity, in
/// two numbers, and its sequence.
#[derive(Clone, Copy, PartialEq, Eq)]
pub struct Identity {
    pub clock: u64,
    pub port: u16,
    pub sequence: u16,
    pub kind: RecordKind,
}

/// A slot of the table. It is empty exactly when its wait is 0, whatever else it holds; otherwise
/// it holds a record: an identity, a residence (document 01's "stay") in pad units, and the number
/// of ticks after which it is gone.
#[derive(Clone, Copy)]
pub struct Record {
    pub clock: u64,
    pub port: u16,
    pub sequence: u16,
    pub kind: RecordKind,
    pub residence: u64,
    pub wait: u8,
}

impl RecordKind {
    /// Its number in images and in a table's packed words: 0 Sync, 1 Delay.
    pub fn number(self) -> u8
        ensures { result ≡ kind_number self }
    {
        self as u8
    }
}

impl Identity {
    /// The two are the same: kind, clock identity, port number and sequence. It is `==`, with the
    /// definition's word in its contract.
    #[tactic(auto, unfolding(crate::specs::Slots::same))]
    pub fn equals(self, other: Identity) -> bool
        ensures { result ≡ same self other }
    {
        self == other
    }
}

impl Record {
    /// What the slot holds for an identity, whether it is empty or not.
    pub fn identity(self) -> Identity
        ensures { result ≡ identity_of self }
    {
        Identity {
            clock: self.clock,
            port: self.port,
            sequence: self.sequence,
            kind: self.kind,
        }
    }

    /// What an operation that empties a slot leaves in it.
    pub fn zeros() -> Record
        ensures { result ≡ zeros }
    {
        Record {
            clock: 0,
            port: 0,
            sequence: 0,
            kind: RecordKind::Sync,
            residence: 0,
            wait: 0,
        }
    }
}
