// Slots of a table: the records that a caller puts there, and how a line shows a slot.
use records::{Record, RecordKind};
use std::fmt;

// A Sync's record. Clock, port and sequence are alike.
pub(crate) fn record(identity: u16, residence: u64, wait: u8) -> Record {
    Record {
        clock: u64::from(identity),
        port: identity,
        sequence: identity,
        kind: RecordKind::Sync,
        residence,
        wait,
    }
}

// A slot: its sequence and its wait; a Delay record has a mark.
#[derive(Clone, Copy)]
pub(crate) struct Slot(pub(crate) Record);

impl fmt::Display for Slot {
    fn fmt<W: fmt::Write>(&self, f: &mut fmt::Formatter<W>) -> fmt::Result {
        let slot = self.0;
        let mark = match slot.kind {
            RecordKind::Sync => "",
            RecordKind::Delay => "d",
        };
        write!(f, "{mark}{}:{}", slot.sequence, slot.wait)
    }
}
