// A table in a case and in a line: its number (1), and 16 slots of 22 octets, each kind (1: 0 Sync, 1
// Delay), port identity (clock identity 8, port number 2), sequence (2), residence in pad units (8)
// and wait (1).
use crate::case;
use records::{Identity, Record, RecordKind};
use std::{array, fmt};
use table::Table;

// The octets of a table.
pub(crate) const SIZE: usize = SLOTS + 16 * SLOT_SIZE;

const SLOTS: usize = 1;

const SLOT_SIZE: usize = 22;

// A table, in hexadecimal.
#[derive(Clone, Copy)]
pub(crate) struct Shown(pub(crate) Table);

fn kind(number: u8) -> RecordKind {
    match number {
        1 => RecordKind::Delay,
        _ => RecordKind::Sync,
    }
}

// The identity at the start of s: kind, port identity and sequence.
pub(crate) fn identity(s: &[u8]) -> Identity {
    Identity {
        kind: kind(octets::read8(s, 0)),
        clock: octets::read64(s, 1),
        port: octets::read16(s, 9),
        sequence: octets::read16(s, 11),
    }
}

fn slot(s: &[u8]) -> Record {
    let Identity {
        kind,
        clock,
        port,
        sequence,
    } = identity(s);
    Record {
        kind,
        clock,
        port,
        sequence,
        residence: octets::read64(s, 13),
        wait: octets::read8(s, 21),
    }
}

// The table at the start of s.
pub(crate) fn read(s: &[u8]) -> Table {
    let slots = array::from_fn(|i| slot(case::after(s, SLOTS + i * SLOT_SIZE)));
    Table::of(slots, octets::read8(s, 0))
}

impl fmt::Display for Shown {
    fn fmt<W: fmt::Write>(&self, f: &mut fmt::Formatter<W>) -> fmt::Result {
        write!(f, "{:02x}", self.0.number())?;
        for slot in self.0.slots() {
            let Record {
                kind,
                clock,
                port,
                sequence,
                residence,
                wait,
            } = slot;
            write!(f, "{:02x}{clock:016x}{port:04x}", kind.number())?;
            write!(f, "{sequence:04x}{residence:016x}{wait:02x}")?;
        }
        Ok(())
    }
}
