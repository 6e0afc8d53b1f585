// A slot's packed word: wait, sequence, port number and kind in one number (specs/Words.antt of
// `words` has the layout).
ghost use Rattle.std.specs.Prelude.{◌≡◌, cond, not, ◌&&◌, ◌+◌, ◌*◌, ◌-◌, ◌/◌, ◌%◌, eqb};
ghost use Rattle.words.specs.Words.{kind_bit, decoded, key_of, packed_of};
ghost use Rattle.words.specs.Meaning.{IdentityFits, RecordFits};

use crate::layout;
use records::{Identity, Record, RecordKind};

// Kind, port number and sequence in one number. The ranges are for the proofs of callers.
#[tactic(auto, unfolding(words::specs::Words::key_of))]
pub(crate) fn key_of(identity: Identity) -> u64
    ensures { (result ≡ key_of identity) × IdentityFits identity }
{
    (u64::from(identity.kind.number()) * layout::BITS_16 + u64::from(identity.port))
        * layout::BITS_16
        + u64::from(identity.sequence)
}

// The packed word of a record.
#[tactic(auto, unfolding(words::specs::Words::packed_of))]
pub(crate) fn packed_of(slot: Record) -> u64
    ensures { (result ≡ packed_of slot) × RecordFits slot }
{
    key_of(slot.identity()) * layout::SEQUENCE + u64::from(slot.wait)
}

// A slot with this packed word holds a record with this key.
pub(crate) fn has_key(packed: u64, key: u64) -> bool
    ensures { result ≡ (eqb key (packed / 65536 % 8589934592) && not (eqb (packed % 256) 0)) }
{
    key == packed / layout::SEQUENCE % layout::KEYS && packed % layout::OCTET != 0
}

// The packed word with a wait above 0 lowered by one.
pub(crate) fn lowered(packed: u64) -> u64
    ensures { result ≡ cond (eqb (packed % 256) 0) packed (packed - 1) }
{
    if packed % layout::OCTET == 0 {
        packed
    } else {
        packed - 1
    }
}

// The kind that a bit says: no From, since an octet of an image says it otherwise.
fn kind_of(bit: u64) -> RecordKind
    ensures { result ≡ kind_bit bit }
{
    match bit {
        0 => RecordKind::Sync,
        _ => RecordKind::Delay,
    }
}

// The slot in three words.
#[tactic(auto, unfolding(words::specs::Words::decoded))]
pub(crate) fn decode(clock: u64, packed: u64, residence: u64) -> Record
    ensures { result ≡ decoded clock packed residence }
{
    Record {
        clock,
        port: (packed / layout::PORT % layout::BITS_16) as u16,
        sequence: (packed / layout::SEQUENCE % layout::BITS_16) as u16,
        kind: kind_of(packed / layout::KIND % 2),
        residence,
        wait: (packed % layout::OCTET) as u8,
    }
}

// The first word of a table with another number.
pub(crate) fn with_number(word: u64, number: u8) -> u64
    ensures { result ≡ word / 256 * 256 + number }
{
    word / layout::OCTET * layout::OCTET + u64::from(number)
}
