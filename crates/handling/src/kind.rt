// What a node makes of a message as read.
ghost use Rattle.std.specs.Prelude.{◌≡◌};
ghost use Rattle.rules.specs.Rules.{identity_in, ptp_kind, kind_of};
ghost use Rattle.handling.specs.Handling.{kind_answer, kind_read};

use message::{Message, SubTlv, types};
use records::{Identity, RecordKind};
use refusal::Refusal;

/// What a node makes of a message that can be read.
#[derive(Clone, Copy)]
pub enum Handling {
    /// A Sync with S clear: its Follow_Up is created.
    Creates(Identity),
    /// A Sync with S set, or a Delay_Req: its residence waits.
    Keeps(Identity),
    /// A Follow_Up or a Delay_Resp: the residence that waits for it is added.
    Gathers(Identity),
    /// Types 1 and 5, and PTPTypes 2 and 3.
    Timed,
    /// PTPTypes 4 to 7 and 10 to 15.
    Untimed,
}

// The identity of a message whose record is of this kind.
fn identity_in(kind: RecordKind, sub_tlv: SubTlv) -> Identity
    ensures { result ≡ identity_in kind sub_tlv }
{
    Identity {
        clock: sub_tlv.clock,
        port: sub_tlv.port,
        sequence: sub_tlv.sequence,
        kind,
    }
}

fn of_ptp(sub_tlv: SubTlv) -> Handling
    ensures { kind_answer result ≡ ptp_kind sub_tlv }
{
    let of_sync = identity_in(RecordKind::Sync, sub_tlv);
    let of_delay = identity_in(RecordKind::Delay, sub_tlv);
    match sub_tlv.ptp_type {
        types::SYNC if sub_tlv.two_step => Handling::Keeps(of_sync),
        types::SYNC => Handling::Creates(of_sync),
        types::DELAY_REQ => Handling::Keeps(of_delay),
        ..=types::PDELAY_RESP => Handling::Timed,
        types::FOLLOW_UP => Handling::Gathers(of_sync),
        types::DELAY_RESP => Handling::Gathers(of_delay),
        _ => Handling::Untimed,
    }
}

/// What the node makes of this message, and the reader's refusal where it cannot be read.
pub fn classify(message: &[u8]) -> Result<Handling, Refusal>
    ensures { kind_read result ≡ kind_of message.now }
{
    match reader::read(message)? {
        Message::Plain(_) => Ok(Handling::Timed),
        Message::Ptp(_, sub_tlv) => Ok(of_ptp(sub_tlv)),
    }
}
