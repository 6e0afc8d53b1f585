// Records that wait at a two-step node: want of a slot, doubled, missing and empty ones, and how
// long they wait.
use crate::card::Card;
use crate::messages;
use crate::messages::Kind;
use crate::slots::record;
use message::types;
use residence::ResidenceError;
use table::Table;

// Sixteen records of identity 1, the lowest with another residence.
fn full(rt: &impl Print) {
    let _ = print!(rt; "full table");
    let mut slots = [record(1, 7, 3); 16];
    slots[0] = record(1, 5, 3);
    let mut card = Card::with_table(rt, Table::of(slots, 16));
    card.hand(Kind::Sync, 2);
    card.hand(Kind::Sync, 1);
    card.hand(Kind::FollowUp, 1);
    card.hand(Kind::FollowUp, 1);
    card.hand(Kind::Sync, 1);
    let _ = println!(rt; "");
}

// No record: an identity of zeros is an ordinary one, and an empty slot holds none.
fn none(rt: &impl Print) {
    let _ = print!(rt; "new table");
    let mut new = Card::new(rt);
    new.hand(Kind::FollowUp, 0);
    new.hand(Kind::Sync, 0);
    new.hand(Kind::FollowUp, 0);
    let _ = print!(rt; "\nrubbish");
    let mut rubbish = Card::with_table(rt, Table::of([record(1, 5, 0); 16], 0));
    rubbish.hand(Kind::FollowUp, 1);
    rubbish.hand(Kind::Sync, 1);
    let _ = println!(rt; "");
}

// Two ticks are in time, three are not. Type is no part of the identity.
fn ageing(rt: &impl Print) {
    let _ = print!(rt; "two ticks");
    let mut in_time = Card::new(rt);
    in_time.hand(Kind::Sync, 1);
    in_time.ticks(2);
    let mut follow_up = Kind::FollowUp.fields(1);
    follow_up.header.message_type = types::PTP_ETHERNET;
    in_time.hand_fields(Kind::FollowUp, follow_up);
    let _ = print!(rt; "\nthree ticks");
    let mut late = Card::new(rt);
    late.hand(Kind::Sync, 1);
    late.ticks(3);
    late.hand(Kind::FollowUp, 1);
    let _ = println!(rt; "");
}

// A message of this PTPType that comes with a residence that is refused.
fn without_residence(rt: &impl Print, ptp_type: u8, error: ResidenceError) {
    let _ = print!(rt; "no residence, PTPType {ptp_type} ");
    Card::new(rt).handle(messages::of_ptp_type(ptp_type, 1), Err(error));
    let _ = println!(rt; "");
}

pub(crate) fn run(rt: &impl Print) {
    full(rt);
    none(rt);
    ageing(rt);
    for (ptp_type, error) in [
        (types::SYNC, ResidenceError::InvalidStamp),
        (types::SYNC, ResidenceError::TooLong),
        (types::DELAY_REQ, ResidenceError::InvalidStamp),
        (types::DELAY_REQ, ResidenceError::TooLong),
        (types::PDELAY_RESP, ResidenceError::InvalidStamp),
        (types::DELAY_RESP, ResidenceError::InvalidStamp),
        (types::LAST_PTP_TYPE, ResidenceError::InvalidStamp),
    ] {
        without_residence(rt, ptp_type, error);
    }
}
