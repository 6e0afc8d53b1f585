// The largest pad (document 02, W-205), over several calls: a Follow_Up that has it collects its
// record all the same, a long record is no largest pad, and joining shows it.
use crate::answers::told;
use crate::card::Card;
use crate::messages::Kind;
use crate::slots::record;
use crate::{clocks, messages, stamps};
use message::Fields;
use table::Table;

const LARGEST: i64 = scratch_pad::LARGEST;

// A message of identity 1 with this pad.
fn fields(kind: Kind, pad: i64) -> Fields {
    let mut fields = kind.fields(1);
    fields.header.pad = pad;
    fields
}

// The record is gone once its Follow_Up was added, so that the next Sync waits and no tick counts
// the first one.
fn collected(rt: &impl Print) {
    let _ = print!(rt; "largest pad");
    let follow_up = fields(Kind::FollowUp, LARGEST);
    let mut card = Card::new(rt);
    card.hand(Kind::Sync, 1);
    card.hand_fields(Kind::FollowUp, follow_up);
    card.tick();
    card.hand_fields(Kind::FollowUp, follow_up);
    card.hand(Kind::Sync, 1);
    card.ticks(3);
    let _ = println!(rt; "");
}

// A residence of 2^63 - 1 that a caller put into the table.
fn long_record(rt: &impl Print) {
    let _ = print!(rt; "record of 2^63-1 units");
    let slots = [record(1, 0x7FFF_FFFF_FFFF_FFFF, 3); 16];
    let mut card = Card::with_table(rt, Table::of(slots, 16));
    card.hand_fields(Kind::FollowUp, fields(Kind::FollowUp, -5));
    card.hand(Kind::FollowUp, 1);
    let _ = println!(rt; "");
}

fn one_step(rt: &impl Print, sync: &mut [u8], nanoseconds: u32) {
    let answer = rtm::one_step(sync, stamps::nanoseconds(nanoseconds));
    let _ = print!(rt; ", {} pad {}", told(answer), reader::pad(sync));
}

// A Sync that comes to the largest pad, joined with a Follow_Up at the other end of the range.
fn path(rt: &impl Print) {
    let _ = print!(rt; "to the largest pad");
    let mut sync = messages::written(fields(Kind::Sync, LARGEST - 1));
    let follow_up = messages::written(fields(Kind::FollowUp, i64::MIN));
    one_step(rt, &mut sync, 0);
    one_step(rt, &mut sync, 1);
    one_step(rt, &mut sync, 1);
    clocks::join(rt, &sync, &follow_up);
}

pub(crate) fn run(rt: &impl Print) {
    collected(rt);
    long_record(rt);
    path(rt);
}
