// Switchovers: the table goes as an image to another card, between the calls of a node.
use crate::card::Card;
use crate::messages::Kind;
use crate::slots::record;
use table::Table;

// The image of one Sync's record, as a card with the old release writes it: identity 1, residence 9,
// wait 3.
pub(crate) const OLD_IMAGE: [u8; 24] =
    *b"\x01\x00\x03\x00\x00\x00\x00\x00\x00\x00\x01\x00\x01\x00\x01\x00\x00\x00\x00\x00\x00\x00\x09\x03";

// Two Syncs wait, the first is collected, and the second's record moves to slot 0.
fn collected(rt: &impl Print) {
    let _ = print!(rt; "switchover");
    let mut card = Card::new(rt);
    card.hand(Kind::Sync, 1);
    card.hand(Kind::Sync, 2);
    card.switch();
    card.hand(Kind::FollowUp, 1);
    card.switch();
    card.tick();
    card.switch();
    card.hand(Kind::FollowUp, 2);
    card.switch();
    let _ = println!(rt; "");
}

// A record ages over switchovers as it does without.
fn aged(rt: &impl Print) {
    let _ = print!(rt; "switchovers and ticks");
    let mut card = Card::new(rt);
    card.switch();
    card.hand(Kind::Sync, 1);
    card.tick();
    card.switch();
    card.switch();
    card.tick();
    card.switch();
    card.tick();
    card.switch();
    card.hand(Kind::FollowUp, 1);
    let _ = println!(rt; "");
}

// Two records of one identity cannot be written, and a node goes on with them.
fn doubled(rt: &impl Print) {
    let _ = print!(rt; "doubled records");
    let mut card = Card::with_table(rt, Table::of([record(1, 5, 3); 16], 16));
    card.switch();
    card.hand(Kind::FollowUp, 1);
    let _ = println!(rt; "");
}

// An image of two bodies, and the same with their offsets, 6 and 28, exchanged: the table that came
// stays.
fn exchanged(rt: &impl Print) {
    let _ = print!(rt; "exchanged offsets");
    let mut image = [0; 50];
    let mut card = Card::new(rt);
    card.hand(Kind::Sync, 1);
    card.hand(Kind::Sync, 2);
    let _ = card.table.write(&mut image);
    octets::put(&mut image, 2, b"\x00\x1C\x00\x06");
    let mut other = Card::new(rt);
    other.hand(Kind::Sync, 3);
    other.load(&image);
    other.hand(Kind::FollowUp, 3);
    let _ = println!(rt; "");
}

// An image that has this number for its kind or its wait.
fn show(rt: &impl Print, place: &str, number: u8, image: &[u8]) {
    let _ = print!(rt; "image of a {place} of {number}");
    Card::new(rt).load(image);
    let _ = println!(rt; "");
}

// An image of one body: what it begins with, zeros, and a wait.
fn one_body<const N: usize>(head: &[u8], wait: u8) -> [u8; N] {
    let mut image = [0; N];
    octets::put(&mut image, 0, head);
    if let Some(last) = image.last_mut() {
        *last = wait;
    }
    image
}

pub(crate) fn run(rt: &impl Print) {
    collected(rt);
    aged(rt);
    doubled(rt);
    exchanged(rt);
    for wait in [0, 1, 3, 4] {
        show(rt, "wait", wait, &one_body::<24>(b"\x01\x00\x03", wait));
    }
    for kind in [0, 1, 2] {
        show(rt, "kind", kind, &one_body::<26>(&[0xFF, 1, 0, 4, kind], 3));
    }
}
