// The number of waiting records (document 02, W-206), over several calls: in service, and in tables
// that the library did not make.
use crate::card::Card;
use crate::messages::Kind;
use crate::slots::record;
use records::Record;
use table::Table;

// Two Syncs wait, a third is refused, the first is collected, the second ages out behind a switchover
// to a card that keeps another number.
fn in_service(rt: &impl Print) {
    let _ = print!(rt; "number in service");
    let mut card = Card::new(rt);
    card.ask();
    for identity in [1, 2, 2] {
        card.hand(Kind::Sync, identity);
        card.ask();
    }
    card.hand(Kind::FollowUp, 1);
    card.ask();
    card.tick();
    card.switch();
    card.ask();
    card.tick();
    card.ask();
    card.tick();
    card.ask();
    let _ = println!(rt; "");
}

// Two records with this wait, and a number that nobody counted.
fn two<R: Print>(rt: &R, wait: u8, number: u8) -> Card<R> {
    let mut slots = [Record::zeros(); 16];
    slots[0] = record(1, 5, wait);
    slots[1] = record(2, 5, wait);
    Card::with_table(rt, Table::of(slots, number))
}

// What each operation makes of a number: a Sync put in, one refused, a Follow_Up added, one refused, a
// tick that empties two, one that empties none, and a load that is refused.
fn any(rt: &impl Print, number: u8) {
    let _ = print!(rt; "number {number}");
    for (kind, identity) in [
        (Kind::Sync, 3),
        (Kind::Sync, 1),
        (Kind::FollowUp, 1),
        (Kind::FollowUp, 3),
    ] {
        let mut card = two(rt, 1, number);
        card.hand(kind, identity);
        card.ask();
    }
    for wait in [1, 2] {
        let mut card = two(rt, wait, number);
        card.tick();
        card.ask();
    }
    let mut card = two(rt, 2, number);
    card.load(b"\x01");
    card.ask();
    let _ = println!(rt; "");
}

// A full table that keeps 0, and its image: neither 14 nor the image goes by the number.
fn full(rt: &impl Print) {
    let _ = print!(rt; "full table that keeps 0");
    let mut sixteen = Card::with_table(rt, Table::of([record(1, 5, 3); 16], 0));
    sixteen.hand(Kind::Sync, 2);
    sixteen.ask();
    let mut card = two(rt, 3, 0);
    card.switch();
    card.ask();
    let _ = println!(rt; "");
}

pub(crate) fn run(rt: &impl Print) {
    in_service(rt);
    for number in [200, 16, 1, 0] {
        any(rt, number);
    }
    full(rt);
}
