// Switchovers between cards with the old release, whose images have no kinds, and cards with the new
// one (document 02, W-211).
use crate::card::{Card, LARGEST};
use crate::messages::Kind;
use crate::switchovers::OLD_IMAGE;

// Converts an image for a card with the old release, and has that load it. Tells whether its octets
// are those of the image that came from the old release.
fn load_old(rt: &impl Print, image: &[u8]) {
    let mut buffer = [0xAA; LARGEST];
    match switchover::to_old(image, &mut buffer) {
        Ok(size) => {
            let old = &buffer[..size.min(LARGEST)];
            let octets = if old == OLD_IMAGE.as_slice() {
                "the same"
            } else {
                "other"
            };
            let _ = print!(rt; ", in the old form {size}, {octets} octets");
            Card::new(rt).load(old);
        }
        Err(refusal) => {
            let _ = print!(rt; ", to the old form {refusal}");
        }
    }
}

// Goes back with the image of the card's table.
fn go_back<R: Print>(card: &Card<R>) {
    if let Some(image) = card.image(&mut [0xAA; LARGEST]) {
        load_old(card.rt, image);
    }
}

// Over with an image of the old form, and back before a Delay_Req comes, while it waits, and after its
// Delay_Resp.
fn over_and_back(rt: &impl Print) {
    let _ = print!(rt; "from the old release");
    let mut card = Card::new(rt);
    card.load(&OLD_IMAGE);
    go_back(&card);
    card.tick();
    card.hand(Kind::DelayReq, 1);
    go_back(&card);
    card.hand(Kind::DelayResp, 1);
    go_back(&card);
    card.hand(Kind::FollowUp, 1);
    let _ = println!(rt; "");
}

// There and back from the old form: the same octets.
fn there_and_back(rt: &impl Print) {
    let _ = print!(rt; "there and back");
    let mut new = [0xAA; LARGEST];
    match switchover::to_new(&OLD_IMAGE, &mut new) {
        Ok(size) => {
            let _ = print!(rt; ", in the new form {size}");
            load_old(rt, &new[..size.min(LARGEST)]);
        }
        Err(refusal) => {
            let _ = print!(rt; ", to the new form {refusal}");
        }
    }
    let _ = println!(rt; "");
}

pub(crate) fn run(rt: &impl Print) {
    over_and_back(rt);
    there_and_back(rt);
}
