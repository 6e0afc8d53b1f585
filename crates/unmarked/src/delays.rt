// Delay_Req and Delay_Resp (document 02, W-204): an exchange over two nodes and back, and one beside a
// Sync of the same port and sequence.
use crate::answers::told;
use crate::card::Card;
use crate::messages::Kind;
use crate::{messages, stamps};
use message::types;

// A message of this PTPType with S clear and pad 0.
fn written(ptp_type: u8) -> [u8; 36] {
    let mut fields = messages::one_step_sync();
    fields.sub_tlv.ptp_type = ptp_type;
    messages::written(fields)
}

// There over a one-step node (1,500 ns) and a two-step node (200 ns), and back in reverse.
fn exchange(rt: &impl Print) {
    let mut request = written(types::DELAY_REQ);
    let mut response = written(types::DELAY_RESP);
    let mut output = [0; 36];
    let there = rtm::one_step(&mut request, stamps::nanoseconds(1_500));
    let _ = print!(rt; "Delay exchange, {}", told(there));
    let mut second = Card::new(rt);
    second.handle_stamped(&mut request, &mut output, stamps::nanoseconds(200));
    let _ = print!(rt; ", back");
    second.handle_stamped(&mut response, &mut output, stamps::nanoseconds(0));
    let back = rtm::one_step(&mut response, stamps::nanoseconds(0));
    let _ = println!(rt;
        ", {}, pads {} and {}",
        told(back),
        reader::pad(&request),
        reader::pad(&response)
    );
}

// The two kinds share the slots, the ticks and the image, and are apart for 13 and 15.
fn beside(rt: &impl Print) {
    let _ = print!(rt; "beside a Sync");
    let mut card = Card::new(rt);
    card.hand(Kind::Sync, 1);
    card.hand(Kind::DelayResp, 1);
    card.hand(Kind::DelayReq, 1);
    card.hand(Kind::DelayReq, 1);
    card.switch();
    card.tick();
    card.hand(Kind::FollowUp, 1);
    card.hand(Kind::FollowUp, 1);
    card.hand(Kind::DelayResp, 1);
    card.hand(Kind::DelayResp, 1);
    card.switch();
    let _ = println!(rt; "");
}

// A Delay record waits up to its second tick and is gone at its third.
fn ageing(rt: &impl Print, name: &str, ticks: u8) {
    let _ = print!(rt; "Delay record, {name} ticks");
    let mut card = Card::new(rt);
    card.hand(Kind::DelayReq, 1);
    card.ticks(ticks);
    card.hand(Kind::DelayResp, 1);
    let _ = println!(rt; "");
}

pub(crate) fn run(rt: &impl Print) {
    exchange(rt);
    beside(rt);
    ageing(rt, "two", 2);
    ageing(rt, "three", 3);
}
