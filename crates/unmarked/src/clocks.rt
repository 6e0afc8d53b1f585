// Cards with clocks of both formats: a path over PTP and NTP stamps, and the longest NTP residence
// at a switchover.
use crate::answers::told;
use crate::card::Card;
use crate::messages::Kind;
use crate::stamps::NTP_ZERO;
use crate::{messages, stamps};
use stamp::ntp;

// Ends the line with what the Sync and the Follow_Up come to.
pub(crate) fn join(rt: &impl Print, sync: &[u8], follow_up: &[u8]) {
    let _ = match egress::join(sync, follow_up) {
        Ok(total) => println!(rt; ", total {total}"),
        Err(refusal) => println!(rt; ", {refusal}"),
    };
}

// A Sync over a one-step node (1,500 ns) and two two-step nodes (differences of 65,536 and 1), and
// the Follow_Up that the second creates.
fn path(rt: &impl Print) {
    let mut sync = messages::written(messages::one_step_sync());
    let mut follow_up = [0; 36];
    let mut spare = [0; 36];
    let first = rtm::one_step(&mut sync, stamps::nanoseconds(1_500));
    let _ = print!(rt; "path with clocks of both formats, {}", told(first));
    let second = stamps::until(ntp::Stamp {
        fraction: 65_536,
        ..NTP_ZERO
    });
    let third = stamps::until(ntp::Stamp {
        fraction: 1,
        ..NTP_ZERO
    });
    Card::new(rt).handle_stamped(&mut sync, &mut follow_up, second);
    let mut card = Card::new(rt);
    card.handle_stamped(&mut sync, &mut spare, third);
    card.handle_stamped(&mut follow_up, &mut spare, stamps::nanoseconds(0));
    join(rt, &sync, &follow_up);
}

// The longest NTP residence waits, goes to another card and is added there.
fn switched(rt: &impl Print) {
    let _ = print!(rt; "longest NTP residence, ");
    let longest = stamps::until(ntp::Stamp {
        seconds: 3,
        fraction: u32::MAX,
    });
    let mut card = Card::new(rt);
    card.handle(Kind::Sync.fields(1), stamp::residence_of(longest));
    card.switch();
    card.hand(Kind::FollowUp, 1);
    let _ = println!(rt; "");
}

pub(crate) fn run(rt: &impl Print) {
    path(rt);
    switched(rt);
}
