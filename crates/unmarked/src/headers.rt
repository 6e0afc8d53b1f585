// The G-ACh header is one byte string: it stands at the start of every message written, and of a
// created Follow_Up.
use crate::answers::told;
use crate::{messages, stamps};
use message::{G_ACH_HEADER, types};
use table::Table;

// Whether the message begins with the header.
fn compare(message: &[u8; 36]) -> &'static str {
    if message.starts_with(&G_ACH_HEADER) {
        "equal"
    } else {
        "different"
    }
}

fn written(rt: &impl Print, message_type: u16) {
    let message = messages::written(messages::of_type(message_type, -1));
    let _ = println!(rt;
        "header of type {message_type} as written: {}",
        compare(&message)
    );
}

// The Follow_Up of a Sync with S clear.
fn created(rt: &impl Print) {
    let mut sync = messages::written(messages::one_step_sync());
    let mut output = [0; 36];
    let done = rtm::two_step(Table::new(), &mut sync, &mut output, stamps::nanoseconds(0));
    let _ = println!(rt;
        "header of a Follow_Up, {}: {}",
        told(done.answer),
        compare(&output)
    );
}

pub(crate) fn run(rt: &impl Print) {
    for message_type in types::NO_PAYLOAD..=types::NTP {
        written(rt, message_type);
    }
    created(rt);
}
