// Residences handed to a node as a number of units: those that no stamps give are answered with 10,
// in the place where 10 stands.
use crate::answers::told;
use crate::messages;
use node::Handled;
use refusal::Refusal;
use table::Table;

const LARGEST: u64 = residence::LIMIT - 1;

fn show(rt: &impl Print, node: &str, units: u64, answer: Result<Handled, Refusal>) {
    let _ = println!(rt; "{node}, {units} units: {}", told(answer));
}

fn one_step(rt: &impl Print, units: u64) {
    let mut sync = messages::written(messages::one_step_sync());
    let answer = node::handle_one_step(&mut sync, Ok(units));
    show(rt, "one-step", units, answer);
}

// A Sync with S clear, with an output of 36 octets.
fn two_step(rt: &impl Print, units: u64) {
    let mut sync = messages::written(messages::one_step_sync());
    let mut output = [0; 36];
    let done = node::handle_two_step(Table::new(), &mut sync, &mut output, Ok(units));
    show(rt, "two-step", units, done.answer);
}

pub(crate) fn run(rt: &impl Print) {
    for units in [LARGEST, LARGEST + 1, u64::MAX] {
        one_step(rt, units);
    }
    for units in [LARGEST, LARGEST + 1] {
        two_step(rt, units);
    }
}
