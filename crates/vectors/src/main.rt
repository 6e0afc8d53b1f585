// Runs the cases of standard input and prints a line for each. A case is an octet, its operation;
// two octets, the size of its body; and the body. A case of an operation that is not known prints
// nothing.
#![tactic(auto)]

mod captures;
mod case;
mod corrections;
mod images;
mod joins;
mod labels;
mod lists;
mod one_step;
mod outputs;
mod plans;
mod read;
mod requests;
mod residences;
mod shown;
mod stamps;
mod tables;
mod tick;
mod two_step;
mod write;

use images::To;
use stamps::Format;
use std::io;

// The operations have their numbers from the file of cases. Each takes the runtime and a body, and
// nothing else: a struct of the two would only rename them.
fn run(rt: &impl Print, operation: u8, body: &[u8]) -> io::Result<()> {
    match operation {
        1 => read::run(rt, body),
        2 => write::run(rt, body),
        3 => residences::run(rt, Format::Ptp, body),
        4 => one_step::run(rt, Format::Ptp, body),
        5 => two_step::run(rt, Format::Ptp, body),
        6 => tick::run(rt, body),
        7 => joins::run(rt, body),
        8 => lists::run_count(rt, body),
        9 => lists::run_entry(rt, body),
        10 => images::run_write(rt, body),
        11 => images::run_load(rt, body),
        12 => read::run_length(rt, body),
        13 => write::run_length(rt, body),
        14 => residences::run(rt, Format::Ntp, body),
        15 => one_step::run(rt, Format::Ntp, body),
        16 => two_step::run(rt, Format::Ntp, body),
        17 => requests::run_add(rt, body),
        18 => requests::run_collect(rt, body),
        19 => images::run_replace(rt, body),
        20 => requests::run_waiting(rt, body),
        21 => labels::run_search(rt, body),
        22 => labels::run_write(rt, body),
        23 => captures::run(rt, body),
        24 => images::run_convert(rt, To::New, body),
        25 => images::run_convert(rt, To::Old, body),
        26 => plans::run(rt, body),
        27 => corrections::run(rt, body),
        _ => Ok(()),
    }
}

// Runs the next case. Answers false where there is none.
fn run_next(rt: &(impl Input + Print)) -> io::Result<bool> {
    let mut head = [0; 3];
    if input::read(rt, &mut head, 3) < 3 {
        return Ok(false);
    }
    let [operation, high, low] = head;
    let mut body = [0; case::MOST];
    let size = u16::from_be_bytes([high, low]) as usize;
    let n = input::read(rt, &mut body, size);
    run(rt, operation, &body[..n])?;
    Ok(true)
}

// A line that cannot be written is not told, and the next case is run.
fn main(rt: HostRuntime) {
    for _ in 0..65536 {
        if !run_next(&rt).unwrap_or(true) {
            break;
        }
    }
}
