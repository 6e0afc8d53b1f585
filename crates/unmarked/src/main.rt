// Runs what tells a story over several calls, and what a case of `vectors` cannot hold, and prints a
// line for each. A case that is an input and a line stands in the data of `vectors`.
#![tactic(auto)]

mod answers;
mod card;
mod clocks;
mod delays;
mod ends;
mod headers;
mod in_words;
mod lengths;
mod limits;
mod messages;
mod numbers;
mod paths;
mod releases;
mod residences;
mod slots;
mod stamps;
mod switchovers;
mod waits;

// A piece of a line that cannot be written is not told, and the story goes on.
fn main(rt: HostRuntime) {
    limits::run(&rt);
    residences::run(&rt);
    waits::run(&rt);
    switchovers::run(&rt);
    headers::run(&rt);
    lengths::run(&rt);
    clocks::run(&rt);
    delays::run(&rt);
    releases::run(&rt);
    ends::run(&rt);
    numbers::run(&rt);
    in_words::run(&rt);
    paths::run(&rt);
}
