// Reads a message from standard input and prints its line.
#![tactic(auto)]

fn main(rt: HostRuntime) {
    line::show(&rt);
}
