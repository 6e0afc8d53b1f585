// Prints the TTL for the next timing node and the two label entries for the lists on standard input.
#![tactic(auto)]

fn main(rt: HostRuntime) {
    line::show_ttl(&rt);
}
