// `show` twice on one input: 2,049 octets, of which the first 2,048 would be a message, and behind
// them a message of 2,048. The first is refused and the second read whole, exactly if `show` reads
// 2,049 octets. A program of two calls: no plainer shared.
#![tactic(auto)]

fn main(rt: HostRuntime) {
    line::show(&rt);
    line::show(&rt);
}
