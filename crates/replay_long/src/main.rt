// Runs the recorded input again: 65,537 octets, one more than a capture may have, and behind them the
// largest capture, 65,536 octets with 256 bodies. A program of two calls: no plainer shared.
#![tactic(auto)]

fn main(rt: HostRuntime) {
    line::replay(&rt);
    line::replay(&rt);
}
