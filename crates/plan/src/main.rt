// Prints the pads that the path on standard input would show.
#![tactic(auto)]

fn main(rt: HostRuntime) {
    line::plan(&rt);
}
