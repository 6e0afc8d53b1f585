// Prints the line of each message of standard input. Before each stand two octets, its size.
#![tactic(auto)]

// Prints the line of the next message. Answers false where there is none. It also prints, so that it is
// no test in one expression.
fn show_next(rt: &(impl Input + Print)) -> bool {
    let mut size = [0u8; 2];
    if input::read(rt, &mut size, 2) < 2 {
        return false;
    }
    let mut message = [0u8; 4096];
    let n = input::read(rt, &mut message, u16::from_be_bytes(size) as usize);
    line::print(rt, &message[..n]) > 0
}

fn main(rt: HostRuntime) {
    for _ in 0..1000 {
        if !show_next(&rt) {
            return;
        }
    }
}
