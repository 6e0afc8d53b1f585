// Operation 26: the plan of a path.
use hops::End;
use print::Told;
use std::{fmt, io};

#[derive(Clone, Copy)]
struct Shown(End);

impl fmt::Display for Shown {
    fn fmt<W: fmt::Write>(&self, f: &mut fmt::Formatter<W>) -> fmt::Result {
        let End {
            sync_pad,
            follow_up_pad,
            two_step,
            exists,
        } = self.0;
        write!(f, "sync {sync_pad} follow-up {follow_up_pad}")?;
        write!(f, " s {} exists {}", two_step as u8, exists as u8)
    }
}

pub(crate) fn run(rt: &impl Print, body: &[u8]) -> io::Result<()> {
    println!(rt; "plan {}", Told(planner::plan_octets(body).map(Shown)))
}
