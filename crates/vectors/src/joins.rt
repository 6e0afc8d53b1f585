// Operation 7: a Sync and a Follow_Up joined at the egress.
use crate::case;
use crate::shown::{Named, Octets};
use print::Told;
use std::io;

pub(crate) fn run(rt: &impl Print, body: &[u8]) -> io::Result<()> {
    let (sync, rest) = case::counted(body);
    let (follow_up, _) = case::counted(rest);
    let told = Told(egress::join(sync, follow_up).map(|total| Named("total", total)));
    println!(rt;
        "join {told} packet {}",
        Octets(egress::shown(sync, follow_up))
    )
}
