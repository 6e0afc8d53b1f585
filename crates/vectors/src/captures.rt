// Operation 23: a capture run again, and the report. A case has how many zeros are at the capture's
// end, and its octets without these.
use crate::case;
use print::Told;
use report::{Counts, Range, Report};
use std::{fmt, io};

// The largest capture of the cases.
const MOST: usize = 65600;

// The counts of calls, and the residences.
#[derive(Clone, Copy)]
struct Shown(Report);

// How many calls were refused with each number, from 1 on. (A function of its own: of an array behind
// a reference the check does not know the length.)
fn write_refused<W: fmt::Write>(f: &mut fmt::Formatter<W>, refused: [u16; 17]) -> fmt::Result {
    for count in &refused[1..] {
        write!(f, " {count}")?;
    }
    Ok(())
}

impl fmt::Display for Shown {
    fn fmt<W: fmt::Write>(&self, f: &mut fmt::Formatter<W>) -> fmt::Result {
        let Report { counts, residences } = self.0;
        let Counts {
            updated,
            passed,
            created,
            waiting,
            added,
            refused,
        } = counts;
        write!(f, "updated {updated} passed {passed} created {created}")?;
        write!(f, " waiting {waiting} added {added} refused")?;
        write_refused(f, refused)?;
        match residences.range {
            Range::Absent => write!(f, " least - greatest -")?,
            Range::Between(least, greatest) => { write!(f, " least {least} greatest {greatest}")? }
        }
        write!(f, " sum {}", residences.sum)
    }
}

pub(crate) fn run(rt: &impl Print, body: &[u8]) -> io::Result<()> {
    let rest = case::after(body, 4);
    let (octets, _) = case::counted(rest);
    let size = octets::read32(body, 0) as usize + octets::read16(rest, 0) as usize;
    let mut capture = [0; MOST];
    octets::put(&mut capture, 0, octets);
    let capture = capture.get(..size).unwrap_or(&[]);
    println!(rt; "capture {}", Told(rerun::replay(capture).map(Shown)))
}
