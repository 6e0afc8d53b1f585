// The program `replay`: a capture of standard input run again, and the report on it (document 02,
// W-209), a name and its value on each line.
ghost use Rattle.std.specs.Prelude.{◌≡◌, ◌++◌, ◌+◌, ◌≤◌, length, take, drop};
ghost use Rattle.io.specs.Counts.{IsPrefixLen as CountsOctets};
ghost use Rattle.line.specs.Replaying.{count_lines, refused_line, refused_lines, residence_lines, report_text, text_of};

use crate::text::Text;
use crate::{ROOM, program};
use capture::layout;
use report::{Counts, Range, Report, Residences};

// The largest capture and an octet more, so that a capture that is too large is seen to be.
const MOST: usize = layout::LARGEST + 1;

// How many calls were answered with each word.
fn count_lines(text: &mut Text, counts: Counts)
    requires { length text.old + 145 ≤ ROOM }
    ensures value { text.new ≡ text.old ++ count_lines counts }
    ensures upper_bound { length text.new ≤ length text.old + 145 }
{
    text.last(b"updated ", counts.updated as u64);
    text.last(b"passed ", counts.passed as u64);
    text.last(b"created ", counts.created as u64);
    text.last(b"waiting ", counts.waiting as u64);
    text.last(b"added ", counts.added as u64);
}

// How many calls were refused with number n, where any was.
fn refused_line(text: &mut Text, n: usize, count: u16)
    requires { length text.old + 50 ≤ ROOM }
    ensures value { text.new ≡ text.old ++ refused_line n count }
    ensures upper_bound { length text.new ≤ length text.old + 50 }
{
    if count == 0 {
        return;
    }
    text.field(b"refused-", n as u64);
    text.last(b" ", count as u64);
}

// How many calls were refused with each number that was given.
fn refused_lines(text: &mut Text, refused: [u16; 17])
    requires { length text.old + 850 ≤ ROOM }
    ensures value { text.new ≡ text.old ++ refused_lines 0 refused }
    ensures upper_bound { length text.new ≤ length text.old + 850 }
{
    for (n, count) in refused.iter().enumerate() {
        refused_line(text, n, *count);
    }
}

// The least and the greatest residence, and the sum.
fn residence_lines(text: &mut Text, residences: Residences)
    requires { length text.old + 83 ≤ ROOM }
    ensures { text.new ≡ text.old ++ residence_lines residences }
{
    match residences.range {
        Range::Absent => text.word(b"least -\ngreatest -\n"),
        Range::Between(least, greatest) => {
            text.last(b"least ", least);
            text.last(b"greatest ", greatest);
        }
    }
    text.last(b"sum ", residences.sum);
}

fn report_lines(report: Report) -> Text
    ensures { result ≡ report_text report }
{
    let mut text = Text::new();
    count_lines(&mut text, report.counts);
    refused_lines(&mut text, report.counts.refused);
    residence_lines(&mut text, report.residences);
    text
}

fn capture_text(capture: &[u8]) -> Text
    ensures { result ≡ text_of capture.now }
{
    match rerun::replay(capture) {
        Ok(report) => report_lines(report),
        Err(refusal) => Text::refused(refusal),
    }
}

/// The text of a capture, at the start of out; answers its length. Octets of out beyond it stay.
pub fn report_text(capture: &[u8], out: &mut [u8; ROOM]) -> usize
    ensures out_after { take result out.new ≡ text_of capture.now }
    ensures out_unchanged { drop result out.new ≡ drop result out.old }
    ensures counts_octets { CountsOctets result out.new }
{
    capture_text(capture).copy_to(out)
}

/// Prints the text of a capture, and answers how many octets it has. A write that fails is not told.
pub fn print_report(rt: &impl Print, capture: &[u8]) -> usize
    ensures { result ≡ length (text_of capture.now) }
{
    capture_text(capture).print(rt)
}

/// Reads a capture from standard input, prints its text, and answers how many octets it read.
pub fn replay(rt: &(impl Input + Print)) -> usize
    ensures { result ≤ 65537 }
{
    program::run(rt, &mut [0; MOST], |capture| print_report(rt, capture))
}
