// The program `plan`: the pads that a path would show (document 02, W-212) for what stands on standard
// input.
ghost use Rattle.std.specs.Prelude.{◌≡◌, ◌++◌, ◌+◌, ◌≤◌, length, take, drop};
ghost use Rattle.io.specs.Counts.{IsPrefixLen};
ghost use Rattle.line.specs.Planning.{follow_up_words, end_line, plan_line_of};

use crate::text::Text;
use crate::{ROOM, program};
use hops::End;

// The most octets that are read. No path has just as many, so that an input which is not read whole is
// malformed.
const MOST: usize = 65536;

// The pad of the Follow_Up, or "-" where there is none.
fn follow_up_words(text: &mut Text, end: End)
    requires { length text.old + 21 ≤ ROOM }
    ensures value { text.new ≡ text.old ++ follow_up_words end }
    ensures upper_bound { length text.new ≤ length text.old + 21 }
{
    if end.exists {
        text.signed(end.follow_up_pad);
    } else {
        text.word(b"-");
    }
}

// The pads and S.
fn end_line(end: End) -> Text
    ensures { result ≡ end_line end }
{
    let mut text = Text::of(b"sync ");
    text.signed(end.sync_pad);
    text.word(b" follow-up ");
    follow_up_words(&mut text, end);
    text.last(b" s ", end.two_step as u64);
    text
}

fn path_text(path: &[u8]) -> Text
    ensures { result ≡ plan_line_of path.now }
{
    if !planner::is_path(path) {
        return Text::of(b"malformed\n");
    }
    match planner::plan_octets(path) {
        Ok(end) => end_line(end),
        Err(refusal) => Text::refused(refusal),
    }
}

/// The line of an input, at the start of out; answers its length. Octets of out beyond it stay.
pub fn plan_line(path: &[u8], out: &mut [u8; ROOM]) -> usize
    ensures out_after { take result out.new ≡ plan_line_of path.now }
    ensures out_unchanged { drop result out.new ≡ drop result out.old }
    ensures prefix_len { IsPrefixLen result out.new }
{
    path_text(path).copy_to(out)
}

/// Prints the line of an input, and answers how many octets it has. A write that fails is not told.
pub fn print_plan(rt: &impl Print, path: &[u8]) -> usize
    ensures { result ≡ length (plan_line_of path.now) }
{
    path_text(path).print(rt)
}

/// Reads standard input, prints its line, and answers how many octets it read.
pub fn plan(rt: &(impl Input + Print)) -> usize
    ensures { result ≤ 65536 }
{
    program::run(rt, &mut [0; MOST], |path| print_plan(rt, path))
}
