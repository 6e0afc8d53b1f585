// Node calls as a router makes them: a message with the stamps of its entry and its exit (document
// 01, What a node does; document 02, W-203). They are the calls of crate `node` with the residence
// between the stamps, whatever their format. Its parameters stand each by itself, as C lends them.
#![tactic(auto)]

ghost use Rattle.std.specs.Prelude.{◌≡◌, ℕ, List};
ghost use Rattle.records.specs.Slots.{Slots};
ghost use Rattle.rules.specs.Rules.{one_step, two_step, call_of};
ghost use Rattle.node.specs.Answers.{done_alone, done, done_on};
ghost use Rattle.node.specs.Calls.{call_on};
ghost use Rattle.rtm.specs.Stamped.{handed_call};

use node::{Done, Handled};
use refusal::Refusal;
use stamp::Stamps;
use table::Table;

/// A message at a one-step node: updated or passed; refusals 1 to 10, see node::handle_one_step.
pub fn one_step(message: &mut [u8], stamps: Stamps) -> Result<Handled, Refusal>
    ensures { (t : Slots) (n : ℕ) (o : List ℕ) → done_alone result message.new o t n ≡ call_of t n (handed_call one_step message.old o stamps) }
{
    node::handle_one_step(message, stamp::residence_of(stamps))
}

/// A message at a two-step node whose table is lent: created, waiting, added or passed; refusals 1 to
/// 10 and 12 to 16, see node::handle_two_step_lent.
pub fn two_step_lent(
    words: &mut [u64; 64],
    message: &mut [u8],
    output: &mut [u8],
    stamps: Stamps,
) -> Result<Handled, Refusal>
    ensures { done_on result message.new output.new words.new
        ≡ call_on words.old (handed_call two_step message.old output.old stamps) }
{
    node::handle_two_step_lent(words, message, output, stamp::residence_of(stamps))
}

/// The same with the table by value: its words are copied once, and handed back. It lends them as
/// node::handle_two_step does, and does not call that: the table would be copied once more.
pub fn two_step(mut table: Table, message: &mut [u8], output: &mut [u8], stamps: Stamps) -> Done
    ensures { done result message.new output.new
        ≡ call_on table.words (handed_call two_step message.old output.old stamps) }
{
    let answer = two_step_lent(&mut table.words, message, output, stamps);
    Done { table, answer }
}
