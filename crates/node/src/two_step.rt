// The two-step node: a Sync's residence goes to its Follow_Up, which the node creates or waits for,
// and a Delay_Req's to its Delay_Resp.
ghost use Rattle.std.specs.Prelude.{◌≡◌, List, ℕ, ◌≤◌, length};
ghost use Rattle.residence.specs.Residence.{Residence, accepted_of};
ghost use Rattle.records.specs.declared.RecordKind.{RecordKind};
ghost use Rattle.rules.specs.Rules.{first_of, second_of, create};
ghost use Rattle.node.specs.Answers.{replied, done, done_on, told_on};
ghost use Rattle.node.specs.Calls.{two_step_call, call_on_by, call_on, tell_on_by, tell_on};

use crate::answer;
use crate::answer::{Done, Told};
use handling::Handling;
use message::layout;
use records::Identity;
use refusal::Refusal;
use residence::Residence;
use rules::Handled;
use table::Table;

// A Sync with S clear: refusals 9, 10 and 12, or S set and the Follow_Up written.
fn create(message: &mut [u8], output: &mut [u8], residence: Residence) -> Result<Handled, Refusal>
    requires { 36 ≤ length message.old }
    ensures { replied result message.new output.new
        ≡ create (two_step_call message.old output.old residence) (accepted_of residence) }
{
    let units = answer::accept(residence)?;
    if output.len() < layout::CARRIED {
        return Err(Refusal::OutputTooSmall);
    }
    handling::create_follow_up(output, message, units);
    handling::set_two_step(message);
    Ok(Handled::Created)
}

// A Sync with S set, or a Delay_Req whatever its S bit: refusals 9 and 10, or its residence waits in
// the table, or 13 or 14. Whatever message and output the call has, they stay.
fn keep(words: &mut [u64; 64], identity: Identity, residence: Residence) -> Result<Handled, Refusal>
    ensures { (k : RecordKind) (m o : List ℕ)
        → done_on result m o words.new ≡ call_on_by words.old (two_step_call m o residence) (first_of k identity) }
{
    let units = answer::accept(residence)?;
    lent::add(words, identity, units)?;
    Ok(Handled::Waiting)
}

// A call that collected nothing.
fn nothing_collected(answer: Result<Handled, Refusal>) -> Told
    ensures { result ≡ record { answer = answer; collected = 0 } }
{
    Told {
        answer,
        collected: 0,
    }
}

// A Follow_Up, or a Delay_Resp: refusal 15 where no record waits for it; or the record's residence
// is added and its slot emptied. S, residence and output of the call are not looked at.
fn gather(words: &mut [u64; 64], message: &mut [u8], identity: Identity) -> Told
    ensures { (k : RecordKind) (o : List ℕ) (x : Residence)
        → told_on result message.new o words.new ≡ tell_on_by words.old (two_step_call message.old o x) (second_of k identity) }
{
    match lent::collect(words, identity) {
        Ok(units) => {
            handling::add_to_pad(message, units);
            Told {
                answer: Ok(Handled::Added),
                collected: units,
            }
        }
        Err(refusal) => nothing_collected(Err(refusal)),
    }
}

/// A message at a two-step node whose table is lent, as `handle_two_step_lent` has it; and the
/// residence that was collected for it.
pub fn tell_two_step(
    words: &mut [u64; 64],
    message: &mut [u8],
    output: &mut [u8],
    residence: Residence,
) -> Told
    ensures { told_on result message.new output.new words.new
        ≡ tell_on words.old (two_step_call message.old output.old residence) }
{
    match handling::classify(message) {
        Ok(Handling::Creates(_)) => nothing_collected(create(message, output, residence)),
        Ok(Handling::Keeps(identity)) => nothing_collected(keep(words, identity, residence)),
        Ok(Handling::Gathers(identity)) => gather(words, message, identity),
        Ok(Handling::Timed) => nothing_collected(Err(Refusal::NotForTwoStep)),
        Ok(Handling::Untimed) => nothing_collected(Ok(Handled::Passed)),
        Err(refusal) => nothing_collected(Err(refusal)),
    }
}

/// A message at a two-step node whose table is lent: created, waiting, added or passed; refusals 1 to
/// 8 of reading, then 16; for a Sync 9, 10, and 12 where S is clear or 13, 14 where set; for a
/// Delay_Req 9, 10, 13, 14; for a Follow_Up or a Delay_Resp 15. A refusal leaves message, output and
/// every word of the table as they came.
pub fn handle_two_step_lent(
    words: &mut [u64; 64],
    message: &mut [u8],
    output: &mut [u8],
    residence: Residence,
) -> Result<Handled, Refusal>
    ensures { done_on result message.new output.new words.new
        ≡ call_on words.old (two_step_call message.old output.old residence) }
{
    tell_two_step(words, message, output, residence).answer
}

/// The same with the table by value: its words are copied once, and handed back.
pub fn handle_two_step(
    mut table: Table,
    message: &mut [u8],
    output: &mut [u8],
    residence: Residence,
) -> Done
    ensures { done result message.new output.new
        ≡ call_on table.words (two_step_call message.old output.old residence) }
{
    let answer = handle_two_step_lent(&mut table.words, message, output, residence);
    Done { table, answer }
}
