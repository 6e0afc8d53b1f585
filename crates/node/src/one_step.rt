// The one-step node: the residence is added to the pad of the message itself.
ghost use Rattle.std.specs.Prelude.{◌≡◌, ℕ, List};
ghost use Rattle.records.specs.Slots.{Slots};
ghost use Rattle.rules.specs.Rules.{update, call_of};
ghost use Rattle.residence.specs.Residence.{accepted_of};
ghost use Rattle.node.specs.Answers.{replied, done_alone};
ghost use Rattle.node.specs.Calls.{passes, one_step_call};

use crate::answer;
use message::{Message, types};
use refusal::Refusal;
use residence::Residence;
use rules::Handled;

// Types 2 to 4 with a PTPType above 3.
fn passes(message: Message) -> bool
    ensures { result ≡ passes message }
{
    matches!(message, Message::Ptp(_, sub_tlv) if sub_tlv.ptp_type > types::PDELAY_RESP)
}

// Adds the residence: refusals 9 and 10.
fn update_pad(message: &mut [u8], residence: Residence) -> Result<Handled, Refusal>
    ensures { (o : List ℕ) → replied result message.new o ≡ update (one_step_call message.old o residence) (accepted_of residence) }
{
    let units = answer::accept(residence)?;
    handling::add_to_pad(message, units);
    Ok(Handled::Updated)
}

/// A message at a one-step node: updated, or passed with its residence not looked at; refusals 1 to
/// 8 of reading, then 9 and 10. A refusal leaves the message as it came. The call looks at no output
/// and no table, and changes none.
pub fn handle_one_step(message: &mut [u8], residence: Residence) -> Result<Handled, Refusal>
    ensures { (t : Slots) (n : ℕ) (o : List ℕ) → done_alone result message.new o t n ≡ call_of t n (one_step_call message.old o residence) }
{
    if passes(reader::read(message)?) {
        return Ok(Handled::Passed);
    }
    update_pad(message, residence)
}
