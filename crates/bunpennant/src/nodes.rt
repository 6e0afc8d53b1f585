// The residence between two stamps, and a message at a node.
ghost use Rattle.std.specs.Prelude.{◌≡◌, List, ℕ};
ghost use Rattle.stamp.specs.Stamps.{residence_of};
ghost use Rattle.records.specs.Slots.{Slots};
ghost use Rattle.rules.specs.Rules.{one_step, two_step, call_of};
ghost use Rattle.rtm.specs.Stamped.{handed_call};
ghost use Rattle.refusal.specs.Refusal.{answer_of};
ghost use Rattle.node.specs.Calls.{call_on};
ghost use Rattle.bunpennant.specs.C.{code_of, told, tell, stamp_seconds, stamp_part, stamps_of, coded_alone, coded_done, coded_on, coded_call};

use crate::sizes;
use node::Handled;
use refusal::Refusal;
use stamp::{Stamps, ntp, ptp};

// The words' codes; a refusal is its number.
const UPDATED: u8 = 64;

const PASSED: u8 = 65;

const CREATED: u8 = 66;

const WAITING: u8 = 67;

const ADDED: u8 = 68;

// C's code of an answer: its header has the numbers.
fn code_of(answer: Result<Handled, Refusal>) -> u8
    ensures { result ≡ code_of (answer_of answer) }
{
    match answer {
        Ok(Handled::Updated) => UPDATED,
        Ok(Handled::Passed) => PASSED,
        Ok(Handled::Created) => CREATED,
        Ok(Handled::Waiting) => WAITING,
        Ok(Handled::Added) => ADDED,
        Err(refusal) => refusal.number(),
    }
}

// A stamp has its seconds below this, and its nanoseconds or its fraction above.
const PART: u64 = 4_294_967_296;

// C's flag chooses the format, and a format is a type: a function each.
fn ntp_stamp(stamp: u64) -> ntp::Stamp
    ensures { result ≡ record { seconds = stamp_seconds stamp; fraction = stamp_part stamp } }
{
    ntp::Stamp {
        seconds: (stamp % PART) as u32,
        fraction: (stamp / PART) as u32,
    }
}

fn ptp_stamp(stamp: u64) -> ptp::Stamp
    ensures { result ≡ record { seconds = stamp_seconds stamp; nanoseconds = stamp_part stamp } }
{
    ptp::Stamp {
        seconds: (stamp % PART) as u32,
        nanoseconds: (stamp / PART) as u32,
    }
}

fn stamps_of(ntp: bool, entry: u64, exit: u64) -> Stamps
    ensures { result ≡ stamps_of ntp entry exit }
{
    if ntp {
        Stamps::Ntp(ntp_stamp(entry), ntp_stamp(exit))
    } else {
        Stamps::Ptp(ptp_stamp(entry), ptp_stamp(exit))
    }
}

/// The residence in pad units: 0, or refusal 9 or 10, which leaves the units as they came.
pub fn rtm_residence(ntp: bool, entry: u64, exit: u64, units: &mut u64) -> u8
    ensures { told result units.new ≡ tell units.old (residence_of (stamps_of ntp entry exit)) }
{
    let residence = stamp::residence_of(stamps_of(ntp, entry, exit));
    sizes::tell(residence.map_err(Refusal::from), units)
}

/// A message at a one-step node. The call looks at no output and no table, and changes none.
pub fn rtm_one_step(message: &mut [u8], ntp: bool, entry: u64, exit: u64) -> u8
    ensures { (t : Slots) (n : ℕ) (o : List ℕ)
        → coded_alone result message.new o t n
        ≡ coded_done (call_of t n (handed_call one_step message.old o (stamps_of ntp entry exit))) }
{
    code_of(rtm::one_step(message, stamps_of(ntp, entry, exit)))
}

/// A message at a two-step node, whose table is lent. Beside rtm_one_step since C's header has both.
pub fn rtm_two_step(
    words: &mut [u64; 64],
    message: &mut [u8],
    output: &mut [u8],
    ntp: bool,
    entry: u64,
    exit: u64,
) -> u8
    ensures { coded_on result message.new output.new words.new
        ≡ coded_call (call_on words.old (handed_call two_step message.old output.old (stamps_of ntp entry exit))) }
{
    code_of(rtm::two_step_lent(words, message, output, stamps_of(ntp, entry, exit)))
}
