// The residence between two stamps, and a message at a node.
ghost use Rattle.std.specs.Prelude.{◌≡◌, List, ℕ};
ghost use Rattle.stamp.specs.Stamps.{residence_of};
ghost use Rattle.records.specs.Slots.{Slots};
ghost use Rattle.rules.specs.Rules.{one_step, two_step, call_of};
ghost use Rattle.rtm.specs.Stamped.{handed_call};
ghost use Rattle.node.specs.Calls.{call_on};
ghost use Rattle.bunpennant.specs.C.{told, tell, stamps_of, coded_alone, coded_done, coded_on, coded_call};

/// The residence in pad units: 0, or refusal 9 or 10, which leaves the units as they came.
#[unsafe(no_mangle)]
pub extern "C" fn rtm_residence(ntp: bool, entry: u64, exit: u64, units: &mut u64) -> u8
    ensures { told result units.new ≡ tell units.old (residence_of (stamps_of ntp entry exit)) }
{
    bunpennant::rtm_residence(ntp, entry, exit, units)
}

/// A message at a one-step node. The call looks at no output and no table, and changes none.
#[unsafe(no_mangle)]
pub extern "C" fn rtm_one_step(message: &mut [u8], ntp: bool, entry: u64, exit: u64) -> u8
    ensures { (t : Slots) (n : ℕ) (o : List ℕ)
        → coded_alone result message.new o t n
        ≡ coded_done (call_of t n (handed_call one_step message.old o (stamps_of ntp entry exit))) }
{
    bunpennant::rtm_one_step(message, ntp, entry, exit)
}

/// A message at a two-step node, whose table is lent.
#[unsafe(no_mangle)]
pub extern "C" fn rtm_two_step(
    words: &mut [u64; 64],
    message: &mut [u8],
    output: &mut [u8],
    ntp: bool,
    entry: u64,
    exit: u64,
) -> u8
    ensures { coded_on result message.new output.new words.new
        ≡ coded_call (call_on words.old (handed_call two_step message.old output.old (stamps_of ntp entry exit))) }
{
    bunpennant::rtm_two_step(words, message, output, ntp, entry, exit)
}
