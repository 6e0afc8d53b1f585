// A capture run again, for C: the function rtm_replay of c/include/bunpennant.h, in an archive of its own.
// In one archive with the node calls it would call the same functions as they do, which the compiler
// then no longer puts into them, and each would take longer.
#![tactic(auto)]

ghost use Rattle.std.specs.Prelude.{◌≡◌};
ghost use Rattle.refusal.specs.Answer.{value, and_then};
ghost use Rattle.report.specs.Report.{report_on};
ghost use Rattle.bunpennant.specs.C.{told, tell};
ghost use Rattle.bunpennant_replay.specs.Reports.{report_words};

/// The report: 0, or refusal 26, which leaves the struct as it came.
#[unsafe(no_mangle)]
pub extern "C" fn rtm_replay(capture: &[u8], report: &mut [u64; 26]) -> u8
    ensures { told result report.new
        ≡ tell report.old (and_then (report_on capture.now) (λ x. value (report_words x))) }
{
    bunpennant_replay::rtm_replay(capture, report)
}
