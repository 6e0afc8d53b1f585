// A capture run again, for C: the function rtm_replay of c/include/bunpennant.h, in an archive of its own.
// In one archive with the node calls it would call the same functions as they do, which the compiler
// then no longer puts into them, and each would take longer.
#![tactic(auto)]

ghost use Rattle.std.specs.Prelude.{◌≡◌};
ghost use Rattle.refusal.specs.Answer.{value, and_then};
ghost use Rattle.report.specs.Report.{report_on};
ghost use Rattle.bunpennant.specs.C.{told, tell};
ghost use Rattle.bunpennant_replay.specs.Reports.{report_words};

use report::{Range, Report};

// The words of a report, in the order of C's struct. No From: report and array are of other crates.
fn words_of(report: Report) -> [u64; 26]
    ensures { result ≡ report_words report }
{
    let counts = report.counts;
    let refused = counts.refused;
    let (ranged, least, greatest) = match report.residences.range {
        Range::Absent => (0, 0, 0),
        Range::Between(least, greatest) => (1, least, greatest),
    };
    [
        u64::from(counts.updated),
        u64::from(counts.passed),
        u64::from(counts.created),
        u64::from(counts.waiting),
        u64::from(counts.added),
        u64::from(refused[0]),
        u64::from(refused[1]),
        u64::from(refused[2]),
        u64::from(refused[3]),
        u64::from(refused[4]),
        u64::from(refused[5]),
        u64::from(refused[6]),
        u64::from(refused[7]),
        u64::from(refused[8]),
        u64::from(refused[9]),
        u64::from(refused[10]),
        u64::from(refused[11]),
        u64::from(refused[12]),
        u64::from(refused[13]),
        u64::from(refused[14]),
        u64::from(refused[15]),
        u64::from(refused[16]),
        ranged,
        least,
        greatest,
        report.residences.sum,
    ]
}

/// The report: 0, or refusal 26, which leaves the struct as it came.
pub fn rtm_replay(capture: &[u8], report: &mut [u64; 26]) -> u8
    ensures { told result report.new
        ≡ tell report.old (and_then (report_on capture.now) (λ x. value (report_words x))) }
{
    bunpennant::tell(rerun::replay(capture).map(words_of), report)
}
