// A call more in a report.
ghost use Rattle.std.specs.Prelude.{◌+◌, ◌<◌, ◌^◌, ◌≡◌, get_or, set};
ghost use Rattle.std.proofs.Math.Option.{some};
ghost use Rattle.image.specs.Layout.{sum};
ghost use Rattle.refusal.specs.Refusal.{answer_of};
ghost use Rattle.report.specs.Report.{counted_by, with_answer, with_residence, with_call};
ghost use Rattle.report.specs.Promises.{total};

use node::Handled;
use refusal::Refusal;
use report::{Counts, Range, Report, Residences};

// One more was refused with number n.
fn one_more(refused: [u16; 17], n: u8) -> [u16; 17]
    requires { sum refused < 65535 }
    ensures { result ≡ set refused n (get_or refused n 0 + 1) }
{
    let at = usize::from(n);
    let mut more = refused;
    if at < more.len() {
        more[at] += 1;
    }
    more
}

// One more had this answer.
fn with_answer(counts: Counts, answer: Result<Handled, Refusal>) -> Counts
    requires { total counts < 65535 }
    ensures { result ≡ with_answer counts (answer_of answer) }
{
    let mut more = counts;
    match answer {
        Ok(Handled::Updated) => more.updated += 1,
        Ok(Handled::Passed) => more.passed += 1,
        Ok(Handled::Created) => more.created += 1,
        Ok(Handled::Waiting) => more.waiting += 1,
        Ok(Handled::Added) => more.added += 1,
        Err(refusal) => more.refused = one_more(counts.refused, refusal.number()),
    }
    more
}

// One residence more.
fn with_residence(residences: Residences, units: u64) -> Residences
    requires { residences.sum + units < 2 ^ 64 }
    ensures { result ≡ with_residence residences (some units) }
{
    let range = match residences.range {
        Range::Absent => Range::Between(units, units),
        Range::Between(low, high) => Range::Between(low.min(units), high.max(units)),
    };
    Residences {
        range,
        sum: residences.sum + units,
    }
}

// A call more, with its answer, its own residence and the one that it collected.
pub(crate) fn with_call(
    report: Report,
    answer: Result<Handled, Refusal>,
    own: u64,
    collected: u64,
) -> Report
    requires { (total report.counts < 65535)
        × (report.residences.sum + own < 2 ^ 64)
        × (report.residences.sum + collected < 2 ^ 64) }
    ensures { result ≡ with_call report (counted_by own collected (answer_of answer)) }
{
    let counts = with_answer(report.counts, answer);
    let residences = match answer {
        Ok(Handled::Updated | Handled::Created) => with_residence(report.residences, own),
        Ok(Handled::Added) => with_residence(report.residences, collected),
        _ => report.residences,
    };
    Report { counts, residences }
}
