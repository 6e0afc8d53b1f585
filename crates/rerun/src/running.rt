// Running a capture again.
ghost use Rattle.std.specs.Prelude.{◌≤◌, ◌≡◌, true, [], map};
ghost use Rattle.refusal.specs.Refusal.{answer_of};
ghost use Rattle.records.specs.Slots.{Slots};
ghost use Rattle.records.specs.Node.{call, result as node_result, step};
ghost use Rattle.rules.specs.Rules.{one_step, two_step, rules};
ghost use Rattle.words.specs.Words.{slots_of};
ghost use Rattle.capture.specs.Layout.{bodies_from, is_body, are_bodies};
ghost use Rattle.report.specs.Events.{call_in, event_in};
ghost use Rattle.report.specs.Report.{counting, with_result, report_of, report_on};
ghost use Rattle.report.specs.Room.{Room};

use crate::calls::{LARGEST_MESSAGE, Recorded};
use crate::{calls, tally};
use capture::Kind;
use refusal::Refusal;
use report::Report;

// A one-step call more: it looks at no table, whatever the table is.
fn after_one_step(report: Report, copy: &mut [u8; LARGEST_MESSAGE], recorded: Recorded) -> Report
    requires { Room 256 report [] }
    ensures { (t : Slots) → result ≡ with_result report (node_result counting t (call (call_in one_step recorded.entry.body.now))) }
{
    let residence = recorded.residence();
    let answer = calls::one_step(copy, recorded.message(), residence);
    tally::with_call(report, answer, calls::units_of(residence), 0)
}

// A two-step call more. Not one function with the above: that one holds for any table, this one
// changes the lent table.
fn after_two_step(
    words: &mut [u64; 64],
    report: Report,
    copy: &mut [u8; LARGEST_MESSAGE],
    recorded: Recorded,
) -> Report
    requires { Room 256 report (slots_of words.old) }
    ensures value { result ≡ with_result report (node_result counting (slots_of words.old) (call (call_in two_step recorded.entry.body.now))) }
    ensures words_after { slots_of words.new ≡ step rules (slots_of words.old) (call (call_in two_step recorded.entry.body.now)) }
{
    let residence = recorded.residence();
    let told = calls::two_step(words, copy, recorded.message(), residence);
    tally::with_call(
        report,
        told.answer,
        calls::units_of(residence),
        told.collected,
    )
}

// A body more.
fn advance(
    words: &mut [u64; 64],
    report: Report,
    copy: &mut [u8; LARGEST_MESSAGE],
    body: &[u8],
) -> Report
    requires { Room 256 report (slots_of words.old) × (is_body body.now ≡ true) }
    ensures value { result ≡ with_result report (node_result counting (slots_of words.old) (event_in body.now)) }
    ensures words_after { slots_of words.new ≡ step rules (slots_of words.old) (event_in body.now) }
{
    match capture::classify(body).unwrap() {
        Kind::OneStep => after_one_step(report, copy, Recorded { body }),
        Kind::TwoStep => after_two_step(words, report, copy, Recorded { body }),
        Kind::Tick => {
            lent::tick(words);
            report
        }
    }
}

// The report on n bodies, from an empty table on.
fn run(capture: &[u8], n: usize) -> Report
    requires { (n ≤ 256) × (are_bodies (bodies_from capture.now 0 n) ≡ true) }
    ensures { result ≡ report_of (map event_in (bodies_from capture.now 0 n)) }
{
    let mut words = [0u64; 64];
    let mut copy = [0u8; LARGEST_MESSAGE];
    let mut report = Report::new();
    for k in 0..n {
        report = advance(&mut words, report, &mut copy, capture::body(capture, k));
    }
    report
}

/// Runs a capture again, from an empty table, and reports its calls. Refusal 26 for octets that are no
/// capture, before any call is run.
pub fn replay(capture: &[u8]) -> Result<Report, Refusal>
    ensures { answer_of result ≡ report_on capture.now }
{
    if !capture::is_capture(capture) {
        return Err(Refusal::Capture);
    }
    Ok(run(capture, capture::count(capture)))
}
