// The report on a capture that is run again (document 02, W-209). Here is what it says; crate `rerun`
// makes it.
#![tactic(auto)]

ghost use Rattle.std.specs.Prelude.{◌≡◌};
ghost use Rattle.report.specs.Report.{nothing_yet};

/// How many calls were answered with each word; `refused[n]` is how many were refused with number n
/// (no refusal has number 0).
#[derive(Clone, Copy)]
pub struct Counts {
    pub updated: u16,
    pub passed: u16,
    pub created: u16,
    pub waiting: u16,
    pub added: u16,
    pub refused: [u16; 17],
}

/// The least and the greatest residence, where there are any. No Option: `Spans` and `LeastFirst` speak
/// of its cases by name.
#[derive(Clone, Copy)]
pub enum Range {
    Absent,
    Between(u64, u64),
}

/// The residences that were updated, created or added, in pad units.
#[derive(Clone, Copy)]
pub struct Residences {
    pub range: Range,
    pub sum: u64,
}

/// The report on a capture.
#[derive(Clone, Copy)]
pub struct Report {
    pub counts: Counts,
    pub residences: Residences,
}

impl Report {
    /// A report on no calls.
    pub fn new() -> Report
        ensures { result ≡ nothing_yet }
    {
        let counts = Counts {
            updated: 0,
            passed: 0,
            created: 0,
            waiting: 0,
            added: 0,
            refused: [0u16; 17],
        };
        let residences = Residences {
            range: Range::Absent,
            sum: 0,
        };
        Report { counts, residences }
    }
}
