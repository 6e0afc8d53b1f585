// What the programs print: `show` of a message (document 01, Numbers to check against), `show_ttl` of
// a path (document 02, W-208), `replay` of a capture (W-209), `plan` of a path that is to be built
// (W-212); and the programs themselves.
#![tactic(auto)]

mod planning;
mod program;
mod replaying;
mod showing;
mod text;
mod ttl;

// The programs call `show`, `show_ttl`, `replay` and `plan`, which print by `print`, `print_ttl`,
// `print_report` and `print_plan`; the others stay for callers that want the line and do not print it.
pub use planning::{plan, plan_line, print_plan};
pub use replaying::{print_report, replay, report_text};
pub use showing::{line, print, show};
pub use ttl::{print_ttl, show_ttl, ttl_line};

/// Room for any line, and for the text of a report.
pub const ROOM: usize = 1280;
