// Captures that are run again, and the report on their calls (document 02, W-209).
#![tactic(auto)]

mod calls;
mod running;
mod tally;

pub use running::replay;
