// The octets of a capture (document 02, W-209): its contents, the number of bodies and the offset of
// each, and the bodies, each a recorded call or a tick.
#![tactic(auto)]

mod bodies;
mod contents;
mod kinds;
pub mod layout;

pub use bodies::{body, is_capture};
pub use contents::count;
pub use kinds::{Kind, classify};
