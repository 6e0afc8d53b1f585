// What a node makes of a message, and the octets that it changes or writes (RFC 8169, 2.1; document 01,
// What a node does). The calls themselves are the crate `node`.
#![tactic(auto)]

mod change;
mod kind;

pub use change::{add_to_pad, create_follow_up, set_two_step};
pub use kind::{Handling, classify};
