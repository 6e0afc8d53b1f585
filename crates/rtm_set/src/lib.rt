// The address list of the RTM_SET TLV, from egress to ingress (RFC 8169, 4.4.1; document 01, The
// address list): how many entries it has, and the entry at a place, also as its offset and length.
// List and place are parameters of their own, as C hands them over.
#![tactic(auto)]

pub mod layout;
mod list;
mod part;

pub use list::{count, entry, locate, lookup};
pub use part::Part;
