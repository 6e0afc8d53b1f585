// The TTL that takes an RTM message to the next timing node, and the two label entries that carry it
// (document 02, W-208; RFC 8169, 4.5; RFC 3032; RFC 5586). Hops, RTM_SET and position are parameters of
// their own, as C hands them over.
#![tactic(auto)]

mod labels;
mod layout;
mod search;

pub use labels::write;
pub use search::next_ttl;
