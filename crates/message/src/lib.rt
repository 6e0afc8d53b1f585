// RTM messages on the G-ACh (RFC 8169, 3; document 01, The RTM message): their layout, Types and
// fields, and, in specs/ and proofs/, what reading and writing come to, and that what is written and
// read again gives its fields back. The functions are the crates `reader` and `writer`.
#![tactic(auto)]

mod fields;
pub mod layout;
pub mod types;

pub use fields::{Fields, Header, Message, SubTlv, is_ptp, is_sub_tlv_length};
pub use layout::G_ACH_HEADER;
