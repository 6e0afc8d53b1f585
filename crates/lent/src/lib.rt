// The table of waiting records lent as its 64 words (document 01, What a node does; document 02,
// W-206): adding, collecting, a tick, how many records wait, and the slots as records. Every value of
// every word is good input; specs/Words.antt of `words` says what they mean.
//
// The words stay `&mut [u64; 64]`: C lends them so, and as any 64 words are a table, a type of their
// own would have no fact to keep.
#![tactic(auto)]

mod contents;
mod layout;
mod operations;
mod packed;

pub use contents::{fill, slots};
pub use operations::{add, clear, collect, number, tick, waiting};
