// The table's records as an image, for the control card that takes over (document 02, W-201 and W-211):
// written, loaded, and converted between its two forms. What an image is stands in the crate `image`.
#![tactic(auto)]

mod bodies;
mod contents;
mod converter;
mod layout;
mod listing;
mod loader;
mod writer;

pub use converter::{to_new, to_old};
pub use loader::{Loaded, load};
pub use refusal::Refusal;
pub use writer::write;
