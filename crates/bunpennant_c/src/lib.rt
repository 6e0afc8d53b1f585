// The functions that c/include/bunpennant.h declares, as C calls them: each makes one call of `bunpennant`,
// and says the same.
#![tactic(auto)]

mod addresses;
mod images;
mod joins;
mod labels;
mod messages;
mod nodes;
mod tables;

pub use addresses::{rtm_address_count, rtm_address_entry};
pub use images::{rtm_image_to_new, rtm_image_to_old, rtm_load_image, rtm_write_image};
pub use joins::rtm_join;
pub use labels::{rtm_next_ttl, rtm_write_labels};
pub use messages::{rtm_carried, rtm_read, rtm_write};
pub use nodes::{rtm_one_step, rtm_residence, rtm_two_step};
pub use tables::{rtm_new, rtm_tick, rtm_waiting};
