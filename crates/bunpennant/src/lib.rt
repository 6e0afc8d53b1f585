// The library for C: the functions that c/include/bunpennant.h declares. Answers are numbers, a struct
// is lent as the numbers of which its memory is made (specs/C.antt), and the table as its words. Each
// function makes one call of the library.
#![tactic(auto)]

mod addresses;
mod fields;
mod images;
mod joins;
mod labels;
mod messages;
mod nodes;
mod sizes;
mod tables;

pub use addresses::{rtm_address_count, rtm_address_entry};
pub use images::{rtm_image_to_new, rtm_image_to_old, rtm_load_image, rtm_write_image};
pub use joins::rtm_join;
pub use labels::{rtm_next_ttl, rtm_write_labels};
pub use messages::{rtm_carried, rtm_read, rtm_write};
pub use nodes::{rtm_one_step, rtm_residence, rtm_two_step};
pub use sizes::{number, tell};
pub use tables::{rtm_new, rtm_tick, rtm_waiting};
