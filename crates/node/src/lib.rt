// One-step and two-step node calls over a residence (RFC 8169, 2.1; document 01, What a node
// does). Nothing here knows of stamps.
//
// Message, output and table are parameters of their own: C lends each by itself, and a clause says of
// each what it is afterwards.
#![tactic(auto)]

mod answer;
mod one_step;
mod two_step;

pub use answer::{Done, Told};
pub use one_step::handle_one_step;
pub use refusal::Refusal;
pub use rules::Handled;
pub use two_step::{handle_two_step, handle_two_step_lent, tell_two_step};
