//! Who comes next: positions in the play order, and the play order itself.
#![tactic(auto)]

mod play_order;
mod position;

pub use play_order::{all_seats, list_from};
pub use position::{first, next};
