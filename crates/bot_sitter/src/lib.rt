//! A bot's link as far as it goes without its bot: what it was sent, what its client makes of that, and what it does next.
#![tactic(auto)]

mod ear;
mod gave;
mod laws;
mod sitter;
mod step;
mod told;

pub use ear::Ear;
pub use gave::Gave;
pub use laws::bots_settle_what_their_viewers_are_shown;
pub use sitter::Sitter;
pub use step::Step;
pub use told::Told;
