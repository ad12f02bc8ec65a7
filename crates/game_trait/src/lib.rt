//! What a game is: the trait that a game implements, and what each of its functions means.
#![tactic(auto)]

mod game;
mod halt;
mod offers;

pub use game::Game;
pub use halt::{Halt, HookHalt};
pub use offers::may_be_offered;
