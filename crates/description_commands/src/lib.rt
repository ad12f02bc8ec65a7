//! The commands `check` and `ask` of the program: what a description of a game takes or why it is refused, random matches of it, and answers to rows.
#![tactic(auto)]

mod asking;
mod checking;
mod loading;
mod printing;

pub use asking::ask_description;
pub use checking::check_description;
pub use loading::MOST_BYTES;
