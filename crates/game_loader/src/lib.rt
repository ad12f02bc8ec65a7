//! Described games from their files: what a game is made of, with what it takes.
//!
//! A description is refused with its first fault, in this order: those of the file's members, as `game_file` reads them;
//! those of what isn't code, as `game_frame` says; those of the code, as `code_loader` says; those of what the whole game takes;
//! and what games can't have yet.
#![tactic(auto)]

mod joining;
mod listed;
mod loading;
mod moves;
mod parting;
mod turns;
mod unloaded;

pub use loading::{LoadedGame, load};
pub use unloaded::Unloaded;
