//! A player's page of any game: lines come from the server and from the player, and lines go to the server and to what draws.
#![tactic(auto)]

mod begin;
mod drawing;
mod line;
mod page;
mod playing;

pub use page::run_page;
