//! Bots, which sit at a match as its players do: each reads the lines of a session and answers with lines. For the server that seats them.
#![tactic(auto)]

mod answers;
mod bot;
mod bot_link;
mod bots;
mod glance;
mod rest;
mod seated;

pub use bot::Bot;
pub use bot_link::BotLink;
pub use bots::{DiceBot, FirstBot, PassBot};
pub use glance::Glance;
pub use rest::{NoRest, Rest};
pub use seated::BenchDoor;
