//! Replays a journal: says how many records it has, and shows the match that they make.
#![tactic(auto)]

mod journal_text;
mod line;
mod replaying;
mod room_text;

pub use replaying::replay;
