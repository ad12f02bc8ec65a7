//! A room: one match, who is attached to it, and what waits for each of them.
#![tactic(auto)]

mod action;
mod attaching;
mod attachments;
mod book;
mod judge;
mod line;
mod lobby;
mod made_lines;
mod object;
mod outbox;
mod rule;
mod running_match;
mod staging;
mod submitting;

pub use book::Book;
pub use room_history::{RoomCall, RoomReply};
pub use rule::public_rule;
