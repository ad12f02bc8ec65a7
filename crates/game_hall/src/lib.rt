//! A session's side of the lobby: what its lines ask of rooms, and what it is answered.
//!
//! `SessionCore` is a pure machine. It is given the session's lines and the replies of rooms, and gives room calls and direct
//! answers; it holds no room, and waits for nothing.
#![tactic(auto)]

mod answer;
mod begin;
mod bench;
mod laws;
mod next;
mod reply;
mod request;
mod rows;
mod session;
mod short_lines;
mod words;
mod written;

pub use laws::{
    acts_go_to_the_attached_room, answers_change_nothing_else,
    creates_are_full_where_rooms_are_busy, lists_have_a_row_for_each_room, requests_end,
    takeovers_ask_the_bench,
};
pub use session::SessionCore;
pub use words::match_seed;
