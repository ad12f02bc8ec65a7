//! Law: a move that a game offers is one that the server accepts. There is nothing to run.
#![tactic(auto)]

mod laws;

pub use laws::{
    offered_moves_are_accepted, offered_moves_are_allowed, seats_see_what_they_are_offered,
};
