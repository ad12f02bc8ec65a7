//! Laws of clients and rooms: what a client that reads a session's lines comes to. There is nothing to run.
#![tactic(auto)]

mod laws;

pub use laws::{
    acts_settle_nothing, clients_see_what_their_viewers_see, first_parts_tell_first_parts,
    lines_are_shallow_where_states_are, lines_of_all_games_are_shallow, lines_read_back,
    matches_can_be_shown,
};
