//! What the lines of sessions make of a server of several rooms, and what scripts of them print.
#![tactic(auto)]

mod laws;

pub use laws::{
    acts_go_to_the_attached_room, creates_are_full_where_rooms_are_busy,
    creates_go_to_the_least_room_that_isnt_busy, halls_agree_with_their_rooms,
    lines_add_their_own_calls, lists_have_the_rows_of_the_standing_matches, requests_end,
    scripts_print_alike_sessions_the_same, scripts_print_what_is_sent,
    want_of_memory_takes_nothing,
};
