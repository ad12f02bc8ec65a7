//! Laws of worlds: what clients come to that act and read over links. There is nothing to run.
#![tactic(auto)]

mod laws;

pub use laws::{
    calls_of_worlds_fit, clients_of_other_games_are_lost, clients_of_worlds_follow_their_sessions,
    clients_of_worlds_go_on_until_a_bye, clients_of_worlds_see_their_matches,
    show_lines_print_what_is_settled, worlds_of_all_games_converge,
};
