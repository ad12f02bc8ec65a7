//! What simulated worlds are: clients, their links, and the server that they share; and the workload that plays in one.
#![tactic(auto)]

mod laws;

pub use laws::{worlds_agree_with_their_rooms, worlds_deliver_what_is_sent};
