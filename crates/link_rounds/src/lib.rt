//! Workers that serve many links each: every place has a service, which gives its link turn after turn, and a round gives a turn to the
//! places that are ready.
#![tactic(auto)]

mod bench;
mod dealing;
mod gate;
mod in_turn;
mod place;
mod ready;
mod round;
mod service;
mod serving;

pub use bench::Bench;
pub use dealing::serve_places;
pub use gate::{DoorEnd, Gate, Next, Shift};
pub use in_turn::InTurn;
pub use place::Place;
pub use ready::Ready;
pub use round::serve_round;
pub use service::{Service, Stir};
pub use serving::serve_door;
