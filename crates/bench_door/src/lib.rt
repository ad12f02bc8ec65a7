//! A door that gives bots' links first, and then those of another door: for the server that seats bots beside its players.
#![tactic(auto)]

mod bench;
mod bench_link;
mod bench_ready;
mod pace;

pub use bench::{Bench, Seats};
pub use bench_link::BenchLink;
pub use bench_ready::BenchReady;
pub use pace::Pace;
