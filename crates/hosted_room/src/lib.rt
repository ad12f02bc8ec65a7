//! A room as a server hosts it: behind a desk, where sessions of many threads call it.
#![tactic(auto)]

mod hosted;

pub use hosted::HostedRoom;
