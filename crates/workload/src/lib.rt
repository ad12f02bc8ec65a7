//! The workload: a world of fourteen clients that plays on by itself for a number of steps, and what it then tells in numbers.
#![tactic(auto)]

mod counts;
mod load;
mod place;
mod run;
mod summary;

pub use run::workload;
