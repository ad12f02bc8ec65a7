//! The flow of a match: how it begins, and what follows from a move or an event.
#![tactic(auto)]

mod automatic;
mod calls;
mod flow;
mod flow_no;
mod hooks;
mod laws;
mod line;
mod map;
mod rows;
mod run;
mod settle;
mod table;
mod task;
mod turns;

pub use calls::{begin, moved, run_event};
pub use flow_no::FlowNo;
pub use laws::{actions_keep_tables_sound, bounds_grow, matches_begin_soundly};
pub use table::{MOST_COUNT, Table};
pub use task::Task;
