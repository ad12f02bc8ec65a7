//! The lines of scripts: the steps that these ask for, and what steps print.
#![tactic(auto)]

mod printing;
mod step;

pub use printing::{put_lines, put_opened, put_reply};
pub use step::{Step, step_of};
