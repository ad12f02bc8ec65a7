//! The lines of a source, read and run one by one, what they print, and how a run ends.
#![tactic(auto)]

mod chunk;
mod exit;
mod interpreter;
mod lines;
mod next;
mod run;

pub use exit::Exit;
pub use interpreter::{Interpreter, LineNo, ended};
pub use lines::Lines;
pub use next::Next;
pub use run::{run_lines, stop_at};
