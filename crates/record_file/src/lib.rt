//! Records one after another in a file on a disk that may crash: each is in the file whole, or not at all.
#![tactic(auto)]

mod append;
mod gates;
mod laws;
mod making_ready;
mod reading;

pub use append::RecordFile;
pub use gates::{Gate, gate_at};
pub use laws::records_are_one;
pub use making_ready::{LONGEST, NotReady, ready};
