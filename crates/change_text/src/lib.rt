//! The text of a change that a room accepted: the payload of its record, written and read back.
#![tactic(auto)]

mod call_write;
mod change_read;
mod change_write;
mod laws;

pub use call_write::put_asked_change;
pub use change_read::read_change;
pub use change_write::put_change;
pub use laws::written_changes_read_back;
