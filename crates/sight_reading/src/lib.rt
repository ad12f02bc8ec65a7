//! Reads the JSON values that show a player a match back: contexts, entries of the log, and snapshots.
#![tactic(auto)]

mod ctx_read;
mod entry_read;
mod laws;
mod part_read;
mod patch;
mod snapshot_read;

pub use ctx_read::ctx_of;
pub use entry_read::entry_of;
pub use laws::changes_lead_to_the_new_value;
pub use patch::patched;
pub use snapshot_read::from_value;
