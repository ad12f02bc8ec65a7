//! What a player is shown of a match, and the JSON that shows it: as values, and as text appended to bytes.
#![tactic(auto)]

mod acts;
mod change;
mod context;
mod entries;
mod members;
mod parts;
mod same;
mod shown;
mod snapshots;
mod text_active;
mod text_args;
mod text_context;
mod text_entry;
mod text_parts;
mod text_snapshot;

pub use change::changed;
pub use context::ctx_value;
pub use entries::{entry_value, log_value};
pub use shown::Snapshot;
pub use snapshots::{snapshot, snapshot_value, to_value};
pub use text_context::put_ctx;
pub use text_entry::put_entry;
pub use text_snapshot::{put_log, put_snapshot};
