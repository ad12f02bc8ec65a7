//! The log of a match: what was done in it, and what of that each viewer may see.
#![tactic(auto)]

mod entry;
mod kept_act;
mod kept_entry;
mod outline;

pub use entry::Entry;
pub use kept_act::KeptAct;
pub use kept_entry::KeptEntry;
pub use outline::{Outline, Seen};
