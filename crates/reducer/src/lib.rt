//! The state of a match as the fold of its accepted actions: its start, and one action more.
#![tactic(auto)]

mod act;
mod change;
mod checkpoint;
mod fold;
mod laws;
mod machine;
mod prepared;
mod preparing;
mod state;
mod taking;

pub use fold::{StartNo, start, step};
pub use laws::matches_stay_sound;
pub use prepared::Prepared;
pub use preparing::prepare;
pub use state::State;
pub use taking::commit;
