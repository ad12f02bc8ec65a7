//! A session's side of the bench: its bot sits down there, hears that somebody wants its seat, and rises; and a takeover is put to it.
#![tactic(auto)]

mod asking;
mod seeking;
mod sitting;

pub use seeking::seek;
pub use sitting::{ready, rise};
