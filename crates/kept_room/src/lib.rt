//! A room that keeps its accepted changes in a journal, as a script and as a server have it.
#![tactic(auto)]

mod anew;
mod asking;
mod form;
mod framing;
mod hosted;
mod opening;
mod origin;
mod room;

pub use anew::cleared_bytes;
pub use hosted::HostedKept;
pub use opening::{open_hosted, open_room};
pub use origin::Origin;
pub use room::KeptRoom;
