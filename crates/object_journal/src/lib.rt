//! An object whose accepted calls are kept: each is a record of a file before it is answered, and the object comes back from the records.
#![tactic(auto)]

mod kept_object;
mod opening;
mod performing;
mod recorded;
mod replaying;
mod scanning;

pub use kept_object::{KeptObject, KeptReply};
pub use opening::open;
pub use performing::Stop;
pub use recorded::Recorded;
pub use replaying::{OpenNo, Replayed, Replays};
