//! Links over TCP sockets that never wait, a door that gives them, and what tells each worker which of its links are ready, over one poll.
#![tactic(auto)]

mod agenda;
mod alarms;
mod bells;
mod each_second;
mod incoming;
mod knock;
mod opening;
mod outgoing;
mod poll_door;
mod poll_link;
mod poll_ready;
mod poll_stream;
mod watched;

pub use alarms::Looks;
pub use opening::open;
pub use outgoing::{Outgoing, Wrote};
pub use poll_door::PollDoor;
pub use poll_link::PollLink;
pub use poll_ready::PollReady;
pub use poll_stream::PollStream;
pub use watched::Watched;
