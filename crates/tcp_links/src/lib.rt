//! Links and doors over TCP sockets that don't block. What they receive and send is told to nobody.
#![tactic(auto)]

mod connection;
mod halt;
mod line_buffer;
mod listening;
mod tcp_door;
mod tcp_link;
mod watch;

pub use halt::Halt;
pub use line_buffer::{Cut, Fill, LineBuffer};
pub use listening::Listening;
pub use tcp_door::TcpDoor;
pub use tcp_link::{SERVER_LINE, TcpLink};
pub use watch::Watch;
