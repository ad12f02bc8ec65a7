//! Links over WebSockets: a message is a line. Each line that comes is a message of the frames that were read, and each that is sent
//! is one frame.
#![tactic(auto)]

mod framing;
mod greeting;
mod poll_streams;
mod stream_door;
mod ws_link;

pub use framing::{Framing, LINE};
pub use greeting::Greeting;
pub use poll_streams::{HeadStream, PollStreams};
pub use stream_door::{StreamDoor, WsDoor};
pub use ws_link::{Peer, Rest, WsLink};
