//! The driver of a session: hears its lines and makes the calls of its requests, over rooms in one thread or behind desks.
#![tactic(auto)]

mod books;
mod driver;
mod freeing;
mod room;
mod rooms;
mod tally;

pub use books::Books;
pub use driver::hear;
pub use freeing::{detach, take};
pub use room::Room;
pub use rooms::Rooms;
pub use tally::Tally;
