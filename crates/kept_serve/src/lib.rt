//! A server whose rooms keep their changes in journals: opens them, serves a door with them, and hands their disks back.
#![tactic(auto)]

mod opened_room;
mod opening;
mod serving;
mod shelf;

pub use opened_room::{ClosedRoom, OpenedRoom};
pub use opening::open_rooms;
pub use serving::serve_opened;
pub use shelf::Shelf;
