//! A session over a link: its lines become calls in rooms, and what it is answered and what waits for it goes back over the link.
//! Rooms of any kind are served, those that keep their changes too. And places of such sessions, dealt over workers in threads, which serve the links of a door.
#![tactic(auto)]

mod desks;
mod door;
mod heed;
mod link;
mod rooms;
mod say;
mod sitting;
mod take;
mod turn;
mod watch;

pub use door::serve_door;
pub use link::serve_link;
pub use rooms::{plain_rooms, set_up_rooms};
pub use sitting::{Hall, Seeded, Sitting};
pub use turn::serve_turn;
