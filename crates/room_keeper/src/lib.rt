//! Who looks after the rooms beside the sessions: what a room shows of itself, and a keeper that names the matches which were left alone for long, and
//! tells who asks from outside what goes on.
#![tactic(auto)]

mod gauge;
mod gauged_room;
mod hall;
mod keeper;
mod metrics;
mod outside;
mod request;
mod status;
mod watching;

pub use gauge::{Gauge, Seen};
pub use gauged_room::GaugedRoom;
pub use hall::HallKeeper;
pub use keeper::{Errand, Keeper, NoKeeper};
pub use metrics::metrics_text;
pub use outside::Outside;
pub use request::{Request, request_of};
pub use status::{Counts, Ends, MatchStatus, RoomStatus, status_text};
pub use watching::watch_rooms;
