//! Rooms that keep their accepted changes in a journal.
#![tactic(auto)]

mod opening;
mod replaying;
mod room_book;

pub use object_journal::{KeptReply, OpenNo};
pub use opening::open_book;
pub use replaying::REPLAYER;
pub use room_book::RoomBook;
pub use room_disk::{Disk, Size};

/// A room's book over its journal.
pub type KeptBook<D> = object_journal::KeptObject<RoomBook, D>;
