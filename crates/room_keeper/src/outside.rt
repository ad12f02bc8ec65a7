//! What a server's keeper asks of the world.

use crate::status::RoomStatus;
use game_sheet::NoMemory;

/// The world as a keeper knows it: a clock that counts seconds, and who asks for the server's status.
pub trait Outside: Drop {
    /// How many seconds have passed since some moment, which is always the same; none where that can't be said.
    fn seconds(&mut self) -> Option<u64>;

    /// Whether anybody may ask for the status at all. The answer is always the same.
    fn is_watched(&self) -> bool;

    /// Whether somebody asks for the status now. It doesn't wait for anybody who hasn't come. Who was found asking is to be answered, before this is
    /// asked again.
    fn asked(&mut self) -> bool;

    /// Gives the status of the rooms, in order, to who was found asking; or says that there was no memory for it.
    fn answer(&mut self, rooms: Result<&[RoomStatus], NoMemory>);
}
