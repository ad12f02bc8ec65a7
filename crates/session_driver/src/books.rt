//! Rooms in one thread.

use crate::room::Room;
use crate::rooms::Rooms;
use any_game::AnyGame;
use room_history::{RoomCall, RoomReply};

/// Rooms in one thread, a book for each. Any pass may call.
#[derive(Drop)]
pub struct Books<B: Room> {
    /// Each room's book, room 0's first. There are 255 at most.
    pub books: Vec<B>,
}

impl<B: Room> Rooms for Books<B> {
    ghost use Rattle.std.specs.Prelude.{◌≤◌, length};
    ghost use Rattle.session_driver.specs.OfBooks.{AreInOrder, CallsBook};

    ghost many = { λ b. length b.books.items };

    ghost serves = { λ b pass. (length b.books.items ≤ 255) × AreInOrder B.number B.stands_for b.books.items };

    ghost calls = { λ b pass made c. CallsBook B.number B.stands_for B.whole b.books.items pass made c.books.items };

    fn count(&self) -> u8 {
        self.books.len() as u8
    }

    fn call(&mut self, pass: u32, room: u8, call: RoomCall<AnyGame>) -> RoomReply {
        self.books[room as usize].call(pass, call)
    }
}
