//! A room's book as what a desk keeps.

ghost use Rattle.std.specs.Prelude.{◌≡◌, ◌∷◌, true};

use crate::book::Book;
use game_trait::Game;
use room_history::{RoomCall, RoomReply};
use room_object::Object;

impl<X: Game + Drop> Object for Book<X> {
    ghost use Rattle.match_master.specs.Held.{StandsFor, is_starved, may_starve};
    ghost use Rattle.room_history.specs.Room.{reply};

    type Call = RoomCall<X>;

    type Reply = RoomReply;

    ghost number = { λ b. b.room };

    ghost stands_for = { λ b h. StandsFor X.rules b h };

    ghost reply = { λ room h e. reply X.rules room h e };

    ghost is_starved = { is_starved };

    ghost may_starve = { may_starve };

    fn apply(&mut self, pass: u32, call: RoomCall<X>) -> RoomReply {
        Book::apply(self, pass, call)
    }
}
