//! A room that a session calls in its own thread.

use any_game::AnyGame;
use match_master::Book;
use room_history::{RoomCall, RoomReply};

/// A room of the games that there are. It answers each call as the history of its calls says.
///
/// A room may stop, as one whose store has failed. From then on it isn't whole, and answers every call by `NoMemory`; it may stand for any
/// history then, since that is the answer to a call for which there was no memory.
pub trait Room: Drop {
    ghost use Rattle.std.specs.Prelude.{◌≡◌, ◌∷◌, ℕ, Bool, true};
    ghost use Rattle.any_game.specs.AnyRules.{any_rules};
    ghost use Rattle.match_master.specs.Held.{is_starved, may_starve};
    ghost use Rattle.room_history.specs.Room.{reply};
    ghost use Rattle.room_object.specs.Entry.{entry};
    ghost use Rattle.session_driver.specs.OfBooks.{RoomCalls};

    /// Its number.
    ghost number: { Self → ℕ };

    /// Whether it stands for this history of its calls, the latest first.
    ghost stands_for: { Self → RoomCalls → Type 0 };

    /// Whether it has never stopped.
    ghost whole: { Self → Bool };

    /// Makes a call of a pass. As long as the room is whole, only a Create, a Look, an Attach and a Submit may be answered by `NoMemory`.
    fn call(&mut self, pass: u32, call: RoomCall<AnyGame>) -> RoomReply
        requires history { (h : RoomCalls) × stands_for self.old h }
        ensures number { number self.new ≡ number self.old }
        ensures answered { (h : RoomCalls) → stands_for self.old h → result ≡ reply any_rules (number self.old) h (entry pass call (is_starved result)) }
        ensures stands { (h : RoomCalls) → stands_for self.old h → stands_for self.new (entry pass call (is_starved result) ∷ h) }
        ensures fed { whole self.new ≡ true → is_starved result ≡ true → may_starve call ≡ true }
        ensures stopped { whole self.new ≡ true → whole self.old ≡ true };

    /// Whether it has never stopped.
    fn is_whole(&self) -> bool
        ensures { result ≡ whole self.now };
}

impl Room for Book<AnyGame> {
    ghost use Rattle.std.specs.Prelude.{true};
    ghost use Rattle.any_game.specs.AnyRules.{any_rules};
    ghost use Rattle.match_master.specs.Held.{StandsFor};

    ghost number = { λ b. b.room };

    ghost stands_for = { λ b h. StandsFor any_rules b h };

    ghost whole = { λ b. true };

    fn call(&mut self, pass: u32, call: RoomCall<AnyGame>) -> RoomReply {
        self.apply(pass, call)
    }

    fn is_whole(&self) -> bool {
        true
    }
}
