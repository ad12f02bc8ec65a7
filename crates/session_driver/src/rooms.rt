//! The rooms that a session calls.

use any_game::AnyGame;
use room_history::{RoomCall, RoomReply};

/// The rooms that a session calls, by its pass.
pub trait Rooms {
    ghost use Rattle.std.specs.Prelude.{◌≡◌, ◌<◌, ◌≤◌, ℕ};
    ghost use Rattle.game_hall.specs.Kept.{IsNamed};
    ghost use Rattle.session_driver.specs.Calls.{Did, did};

    /// How many rooms there are.
    ghost many: { Self → ℕ };

    /// That a pass may make calls in them.
    ghost serves: { Self → ℕ → Type 0 };

    /// What a call by a pass comes to, from these rooms to those.
    ghost calls: { Self → ℕ → Did → Self → Type 0 };

    /// How many rooms there are.
    fn count(&self) -> u8
        requires { (pass : ℕ) × serves self.now pass }
        ensures { result ≡ many self.now };

    /// Makes a call of a pass in a room.
    fn call(&mut self, pass: u32, room: u8, call: RoomCall<AnyGame>) -> RoomReply
        requires serves { serves self.old pass }
        requires there { room < many self.old }
        ensures calls { calls self.old pass (did room call result) self.new }
        ensures serves { serves self.new pass }
        ensures many { many self.new ≡ many self.old }
        ensures named { IsNamed result };
}
