//! What a server asks of each of its rooms.

use game_sheet::Number;
use game_trait::Game;
use match_master::Book;
use room_history::{RoomCall, RoomReply};
use room_object::Object;

/// A room that a server hosts, for matches of X. It may have had calls before it was put behind its desk, as one that was kept has, and it may stop;
/// then it serves nobody until the server's next start.
pub trait HostedRoom<X: Game + Drop>: Object<Call = RoomCall<X>, Reply = RoomReply> {
    ghost use Rattle.std.specs.Prelude.{◌≡◌, ℕ, Bool, List, false, is_some, not};
    ghost use Rattle.hosted_room.specs.Calls.{IsRowOf};
    ghost use Rattle.match_master.specs.Held.{is_starved as says_starved};
    ghost use Rattle.room_history.specs.Room.{reply as reply_in};
    ghost use Rattle.room_history.specs.declared.call.RoomCall.{RoomCall as Asks};
    ghost use Rattle.room_history.specs.declared.call.RoomCall.TheVariants as call;
    ghost use Rattle.room_history.specs.declared.reply.RoomReply.{RoomReply as Told};
    ghost use Rattle.room_object.specs.Entry.{Entry};

    /// Whether it has stopped.
    ghost has_stopped: { Self → Bool };

    /// How many matches it has had, and the state number of the match that stands; none where it has stopped. It takes no memory.
    fn row(&self) -> Option<(u64, Option<Number>)>
        ensures row { (h : List (Entry (Asks X))) → Self.stands_for self.now h → IsRowOf X.rules (Self.number self.now) h result }
        ensures stopped { is_some result ≡ not (has_stopped self.now) };

    /// Its replies are those that the history of a room says.
    ghost replies: { (room : ℕ) (h : List (Entry (Asks X))) (e : Entry (Asks X)) → Self.Object.reply room h e ≡ reply_in X.rules room h e };

    /// A reply is want of memory where it says so.
    ghost starves: { (told : Told) → Self.Object.is_starved told ≡ says_starved told };

    /// A Detach is never refused for want of memory. Once the room has stopped, any other call may be.
    ghost detaches: { Self.Object.may_starve call.Detach ≡ false };
}

impl<X: Game + Drop> HostedRoom<X> for Book<X> {
    ghost use Rattle.std.specs.Prelude.{false, refl};

    ghost has_stopped = { λ b. false };

    ghost replies = { λ room h e. refl };

    ghost starves = { λ told. refl };

    ghost detaches = { refl };

    fn row(&self) -> Option<(u64, Option<Number>)> {
        Some((self.serial(), self.number()))
    }
}
