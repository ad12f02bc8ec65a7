//! The law of kept changes, over every history of a room. There is nothing to run.

ghost use Rattle.std.specs.Prelude.{◌≡◌, ℕ, List, Some};
ghost use Rattle.room_object.specs.Entry.{Entry};
ghost use Rattle.room_history.specs.Room.{serials, standing};
ghost use Rattle.room_history.specs.declared.call.RoomCall.{RoomCall as Asks};
ghost use Rattle.room_changes.specs.ChangesOf.{changes_of};
ghost use Rattle.room_changes.specs.Kept.{kept};

use game_trait::Game;

/// The changes that a room's history accepted make just its count of matches and the match that stands, with its players and its
/// accepted actions.
pub fn changes_make_the_matches<X: Game>(game: &X)
    ensures { (room : ℕ) (h : List (Entry (Asks X))) → kept X.rules room (changes_of X.rules room h) ≡ Some (record { serials = serials X.rules room h; standing = standing X.rules room h }) }
{
    let _game = game;
}
