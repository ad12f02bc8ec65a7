//! Law of the moves that games offer, over every match of each of the games. There is nothing to run.

ghost use Rattle.std.specs.Prelude.{◌≡◌, ◌<◌, ℕ, List, Some};
ghost use Rattle.any_game.specs.AnyRules.{any_rules};
ghost use Rattle.any_game.specs.GameKind.{GameKind};
ghost use Rattle.any_game.specs.declared.any_g.AnyG.{AnyG as AnyState};
ghost use Rattle.game_sheet.specs.declared.ids.TheConstants.{MOST_ACTIONS};
ghost use Rattle.offered_moves.specs.OfferedLaw.{HasCards, OffersAreAllowed, OffersAreSeen};
ghost use Rattle.offered_moves.specs.Submitting.{OffersAreAccepted, OffersAreReplied};
ghost use Rattle.room_history.specs.Match.{Match, number_of};
ghost use Rattle.room_history.specs.Piece.{Open};
ghost use Rattle.room_history.specs.Room.{latest_session, standing};
ghost use Rattle.room_history.specs.Session.{Session, session_state};
ghost use Rattle.room_history.specs.declared.call.RoomCall.{RoomCall as Asks};
ghost use Rattle.room_object.specs.Entry.{Entry};

/// Let a match have begun as its game begins, and have accepted fewer than 4,096 actions, each of which broke no public rule of the
/// match as it then stood. Each move that a seat of the match is offered breaks no rule where it stands: the match goes on, the seat
/// may act and has the move, and the game makes it, with the words and the tasks of one action.
///
/// A High Hand of a deck in a fixed order needs eight cards in it, one for each draw of four seats.
pub fn offered_moves_are_allowed()
    ensures { (kind : GameKind) → OffersAreAllowed kind }
{}

/// A seat is offered the same on what it sees of a state, such as a client has it, as on the state.
pub fn seats_see_what_they_are_offered()
    ensures { (kind : GameKind) → OffersAreSeen kind }
{}

/// Along every history of a room, whatever its calls: each move that a seat is offered in the match that stands is accepted, where
/// the match has accepted fewer than 4,096 actions, and the player of the seat submits the move at the match's own number. So a
/// session of the seat that goes on is replied, unless memory runs out.
pub fn offered_moves_are_accepted()
    ensures accepted { (room : ℕ) (h : List (Entry (Asks GameKind))) (m : Match GameKind AnyState) → standing any_rules room h ≡ Some m
        → HasCards m.game → number_of m < MOST_ACTIONS → (seat : ℕ) → seat < m.seats → OffersAreAccepted room m seat }
    ensures replied { (room : ℕ) (h : List (Entry (Asks GameKind))) (m : Match GameKind AnyState) → standing any_rules room h ≡ Some m
        → HasCards m.game → number_of m < MOST_ACTIONS
        → (pass : ℕ) (s : Session) → latest_session any_rules room h pass ≡ Some s → session_state s ≡ Open
        → (seat : ℕ) (key : List ℕ) → s.viewer ≡ Some (seat, key) → seat < m.seats → OffersAreReplied room h m pass seat key }
{}
