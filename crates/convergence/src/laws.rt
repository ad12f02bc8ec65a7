//! Laws of what clients come to, over every history of a room and every session of it. There is nothing to run.

ghost use Rattle.std.specs.Prelude.{◌≡◌, ◌≤◌, ◌++◌, ◌∷◌, [], ℕ, true, false, List, Option, None, Some};
ghost use Rattle.any_game.specs.AnyRules.{any_rules};
ghost use Rattle.any_game.specs.GameKind.{GameKind};
ghost use Rattle.client_predict.specs.Acting.{with_act};
ghost use Rattle.client_predict.specs.Client.{Client, Playing, fresh, settled_in};
ghost use Rattle.client_predict.specs.Reading.{begun};
ghost use Rattle.game_sheet.specs.Viewer.{seat_of};
ghost use Rattle.game_sheet.specs.declared.act.Bye.{Bye as Why};
ghost use Rattle.player_sight.specs.declared.shown.Snapshot.{Snapshot as Shown};
ghost use Rattle.reducer.specs.Accepted.{Accepted};
ghost use Rattle.room_history.specs.Course.{IsFirstPart};
ghost use Rattle.room_history.specs.Match.{Match};
ghost use Rattle.wire_json.specs.declared.server.ServerMsg.TheVariants.{Bye as Farewell};
ghost use Rattle.room_history.specs.Piece.{Open};
ghost use Rattle.room_history.specs.Room.{latest_session, match_of, session, standing};
ghost use Rattle.room_history.specs.Session.{Session, handful, session_state, stream_of};
ghost use Rattle.room_history.specs.declared.call.RoomCall.{RoomCall as Asks};
ghost use Rattle.room_object.specs.Entry.{Entry};
ghost use Rattle.wire_json.specs.declared.asked.Asked.{Asked as Asking};
ghost use Rattle.convergence.specs.Calls.{CallsFit};
ghost use Rattle.convergence.specs.Doing.{AnswersAll, Doing, IsLike, does_all, lines_in};
ghost use Rattle.client_predict.specs.Following.{followed, has_bye, has_sync, reads_all, told_lines};
ghost use Rattle.convergence.specs.Grounded.{CanBeRead, IsGrounded};
ghost use Rattle.convergence.specs.Lines.{AllLines, IsShallow, ReadsBack};
ghost use Rattle.convergence.specs.Seeing.{SeesAt};
ghost use Rattle.convergence.specs.Shallow.{StatesAreShallow};
ghost use Rattle.room_history.specs.Shown.{view_at};

use any_game::AnyGame;
use game_trait::Game;
use reducer::matches_stay_sound;

/// Every match of a room, whether it stands or was removed, has a name that is read back, began as its game begins, and accepted
/// what its game has. What a viewer sees of it at any number can be read, and is what is read of its value.
pub fn matches_can_be_shown<X: Game>()
    ensures grounded { (room : ℕ) (h : List (Entry (Asks X))) → room ≤ 63 → CallsFit h
        → (serial : ℕ) (m : Match X X.G) → match_of X.rules room h serial ≡ Some m → IsGrounded X.rules room m }
    ensures read { (room : ℕ) (m : Match X X.G) → IsGrounded X.rules room m
        → (later earlier : List Accepted) → m.accepted ≡ later ++ earlier
        → (seat : Option ℕ) → CanBeRead (X.rules m.game) (view_at (X.rules m.game) m.first seat earlier) }
{
    matches_stay_sound::<X>();
}

/// Each line of a session's stream that is nested at most 127 deep is read as its message, and so is each bye line.
pub fn lines_read_back<X: Game>()
    ensures stream { (room : ℕ) (h : List (Entry (Asks X))) → room ≤ 63 → CallsFit h
        → (pass j : ℕ) (s : Session) → session X.rules room h pass j ≡ Some s → AllLines IsShallow (stream_of s) → AllLines ReadsBack (stream_of s) }
    ensures bye { (why : Why) → ReadsBack (Farewell why) }
{
    matches_stay_sound::<X>();
}

/// Where every own state is nested at most 125 deep, every line of a session's stream is nested at most 127 deep.
pub fn lines_are_shallow_where_states_are<X: Game>()
    ensures { StatesAreShallow X.rules → (room : ℕ) (h : List (Entry (Asks X))) → room ≤ 63 → CallsFit h
        → (pass j : ℕ) (s : Session) → session X.rules room h pass j ≡ Some s → AllLines IsShallow (stream_of s) }
{
    matches_stay_sound::<X>();
}

/// That is so of all the games.
pub fn lines_of_all_games_are_shallow()
    ensures states { StatesAreShallow any_rules }
    ensures lines { (room : ℕ) (h : List (Entry (Asks GameKind))) → room ≤ 63 → CallsFit h
        → (pass j : ℕ) (s : Session) → session any_rules room h pass j ≡ Some s → AllLines IsShallow (stream_of s) }
{
    lines_are_shallow_where_states_are::<AnyGame>();
}

/// What the first lines tell is told first.
pub fn first_parts_tell_first_parts()
    ensures { (part whole : List (List ℕ)) → IsFirstPart part whole → IsFirstPart (told_lines part) (told_lines whole) }
{}

/// Let a client of a session's game make no act and read lines in order, passing over verdicts and direct answers, of which those
/// that it doesn't pass over are the first of what the session was sent.
///
/// Once it has read the sync line, it sees the session's match as the session's viewer sees it at some number, and waits for
/// nothing. Where it has read all, and nothing more waits for the session, it sees the match as it stands. Only a bye line makes it
/// gone.
pub fn clients_see_what_their_viewers_see<X: Game>()
    ensures settled { (room : ℕ) (h : List (Entry (Asks X))) → room ≤ 63 → CallsFit h
        → (pass j : ℕ) (s : Session) → session X.rules room h pass j ≡ Some s → AllLines IsShallow (stream_of s)
        → (m : Match X X.G) → match_of X.rules room h s.name.serial ≡ Some m
        → (read : List (List ℕ)) → IsFirstPart (told_lines read) (told_lines s.sent) → has_sync read ≡ true
        → SeesAt X.rules m s (followed (X.rules m.game) read) }
    ensures present { (room : ℕ) (h : List (Entry (Asks X))) → room ≤ 63 → CallsFit h
        → (pass : ℕ) (s : Session) → latest_session X.rules room h pass ≡ Some s → AllLines IsShallow (stream_of s)
        → session_state s ≡ Open → handful s ≡ []
        → (m : Match X X.G) → standing X.rules room h ≡ Some m
        → (read : List (List ℕ)) → told_lines read ≡ told_lines s.sent
        → followed (X.rules m.game) read
        ≡ record { gone = false; playing = Some (begun s.name (seat_of s.viewer) (view_at (X.rules m.game) m.first (seat_of s.viewer) m.accepted)) } }
    ensures gone { (room : ℕ) (h : List (Entry (Asks X))) → room ≤ 63 → CallsFit h
        → (pass j : ℕ) (s : Session) → session X.rules room h pass j ≡ Some s → AllLines IsShallow (stream_of s)
        → (m : Match X X.G) → match_of X.rules room h s.name.serial ≡ Some m
        → (read : List (List ℕ)) → IsFirstPart (told_lines read) (told_lines s.sent) → has_bye read ≡ false
        → (followed (X.rules m.game) read).gone ≡ false }
{
    matches_stay_sound::<X>();
}

/// Acts settle nothing, and neither do verdicts and direct answers: a client that acts in between is gone, and sees a match, as one
/// that makes no act and passes verdicts and direct answers over, where each line that answers an act answers one that waits.
pub fn acts_settle_nothing<X: Game>()
    ensures follows { (any : X) (doings : List Doing) → AnswersAll (X.rules any) fresh doings
        → IsLike (does_all (X.rules any) fresh doings) (followed (X.rules any) (lines_in doings)) }
    ensures on { (any : X) (c d : Client X.G) (doings : List Doing) → AnswersAll (X.rules any) c doings → IsLike c d
        → IsLike (does_all (X.rules any) c doings) (reads_all (X.rules any) d (told_lines (lines_in doings))) }
    ensures settled { (c d : Client X.G) → IsLike c d → settled_in c ≡ settled_in d }
    ensures act { (any : X) (p : Playing X.G) (asked : Asking) → (with_act (X.rules any) p asked).settled ≡ p.settled }
{}
