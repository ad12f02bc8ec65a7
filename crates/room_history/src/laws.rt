//! Laws of rooms, over every history. There is nothing to run.

ghost use Rattle.std.specs.Prelude.{◌≡◌, ◌≢◌, ◌==◌, ◌∷◌, ℕ, Bool, true, false, if◌then◌else◌, List, None, Some};
ghost use Rattle.room_object.specs.Entry.{Entry, entry};
ghost use Rattle.wire_json.specs.declared.reason.Reason.{Reason};
ghost use Rattle.wire_json.specs.declared.verdict.Verdict.TheVariants as verdict;
ghost use Rattle.room_history.specs.Alike.{AreAlike, AreAlikeButForTakes, AreToldAlike, OwnCall, own_call};
ghost use Rattle.room_history.specs.Course.{GoesOn};
ghost use Rattle.room_history.specs.Held.{attachment_after, reply_held};
ghost use Rattle.room_history.specs.Judgment.{SeesPresent, IsJudged};
ghost use Rattle.room_history.specs.Match.{Match};
ghost use Rattle.room_history.specs.News.{TellsSight};
ghost use Rattle.room_history.specs.Others.{KeepsAll, KeepsOthers, TellsRefusal};
ghost use Rattle.room_history.specs.Outbox.{attachment_of};
ghost use Rattle.room_history.specs.Piece.{state_of};
ghost use Rattle.room_history.specs.Presence.{attached_after, is_attached};
ghost use Rattle.room_history.specs.Removal.{ClearsMatch, ClearsNothing, IsOfSeat};
ghost use Rattle.room_history.specs.Room.{latest_session, reply, room_of, serials, session, standing};
ghost use Rattle.room_history.specs.Sent.{IsToldOf, SendsReply};
ghost use Rattle.room_history.specs.Session.{Session, is_looking, stream_of};
ghost use Rattle.room_history.specs.Sight.{SeesMatch};
ghost use Rattle.room_history.specs.declared.call.RoomCall.{RoomCall as Asks};
ghost use Rattle.room_history.specs.declared.call.RoomCall.TheVariants as ask;
ghost use Rattle.room_history.specs.declared.reply.RoomReply.TheVariants as answer;
ghost use Rattle.wire_json.specs.declared.submission.Submission.{Submission as Asked};

use game_trait::Game;

/// By each entry a session goes on as the one that it was: its stream and what it was sent grow at their ends alone, and a stream
/// that has ended grows no more.
pub fn sessions_go_on<X: Game>(game: &X)
    ensures { (room : ℕ) (h : List (Entry (Asks X))) (e : Entry (Asks X)) (pass j : ℕ) (s : Session) → session X.rules room h pass j ≡ Some s
        → (t : Session) × (session X.rules room (e ∷ h) pass j ≡ Some t) × GoesOn s t }
{
    let _game = game;
}

/// A session was sent a first part of its stream, and the rest waits. Entry by entry, it was sent what its Takes were replied and
/// nothing else.
pub fn sessions_are_told_their_streams<X: Game>(game: &X)
    ensures told { (room : ℕ) (h : List (Entry (Asks X))) (pass j : ℕ) (s : Session) → session X.rules room h pass j ≡ Some s → IsToldOf s }
    ensures sent { (room : ℕ) (h : List (Entry (Asks X))) (e : Entry (Asks X)) (pass j : ℕ) (t : Session) → session X.rules room (e ∷ h) pass j ≡ Some t
        → SendsReply X.rules room h e pass j (session X.rules room h pass j) t }
{
    let _game = game;
}

/// Alike sessions were sent the same lines, whatever else their rooms hold: other games of an equal sheet, other seeds, other
/// seats' keys and hidden cards.
pub fn alike_sessions_are_sent_the_same<X: Game, Y: Game>(game: &X, other: &Y)
    ensures { (room : ℕ) (h : List (Entry (Asks X))) (pass j : ℕ) (s : Session) → session X.rules room h pass j ≡ Some s
        → (other_room : ℕ) (k : List (Entry (Asks Y))) (other_pass i : ℕ) (t : Session) → session Y.rules other_room k other_pass i ≡ Some t → AreAlike s t → s.sent ≡ t.sent }
{
    let _game = game;
    let _other = other;
}

/// Sessions that are alike before a call of their own and have done the same after it are replied the same.
pub fn alike_sessions_are_replied_the_same<X: Game, Y: Game>(game: &X, other: &Y)
    ensures { (room : ℕ) (h : List (Entry (Asks X))) (pass : ℕ) (s : Session) → latest_session X.rules room h pass ≡ Some s
        → (other_room : ℕ) (k : List (Entry (Asks Y))) (other_pass : ℕ) (t : Session) → latest_session Y.rules other_room k other_pass ≡ Some t → AreAlike s t
        → (call : OwnCall) (starved : Bool)
        → (after : Session) → latest_session X.rules room (entry pass (own_call call) starved ∷ h) pass ≡ Some after
        → (other_after : Session) → latest_session Y.rules other_room (entry other_pass (own_call call) starved ∷ k) other_pass ≡ Some other_after → after.own ≡ other_after.own
        → reply X.rules room h (entry pass (own_call call) starved) ≡ reply Y.rules other_room k (entry other_pass (own_call call) starved) }
{
    let _game = game;
    let _other = other;
}

/// Of sessions that are alike but for Takes, one was told a first part of what the other was told.
pub fn sessions_alike_but_for_takes_are_told_alike<X: Game, Y: Game>(game: &X, other: &Y)
    ensures { (room : ℕ) (h : List (Entry (Asks X))) (pass j : ℕ) (s : Session) → session X.rules room h pass j ≡ Some s
        → (other_room : ℕ) (k : List (Entry (Asks Y))) (other_pass i : ℕ) (t : Session) → session Y.rules other_room k other_pass i ≡ Some t → AreAlikeButForTakes s t → AreToldAlike s t }
{
    let _game = game;
    let _other = other;
}

/// A session that looks sees the match that stands as it is. So its submission is judged by what it sees, its key, the line and
/// the game's answer alone.
pub fn submissions_are_judged_by_what_is_seen<X: Game>(game: &X)
    ensures seen { (room : ℕ) (h : List (Entry (Asks X))) (pass : ℕ) (s : Session) → latest_session X.rules room h pass ≡ Some s → is_looking s.own ≡ true → SeesPresent X.rules room h s }
    ensures judged { (room : ℕ) (h : List (Entry (Asks X))) (pass : ℕ) (s : Session) → latest_session X.rules room h pass ≡ Some s → IsJudged X.rules room h pass s }
{
    let _game = game;
}

/// A Take, a Detach and a refused submission leave the matches and every other pass as they were, and want of memory leaves all
/// that is told. A refused submission is told to its own session alone.
pub fn calls_leave_others<X: Game>(game: &X)
    ensures taken { (room : ℕ) (h : List (Entry (Asks X))) (pass : ℕ) → KeepsOthers pass (room_of X.rules room h) (room_of X.rules room (entry pass ask.Take false ∷ h)) }
    ensures detached { (room : ℕ) (h : List (Entry (Asks X))) (pass : ℕ) → KeepsOthers pass (room_of X.rules room h) (room_of X.rules room (entry pass ask.Detach false ∷ h)) }
    ensures refused { (room : ℕ) (h : List (Entry (Asks X))) (pass : ℕ) (s : Asked) (number : ℕ) (reason : Reason)
        → reply X.rules room h (entry pass (ask.Submit s) false) ≡ answer.Verdict (verdict.No number reason) → TellsRefusal X.rules room h pass s number reason }
    ensures starved { (room : ℕ) (h : List (Entry (Asks X))) (pass : ℕ) (call : Asks X) → KeepsAll (room_of X.rules room h) (room_of X.rules room (entry pass call true ∷ h)) }
{
    let _game = game;
}

/// What a call makes of each pass's attachment, and its reply, are found from what is held: how many matches were made, the match
/// that stands, and the attachments.
pub fn rooms_go_by_what_is_held<X: Game>(game: &X)
    ensures attached { (room : ℕ) (h : List (Entry (Asks X))) (pass q : ℕ) (call : Asks X) → attachment_of ((room_of X.rules room (entry pass call false ∷ h)).sessions q)
        ≡ attachment_after X.rules room (standing X.rules room h) (attachment_of ((room_of X.rules room h).sessions pass)) (pass == q) (attachment_of ((room_of X.rules room h).sessions q)) call }
    ensures replied { (room : ℕ) (h : List (Entry (Asks X))) (pass : ℕ) (call : Asks X) → reply X.rules room h (entry pass call false)
        ≡ reply_held X.rules room (serials X.rules room h) (standing X.rules room h) (attachment_of ((room_of X.rules room h).sessions pass)) call }
{
    let _game = game;
}

/// Whether a pass is attached follows from its own calls and their replies.
pub fn attachments_follow_from_replies<X: Game>(game: &X)
    ensures heard { (room : ℕ) (h : List (Entry (Asks X))) (pass q : ℕ) (call : Asks X) → is_attached X.rules room (entry pass call false ∷ h) q
        ≡ (if pass == q then attached_after (is_attached X.rules room h q) call (reply X.rules room h (entry pass call false)) else is_attached X.rules room h q) }
    ensures starved { (room : ℕ) (h : List (Entry (Asks X))) (pass q : ℕ) (call : Asks X) → is_attached X.rules room (entry pass call true ∷ h) q ≡ is_attached X.rules room h q }
{
    let _game = game;
}

/// A Clear of the match that stands removes it, and ends every session that is attached with `left`, but for one that had ended.
/// Any other Clear is refused and changes nothing.
pub fn clears_remove_the_match<X: Game>(game: &X)
    ensures cleared { (room : ℕ) (h : List (Entry (Asks X))) (pass : ℕ) (m : Match X X.G) → standing X.rules room h ≡ Some m → ClearsMatch X.rules room h pass m.serial }
    ensures refused { (room : ℕ) (h : List (Entry (Asks X))) (pass serial : ℕ) → reply X.rules room h (entry pass (ask.Clear serial) false) ≢ answer.Cleared → ClearsNothing X.rules room h pass serial }
{
    let _game = game;
}

/// When a match is removed with its last player, only spectators look at it, and sessions of the seat whose leaving removed it.
pub fn matches_are_removed_with_their_last_player<X: Game>(game: &X)
    ensures { (room : ℕ) (h : List (Entry (Asks X))) (pass serial seat : ℕ) (key : List ℕ) (m : Match X X.G) → standing X.rules room h ≡ Some m
        → standing X.rules room (entry pass (ask.Leave serial seat key) false ∷ h) ≡ None
        → (q : ℕ) (s : Session) → latest_session X.rules room h q ≡ Some s → is_looking s.own ≡ true → IsOfSeat seat s.viewer }
{
    let _game = game;
}

/// What a session was shown is what its match came to, number by number, also once the match is removed; and its stream tells
/// just that, verdicts aside.
pub fn sessions_see_their_match<X: Game>(game: &X)
    ensures seen { (room : ℕ) (h : List (Entry (Asks X))) (pass j : ℕ) (s : Session) → session X.rules room h pass j ≡ Some s → SeesMatch X.rules room h s }
    ensures told { (s : Session) → TellsSight (state_of (stream_of s)) s }
{
    let _game = game;
}
