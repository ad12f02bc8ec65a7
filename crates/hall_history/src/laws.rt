//! Laws of a server's hall, over every run of lines and every mark. There is nothing to run.

ghost use Rattle.std.specs.Prelude.{◌≡◌, ◌<◌, ℕ, false, List, Option, Some, None, [], length, Result, Ok, replicate};
ghost use Rattle.std.specs.List.{concat};
ghost use Rattle.game_hall.specs.Core.{Core, moved};
ghost use Rattle.game_hall.specs.Requests.{created_by, is_busy};
ghost use Rattle.game_hall.specs.Words.{seed_of};
ghost use Rattle.game_hall.specs.declared.answer.Answer.{Answer};
ghost use Rattle.game_hall.specs.declared.answer.Answer.TheVariants.{Again, Matches, Refused};
ghost use Rattle.game_hall.specs.declared.next.Next.{Next};
ghost use Rattle.room_history.specs.Alike.{AreAlike};
ghost use Rattle.room_history.specs.Others.{KeepsAll};
ghost use Rattle.room_history.specs.Room.{room_of, session};
ghost use Rattle.room_history.specs.Session.{Session};
ghost use Rattle.room_history.specs.declared.call.RoomCall.{RoomCall as Asks};
ghost use Rattle.room_history.specs.declared.call.RoomCall.TheVariants as ask;
ghost use Rattle.room_history.specs.declared.reply.RoomReply.TheVariants.{Busy};
ghost use Rattle.room_object.specs.Entry.{Entry, entry};
ghost use Rattle.wire_json.specs.Refusals.{Refusal as Fault};
ghost use Rattle.wire_json.specs.declared.client.ClientMsg.{ClientMsg as Line};
ghost use Rattle.wire_json.specs.declared.client.ClientMsg.TheVariants as line_of;
ghost use Rattle.wire_json.specs.declared.refusal.Refusal.TheVariants.{Full};
ghost use Rattle.wire_json.specs.declared.submission.Submission.{Submission as Asked};
ghost use Rattle.hall_history.specs.Adding.{Adds, IsAsking, IsPlain};
ghost use Rattle.hall_history.specs.Creating.{ChangesOne, create_answer, create_done, create_entry, create_reply};
ghost use Rattle.hall_history.specs.Freeing.{frees};
ghost use Rattle.hall_history.specs.Hall.{Hall, after_line, begun, core_of, new_hall, request};
ghost use Rattle.hall_history.specs.Listing.{list_done, standing_rows};
ghost use Rattle.hall_history.specs.Mark.{Mark, Served};
ghost use Rattle.hall_history.specs.Opening.{after_open, own_pass};
ghost use Rattle.hall_history.specs.Placed.{IsPlaced};
ghost use Rattle.hall_history.specs.Rooms.{history_of, reply_in};
ghost use Rattle.hall_history.specs.Script.{Step, script_hall};
ghost use Rattle.hall_history.specs.Told.{handed_out};

use game_trait::Game;

/// However a session's line goes, its request is closed after at most one call more than there are rooms, and its core is the one
/// before it, moved once.
pub fn requests_end<X: Game>(game: &X)
    ensures closed { (named : List ℕ → Option X) (tape : ℕ → List ℕ) (mark : Mark) (h : Hall X) (pass : ℕ) (read : Result Line Fault)
        → (request named X.rules tape mark h pass read).0.request ≡ None }
    ensures moved { (named : List ℕ → Option X) (tape : ℕ → List ℕ) (mark : Mark) (h : Hall X) (pass : ℕ) (read : Result Line Fault)
        → (next : Next X) × ((request named X.rules tape mark h pass read).0 ≡ moved (core_of h pass) next) }
{
    let _game = game;
}

/// An act goes to the room that its session is attached to, whatever match it names.
pub fn acts_go_to_the_attached_room<X: Game>(game: &X)
    ensures { (named : List ℕ → Option X) (tape : ℕ → List ℕ) (h : Hall X) (pass room : ℕ) (s : Asked) → h.at pass ≡ Some room
        → (begun named tape h pass (Ok (line_of.Act s))).call ≡ Some (room, ask.Submit s) }
{
    let _game = game;
}

/// A create of a game that there is, with memory, is refused as full exactly where every room answers that it is busy.
pub fn creates_are_full_where_rooms_are_busy<X: Game>(game: &X)
    ensures only { (named : List ℕ → Option X) (tape : ℕ → List ℕ) (h : Hall X) (pass : ℕ) (name : List ℕ) (x : X) (seats : ℕ)
        → named name ≡ Some x → create_answer named X.rules tape h pass name seats ≡ Some (Refused Full)
        → (room : ℕ) → room < length h.rooms → create_reply X.rules tape h pass x seats room ≡ Busy }
    ensures where_busy { (named : List ℕ → Option X) (tape : ℕ → List ℕ) (h : Hall X) (pass : ℕ) (name : List ℕ) (x : X) (seats : ℕ)
        → named name ≡ Some x → ((room : ℕ) → room < length h.rooms → create_reply X.rules tape h pass x seats room ≡ Busy)
        → create_answer named X.rules tape h pass name seats ≡ Some (Refused Full) }
{
    let _game = game;
}

/// A create of a game that there is, with memory, is made in the least room that isn't busy: that room answers it, and no other
/// changes.
pub fn creates_go_to_the_least_room_that_isnt_busy<X: Game>(game: &X)
    ensures answer { (named : List ℕ → Option X) (tape : ℕ → List ℕ) (h : Hall X) (pass : ℕ) (name : List ℕ) (x : X) (seats : ℕ)
        → named name ≡ Some x → (room : ℕ) → room < length h.rooms
        → ((lower : ℕ) → lower < room → create_reply X.rules tape h pass x seats lower ≡ Busy)
        → is_busy (create_reply X.rules tape h pass x seats room) ≡ false
        → create_answer named X.rules tape h pass name seats ≡ Some (created_by room (create_reply X.rules tape h pass x seats room)) }
    ensures rooms { (named : List ℕ → Option X) (tape : ℕ → List ℕ) (h : Hall X) (pass : ℕ) (name : List ℕ) (x : X) (seats : ℕ)
        → named name ≡ Some x → (room : ℕ) → room < length h.rooms
        → ((lower : ℕ) → lower < room → create_reply X.rules tape h pass x seats lower ≡ Busy)
        → is_busy (create_reply X.rules tape h pass x seats room) ≡ false
        → ChangesOne X.rules room (create_entry tape h pass x seats) h.rooms (create_done named X.rules tape h pass name seats).1.rooms }
{
    let _game = game;
}

/// A list of a game that there is, with memory, has the rows of its matches that stand in the rooms at that moment, in the order of
/// the rooms, and changes no room.
pub fn lists_have_the_rows_of_the_standing_matches<X: Game>(game: &X)
    ensures answer { (named : List ℕ → Option X) (tape : ℕ → List ℕ) (h : Hall X) (pass : ℕ) (name : List ℕ) (x : X) → named name ≡ Some x
        → (list_done named X.rules tape h pass name).0.said ≡ Some (Matches (standing_rows X.rules name h.rooms 0 (length h.rooms))) }
    ensures rooms { (named : List ℕ → Option X) (tape : ℕ → List ℕ) (h : Hall X) (pass : ℕ) (name : List ℕ) (x : X) → named name ≡ Some x
        → (room : ℕ) → KeepsAll (room_of X.rules room (history_of h.rooms room)) (room_of X.rules room (history_of (list_done named X.rules tape h pass name).1.rooms room)) }
{
    let _game = game;
}

/// A line with a direct answer leaves each session attached where it was. One that is answered `again` has changed no room, however
/// many calls it made, and its words and the seed are given back.
pub fn want_of_memory_takes_nothing<X: Game>(game: &X)
    ensures attached { (named : List ℕ → Option X) (tape : ℕ → List ℕ) (mark : Mark) (h : Hall X) (pass : ℕ) (line : List ℕ) (a : Answer)
        → (after_line named X.rules tape mark h pass line).1 ≡ Some a
        → (q : ℕ) → (after_line named X.rules tape mark h pass line).0.at q ≡ h.at q }
    ensures words { (named : List ℕ → Option X) (tape : ℕ → List ℕ) (mark : Mark) (h : Hall X) (pass : ℕ) (line : List ℕ) (ticket : Option ℕ)
        → (after_line named X.rules tape mark h pass line).1 ≡ Some (Again ticket)
        → (after_line named X.rules tape mark h pass line).0.place ≡ h.place }
    ensures seed { (named : List ℕ → Option X) (tape : ℕ → List ℕ) (mark : Mark) (h : Hall X) (pass : ℕ) (line : List ℕ) (ticket : Option ℕ)
        → (after_line named X.rules tape mark h pass line).1 ≡ Some (Again ticket)
        → (after_line named X.rules tape mark h pass line).0.seed ≡ h.seed }
    ensures rooms { (named : List ℕ → Option X) (tape : ℕ → List ℕ) (mark : Mark) (h : Hall X) (pass : ℕ) (line : List ℕ) (ticket : Option ℕ)
        → (after_line named X.rules tape mark h pass line).1 ≡ Some (Again ticket)
        → (room : ℕ) → KeepsAll (room_of X.rules room (history_of h.rooms room)) (room_of X.rules room (history_of (after_line named X.rules tape mark h pass line).0.rooms room)) }
{
    let _game = game;
}

/// A line adds calls of its own session to the rooms' histories, none a Take, a Detach or a Clear, and an open calls of pass 32
/// that attach and free nobody.
pub fn lines_add_their_own_calls<X: Game>(game: &X)
    ensures line { (named : List ℕ → Option X) (tape : ℕ → List ℕ) (mark : Mark) (h : Hall X) (pass : ℕ) (line : List ℕ)
        → Adds IsAsking pass h.rooms (after_line named X.rules tape mark h pass line).0.rooms }
    ensures open { (named : List ℕ → Option X) (tape : ℕ → List ℕ) (h : Hall X) (name : List ℕ) (seats : ℕ)
        → Adds IsPlain own_pass h.rooms (after_open named X.rules tape h name seats).0.rooms }
{
    let _game = game;
}

/// The hall and the rooms' histories agree on who is attached where, however the lines go: each pass in one room at most.
pub fn halls_agree_with_their_rooms<X: Game>(game: &X)
    ensures empty { (rooms : ℕ) → IsPlaced X.rules (new_hall rooms) }
    ensures line { (named : List ℕ → Option X) (tape : ℕ → List ℕ) (mark : Mark) (h : Hall X) (pass : ℕ) (line : List ℕ)
        → IsPlaced X.rules h → IsPlaced X.rules (after_line named X.rules tape mark h pass line).0 }
    ensures call { (h : Hall X) (pass : ℕ) (made : Asks X) → IsPlaced X.rules h → IsPlaced X.rules (frees X.rules h pass made).0 }
    ensures open { (named : List ℕ → Option X) (tape : ℕ → List ℕ) (h : Hall X) (name : List ℕ) (seats : ℕ)
        → IsPlaced X.rules h → IsPlaced X.rules (after_open named X.rules tape h name seats).0 }
{
    let _game = game;
}

/// Along a script, what Takes print for a session is what it was sent.
pub fn scripts_print_what_is_sent<X: Game>(game: &X)
    ensures { (named : List ℕ → Option X) (tape : ℕ → List ℕ) (rooms : ℕ) (marks : List Mark) (steps : List Step)
        → (pass room j : ℕ) (s : Session)
        → session X.rules room (history_of (script_hall named X.rules tape rooms marks steps).rooms room) pass j ≡ Some s
        → concat s.sent ≡ handed_out named X.rules tape pass room j marks steps (new_hall rooms) }
{
    let _game = game;
}

/// So a script prints for a session what any session alike is sent, whatever else their rooms hold.
pub fn scripts_print_alike_sessions_the_same<X: Game, Y: Game>(game: &X, other: &Y)
    ensures { (named : List ℕ → Option X) (tape : ℕ → List ℕ) (rooms : ℕ) (marks : List Mark) (steps : List Step)
        → (pass room j : ℕ) (s : Session)
        → session X.rules room (history_of (script_hall named X.rules tape rooms marks steps).rooms room) pass j ≡ Some s
        → (other_room : ℕ) (k : List (Entry (Asks Y))) (other_pass i : ℕ) (t : Session)
        → session Y.rules other_room k other_pass i ≡ Some t → AreAlike s t
        → handed_out named X.rules tape pass room j marks steps (new_hall rooms) ≡ concat t.sent }
{
    let _game = game;
    let _other = other;
}
