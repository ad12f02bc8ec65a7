//! Laws of requests, whatever rooms reply. There is nothing to run.

ghost use Rattle.std.specs.Prelude.{◌≡◌, ◌+◌, ◌++◌, ℕ, Bool, List, Option, Some, None, Result, Ok, [], length, replicate, take};
ghost use Rattle.game_sheet.specs.MatchName.{Name};
ghost use Rattle.wire_json.specs.Refusals.{Refusal as Fault};
ghost use Rattle.wire_json.specs.declared.client.ClientMsg.{ClientMsg as Message};
ghost use Rattle.wire_json.specs.declared.client.ClientMsg.TheVariants as line;
ghost use Rattle.wire_json.specs.declared.refusal.Refusal.TheVariants.{Full, NotABot};
ghost use Rattle.wire_json.specs.declared.submission.Submission.{Submission as Action};
ghost use Rattle.any_game.specs.GameKind.{GameKind};
ghost use Rattle.any_game.specs.AnyRules.{named};
ghost use Rattle.room_history.specs.declared.call.RoomCall.TheVariants as call;
ghost use Rattle.room_history.specs.declared.reply.RoomReply.{RoomReply as Told};
ghost use Rattle.room_history.specs.declared.reply.RoomReply.TheVariants as reply;
ghost use Rattle.game_hall.specs.Bench.{bench_answer};
ghost use Rattle.game_hall.specs.Core.{Core, bot_answered, bot_wanted, heard, moved};
ghost use Rattle.game_hall.specs.Requests.{lists, refuses, tries};
ghost use Rattle.game_hall.specs.Run.{AreServed, reply_next, rows_from, run};
ghost use Rattle.game_hall.specs.declared.answer.Answer.{Answer as Said};
ghost use Rattle.game_hall.specs.declared.answer.Answer.TheVariants as answer;
ghost use Rattle.game_hall.specs.declared.bench.Bench.TheVariants.{Absent, Idle};
ghost use Rattle.game_hall.specs.declared.next.Next.TheVariants.{Says};

/// An act goes to the attached room, whatever match it names.
pub fn acts_go_to_the_attached_room()
    ensures { (c : Core GameKind) (room : ℕ) (action : Action) (words : List ℕ) (seed : Option (List ℕ))
        → c.at ≡ Some room
        → (heard named c (Ok (line.Act action)) words seed).call ≡ Some (room, call.Submit action) }
{}

/// No request makes more calls than there are rooms, and one more; then it is closed.
pub fn requests_end()
    ensures { (c : Core GameKind) (read : Result Message Fault) (words : List ℕ) (seed : Option (List ℕ)) (replies : List Told)
        → (run named reply_next (c.rooms + 1) (heard named c read words seed) replies).0.request ≡ None }
{}

/// A request that is answered, be it by `again`, has left the core as it was but for the answer.
pub fn answers_change_nothing_else()
    ensures { (c : Core GameKind) (read : Result Message Fault) (words : List ℕ) (seed : Option (List ℕ)) (n : ℕ) (replies : List Told) (a : Said)
        → c.said ≡ None
        → (run named reply_next n (heard named c read words seed) replies).0.said ≡ Some a
        → (run named reply_next n (heard named c read words seed) replies).0 ≡ moved c (Says a) }
{}

/// A takeover makes no call of a room. Without a bench it is refused; with one its answer is what the bench says of the seat.
pub fn takeovers_ask_the_bench()
    ensures no_call { (c : Core GameKind) (name : Name) (seat : ℕ) (words : List ℕ) (seed : Option (List ℕ))
        → (heard named c (Ok (line.Takeover name seat)) words seed).call ≡ None }
    ensures absent { (c : Core GameKind) (name : Name) (seat : ℕ) (words : List ℕ) (seed : Option (List ℕ))
        → c.bench ≡ Absent → heard named c (Ok (line.Takeover name seat)) words seed ≡ moved c (refuses NotABot) }
    ensures asked { (c : Core GameKind) (name : Name) (seat : ℕ) (words : List ℕ) (seed : Option (List ℕ)) (held : Bool)
        → c.bench ≡ Idle
        → bot_answered (bot_wanted (heard named c (Ok (line.Takeover name seat)) words seed)) held ≡ moved c (Says (bench_answer held (name, seat))) }
{}

/// A create of a game that there is is refused as full exactly where every room is busy.
pub fn creates_are_full_where_rooms_are_busy()
    ensures full { (c : Core GameKind) (game : List ℕ) (kind : GameKind) (seats : ℕ) (seed : List ℕ) (rest : List Told)
        → named game ≡ Some kind
        → (run named reply_next c.rooms (moved c (tries named c.rooms game seats seed 0)) (replicate c.rooms reply.Busy ++ rest)).0
        ≡ moved c (refuses Full) }
    ensures only { (c : Core GameKind) (game : List ℕ) (kind : GameKind) (seats : ℕ) (seed : List ℕ) (replies : List Told)
        → named game ≡ Some kind
        → (run named reply_next c.rooms (moved c (tries named c.rooms game seats seed 0)) replies).0.said ≡ Some (answer.Refused Full)
        → take c.rooms replies ≡ replicate c.rooms reply.Busy }
{}

/// A list has the rows of its game that the rooms show, in the order of the rooms, each once.
pub fn lists_have_a_row_for_each_room()
    ensures { (c : Core GameKind) (game : List ℕ) (replies : List Told) → length replies ≡ c.rooms → AreServed replies
        → (run named reply_next c.rooms (moved c (lists c.rooms game [] 0)) replies).0 ≡ moved c (Says (answer.Matches (rows_from game [] replies))) }
{}
