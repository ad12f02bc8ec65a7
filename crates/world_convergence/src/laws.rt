//! Laws of worlds, over every list of lines and every mark. There is nothing to run.

ghost use Rattle.std.specs.Prelude.{◌≡◌, ◌≢◌, ◌≤◌, ℕ, List, Option, Some, None, Ok, [], ◌++◌, ◌∷◌, codes, false, true};
ghost use Rattle.any_game.specs.AnyRules.{any_rules};
ghost use Rattle.any_game.specs.GameKind.{GameKind};
ghost use Rattle.any_game.specs.declared.any_g.AnyG.{AnyG};
ghost use Rattle.client_predict.specs.Client.{Held as Holds, Playing, shown_of};
ghost use Rattle.client_predict.specs.Reading.{lost, reads};
ghost use Rattle.client_predict.specs.declared.told.FeedNo.TheVariants.{BadLine};
ghost use Rattle.game_sheet.specs.MatchName.{Name};
ghost use Rattle.game_sheet.specs.Viewer.{seat_of};
ghost use Rattle.reducer.specs.Accepted.{Accepted};
ghost use Rattle.room_history.specs.Match.{Match};
ghost use Rattle.room_history.specs.Piece.{Open};
ghost use Rattle.room_history.specs.Session.{Session, handful, session_state};
ghost use Rattle.serde_json.specs.Data.{Data};
ghost use Rattle.wire_json.specs.ServerReading.{server_read};
ghost use Rattle.wire_json.specs.declared.protocol.Protocol.{Protocol as Told};
ghost use Rattle.wire_json.specs.declared.server.ServerMsg.TheVariants.{Sync};
ghost use Rattle.convergence.specs.Calls.{CallsFit};
ghost use Rattle.convergence.specs.Doing.{KnowsWhere, ticket_in};
ghost use Rattle.client_predict.specs.Following.{is_bye};
ghost use Rattle.convergence.specs.Shallow.{StatesAreShallow};
ghost use Rattle.room_history.specs.Shown.{view_at};
ghost use Rattle.hall_history.specs.Mark.{Mark};
ghost use Rattle.hall_history.specs.Rooms.{history_of};
ghost use Rattle.world_history.specs.Words.{of_client};
ghost use Rattle.world_history.specs.World.{Step, new_world};
ghost use Rattle.world_history.specs.WorldScript.{runs_world, shows, snapshot_text};
ghost use Rattle.world_convergence.specs.Converging.{Converges};
ghost use Rattle.world_convergence.specs.Meeting.{Meets, Run, room_of_client, world_after};
ghost use Rattle.world_convergence.specs.Settling.{Settles, SettlesAt};
ghost use Rattle.world_convergence.specs.Trailing.{Trails};

use any_game::AnyGame;
use game_trait::Game;
use reducer::matches_stay_sound;

/// In every world all calls on rooms are of their types, whatever lines arrive: those that are no message call no room.
pub fn calls_of_worlds_fit<X: Game>()
    ensures { (named : List ℕ → Option X) (tape : ℕ → List ℕ) (rooms : ℕ) (marks : List Mark) (steps : List (Step X)) (room : ℕ)
        → CallsFit (history_of (runs_world named X.rules tape marks steps (new_world rooms)).0.hall.rooms room) }
{}

/// In every world whose lines are in their forms, a client whose session has begun stands as one that has read, verdicts and direct
/// answers passed over, a first part of what the session was sent, and what waits on its link goes on from there: to the end, as
/// long as the session is attached. Each verdict that it reads next, and each `again` with a ticket, answers an act that waits,
/// unless the client is gone. That is so whatever its game is.
pub fn clients_of_worlds_follow_their_sessions<X: Game>()
    ensures trails { StatesAreShallow X.rules → (named : List ℕ → Option X) (tape : ℕ → List ℕ) (run : Run X) (c : ℕ) (held : Holds X X.G) (s : Session) (m : Match X X.G)
        → (meets : Meets named X.rules tape run c held s m) → Trails X.rules (world_after named X.rules tape run) c meets.room held s }
    ensures answers { StatesAreShallow X.rules → (named : List ℕ → Option X) (tape : ℕ → List ℕ) (run : Run X) (c : ℕ) (held : Holds X X.G) (s : Session) (m : Match X X.G)
        → Meets named X.rules tape run c held s m → (line : List ℕ) (rest : List (List ℕ)) → (world_after named X.rules tape run).down c ≡ line ∷ rest
        → KnowsWhere held.client (ticket_in (server_read line)) }
{
    matches_stay_sound::<X>();
}

/// In every world whose lines are in their forms, over games whose own states are nested at most 125 deep, a client that has read its
/// sync has a session, and the session has a match. Where that match is of the client's game, the client has settled what its
/// session's viewer sees of the match at the settled number, whatever it acted in between and whoever else did what.
///
/// Where its session goes on, nothing waits for it and nothing is on its link, it has settled what its viewer sees of the match as it
/// stands, and isn't gone.
pub fn clients_of_worlds_see_their_matches<X: Game>()
    ensures session { StatesAreShallow X.rules → (named : List ℕ → Option X) (tape : ℕ → List ℕ) (run : Run X) (c : ℕ) (held : Holds X X.G)
        → (world_after named X.rules tape run).clients c ≡ Some held → (room : ℕ) → room_of_client named X.rules tape run c ≡ Some room
        → (s : Session) × (m : Match X X.G) × Meets named X.rules tape run c held s m }
    ensures synced { StatesAreShallow X.rules → (named : List ℕ → Option X) (tape : ℕ → List ℕ) (run : Run X) (c : ℕ) (held : Holds X X.G)
        → (world_after named X.rules tape run).clients c ≡ Some held → (p : Playing X.G) → held.client.playing ≡ Some p
        → (s : Session) × (m : Match X X.G) × Meets named X.rules tape run c held s m }
    ensures settled { StatesAreShallow X.rules → (named : List ℕ → Option X) (tape : ℕ → List ℕ) (run : Run X) (c : ℕ) (held : Holds X X.G) (s : Session) (m : Match X X.G)
        → Meets named X.rules tape run c held s m → held.game ≡ m.game → (p : Playing X.G) → held.client.playing ≡ Some p → Settles X.rules m s p }
    ensures present { StatesAreShallow X.rules → (named : List ℕ → Option X) (tape : ℕ → List ℕ) (run : Run X) (c : ℕ) (held : Holds X X.G) (s : Session) (m : Match X X.G)
        → Meets named X.rules tape run c held s m → held.game ≡ m.game → session_state s ≡ Open → handful s ≡ [] → (world_after named X.rules tape run).down c ≡ []
        → (held.client.gone ≡ false) × (p : Playing X.G) × (held.client.playing ≡ Some p) × SettlesAt X.rules m s m.accepted p }
{
    matches_stay_sound::<X>();
}

/// What a `show` line prints of such a client is that snapshot, and what is guessed from it.
pub fn show_lines_print_what_is_settled<X: Game>()
    ensures { StatesAreShallow X.rules → (named : List ℕ → Option X) (tape : ℕ → List ℕ) (run : Run X) (c : ℕ) (held : Holds X X.G) (s : Session) (m : Match X X.G)
        → Meets named X.rules tape run c held s m → held.game ≡ m.game → (p : Playing X.G) → held.client.playing ≡ Some p
        → (later : List Accepted) × (earlier : List Accepted) × (m.accepted ≡ later ++ earlier)
        × (shows X.rules c ((world_after named X.rules tape run).clients c)
        ≡ of_client c (codes "settled " ++ snapshot_text X.rules m.game (view_at (X.rules m.game) m.first (seat_of s.viewer) earlier))
        ++ of_client c (codes "shown " ++ snapshot_text X.rules m.game (shown_of (X.rules m.game) p))) }
{
    clients_of_worlds_see_their_matches::<X>();
}

/// No line that such a client reads makes it gone but a bye. One without a session isn't gone.
pub fn clients_of_worlds_go_on_until_a_bye<X: Game>()
    ensures reads { StatesAreShallow X.rules → (named : List ℕ → Option X) (tape : ℕ → List ℕ) (run : Run X) (c : ℕ) (held : Holds X X.G) (s : Session) (m : Match X X.G)
        → Meets named X.rules tape run c held s m → held.game ≡ m.game
        → (line : List ℕ) (rest : List (List ℕ)) → (world_after named X.rules tape run).down c ≡ line ∷ rest → held.client.gone ≡ false
        → is_bye (server_read line) ≡ false → (reads (X.rules held.game) held.client line).client.gone ≡ false }
    ensures before { StatesAreShallow X.rules → (named : List ℕ → Option X) (tape : ℕ → List ℕ) (run : Run X) (c : ℕ) (held : Holds X X.G)
        → (world_after named X.rules tape run).clients c ≡ Some held → room_of_client named X.rules tape run c ≡ None → held.client.gone ≡ false }
{
    matches_stay_sound::<X>();
}

/// A client of another of the games than its session's match settles nothing: its sync is a bad line to it, and it is gone from then
/// on.
pub fn clients_of_other_games_are_lost()
    ensures nothing { (named : List ℕ → Option GameKind) (tape : ℕ → List ℕ) (run : Run GameKind) (c : ℕ) (held : Holds GameKind AnyG) (s : Session) (m : Match GameKind AnyG)
        → Meets named any_rules tape run c held s m → (any_rules held.game).sheet.name ≢ (any_rules m.game).sheet.name → held.client.playing ≡ None }
    ensures sync { (named : List ℕ → Option GameKind) (tape : ℕ → List ℕ) (run : Run GameKind) (c : ℕ) (held : Holds GameKind AnyG) (s : Session) (m : Match GameKind AnyG)
        → Meets named any_rules tape run c held s m → (any_rules held.game).sheet.name ≢ (any_rules m.game).sheet.name
        → (line : List ℕ) (rest : List (List ℕ)) → (world_after named any_rules tape run).down c ≡ line ∷ rest
        → (name : Name) (seat : Option ℕ) (protocol : Told) (snapshot : Data) → server_read line ≡ Ok (Sync name seat protocol snapshot)
        → reads (any_rules held.game) held.client line ≡ lost held.client BadLine }
    ensures gone { (named : List ℕ → Option GameKind) (tape : ℕ → List ℕ) (run : Run GameKind) (c : ℕ) (held : Holds GameKind AnyG) (s : Session) (m : Match GameKind AnyG)
        → Meets named any_rules tape run c held s m → (any_rules held.game).sheet.name ≢ (any_rules m.game).sheet.name
        → (line : List ℕ) (rest : List (List ℕ)) → (world_after named any_rules tape run).down c ≡ line ∷ rest
        → held.client.gone ≡ true → (reads (any_rules held.game) held.client line).client.gone ≡ true }
{
    matches_stay_sound::<AnyGame>();
}

/// All of this is so of all the games.
pub fn worlds_of_all_games_converge()
    ensures { (named : List ℕ → Option GameKind) (tape : ℕ → List ℕ) (run : Run GameKind) → Converges named tape run }
{
    clients_of_worlds_follow_their_sessions::<AnyGame>();
    clients_of_worlds_see_their_matches::<AnyGame>();
    clients_of_worlds_go_on_until_a_bye::<AnyGame>();
    show_lines_print_what_is_settled::<AnyGame>();
    clients_of_other_games_are_lost();
}
