//! Laws of worlds, over every run of lines and every mark. There is nothing to run.

ghost use Rattle.std.specs.Prelude.{◌≡◌, ℕ, List, Option, Some};
ghost use Rattle.std.specs.List.{concat};
ghost use Rattle.hall_history.specs.Mark.{Mark};
ghost use Rattle.hall_history.specs.Placed.{IsPlaced};
ghost use Rattle.hall_history.specs.Rooms.{history_of};
ghost use Rattle.room_history.specs.Room.{session};
ghost use Rattle.room_history.specs.Session.{Session};
ghost use Rattle.world_history.specs.World.{Step as WorldStep, new_world};
ghost use Rattle.world_history.specs.WorldScript.{runs_world};
ghost use Rattle.world_history.specs.WorldTold.{delivered};

use game_trait::Game;

/// However a world's lines go, its hall and the rooms' histories agree on who is attached where: each pass in one room at most.
pub fn worlds_agree_with_their_rooms<X: Game>(game: &X)
    ensures { (named : List ℕ → Option X) (tape : ℕ → List ℕ) (rooms : ℕ) (marks : List Mark) (lines : List (WorldStep X))
        → IsPlaced X.rules (runs_world named X.rules tape marks lines (new_world rooms)).0.hall }
{
    let _game = game;
}

/// Along a world, what Takes put on down links for a session is what it was sent.
pub fn worlds_deliver_what_is_sent<X: Game>(game: &X)
    ensures { (named : List ℕ → Option X) (tape : ℕ → List ℕ) (rooms : ℕ) (marks : List Mark) (lines : List (WorldStep X))
        → (pass room j : ℕ) (s : Session)
        → session X.rules room (history_of (runs_world named X.rules tape marks lines (new_world rooms)).0.hall.rooms room) pass j ≡ Some s
        → concat s.sent ≡ delivered named X.rules tape pass room j marks lines (new_world rooms) }
{
    let _game = game;
}
