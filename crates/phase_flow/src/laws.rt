//! Laws of tables and of the flow, for those who build on them. There is nothing to run.

ghost use Rattle.std.specs.Prelude.{◌≡◌, ◌+◌, ◌<◌, ◌≤◌, ℕ, List, Ok};
ghost use Rattle.game_sheet.specs.declared.act.Act.{Act};
ghost use Rattle.game_trait.specs.InSheet.{ActInSheet};
ghost use Rattle.phase_flow.specs.Action.{begin, once};
ghost use Rattle.phase_flow.specs.IsGood.{IsGood};
ghost use Rattle.phase_flow.specs.IsSound.{BoundGrows};
ghost use Rattle.phase_flow.specs.Reached.{Reached};

use game_trait::Game;
use stage_map::maps_stay_sound;

/// A table that is sound with counts of moves up to a bound is sound with a greater one.
pub fn bounds_grow()
    ensures { BoundGrows }
{
    maps_stay_sound();
}

/// A match begins with a sound table, with a state of the game's own and with at most 65 turns.
pub fn matches_begin_soundly<X: Game>()
    ensures { (any : X) (seats : ℕ) (seed : List ℕ) (first : Reached X.G)
        → (X.rules any).sheet.min_seats ≤ seats → seats ≤ (X.rules any).sheet.max_seats → begin (X.rules any) seats seed ≡ Ok first
        → IsGood (X.rules any) seats 0 65 first }
{
    maps_stay_sound();
}

/// An action of a seat of the match that is in the sheet keeps a table sound and a state the game's own, and takes at most 64 turns.
pub fn actions_keep_tables_sound<X: Game>()
    ensures { (any : X) (seats moves turns seat : ℕ) (act : Act) (now next : Reached X.G)
        → IsGood (X.rules any) seats moves turns now → seat < seats → ActInSheet (X.rules any).sheet act → once (X.rules any) now seat act ≡ Ok next
        → IsGood (X.rules any) seats (moves + 1) (turns + 64) next }
{
    maps_stay_sound();
}
