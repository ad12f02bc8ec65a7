//! Laws of matches, for those who build on them. There is nothing to run.

ghost use Rattle.std.specs.Prelude.{◌≡◌, ◌+◌, ◌*◌, ◌≤◌, ℕ, List, Ok, length};
ghost use Rattle.phase_flow.specs.Action.{begin};
ghost use Rattle.phase_flow.specs.IsGood.{IsGood};
ghost use Rattle.phase_flow.specs.Reached.{Reached};
ghost use Rattle.reducer.specs.Accepted.{Accepted, AreActs};
ghost use Rattle.reducer.specs.Fold.{fold};

use game_trait::Game;
use phase_flow::{actions_keep_tables_sound, bounds_grow, matches_begin_soundly};

/// What accepted actions come to, all of seats of the match and in the game's sheet, is a sound table with a state of the game's own,
/// with turns far from the end of their range and, where the match has ended, with an outcome that fits.
pub fn matches_stay_sound<X: Game>()
    ensures { (any : X) (seats : ℕ) (seed : List ℕ) (first : Reached X.G) (accepted : List Accepted)
        → (X.rules any).sheet.min_seats ≤ seats → seats ≤ (X.rules any).sheet.max_seats → begin (X.rules any) seats seed ≡ Ok first
        → AreActs (X.rules any).sheet seats accepted
        → IsGood (X.rules any) seats (length accepted) (65 + 64 * length accepted) (fold (X.rules any) first accepted) }
{
    bounds_grow();
    matches_begin_soundly::<X>();
    actions_keep_tables_sound::<X>();
}
