//! How long the texts of states are. There is nothing to run.

ghost use Rattle.std.specs.Prelude.{IsTrue};
ghost use Rattle.any_game.specs.AnyRules.{any_rules};
ghost use Rattle.any_game.specs.Sizes.{IsSmall};

use crate::any_g::AnyG;
use crate::choice::AnyGame;

/// The text of a game's own state has at most 8,192 bytes, whichever game it is.
#[tactic(auto, using(crate::proofs::Small::own_states_are_small))]
pub fn own_states_are_small(game: &AnyGame, g: &AnyG)
    ensures { IsTrue ((any_rules game.now).own g.now) → IsSmall ((any_rules game.now).value g.now) }
{}
