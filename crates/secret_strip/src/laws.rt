//! What holds of every view. There is nothing to run.

ghost use Rattle.std.specs.Prelude.{◌≡◌};
ghost use Rattle.secret_strip.specs.Strip.{strip, SameFor};

use crate::split::Split;
use game_sheet::Seat;

/// A viewer's view of its own view is that view.
#[tactic(auto, using(crate::proofs::PlayersLemmas::strip_twice))]
pub fn view_of_a_view<C, S, P>(split: &Split<C, S, P>, viewer: Option<Seat>)
    ensures { strip (strip split.now viewer) viewer ≡ strip split.now viewer }
{}

/// Where two states have the same common part, as many players and the same entry of the viewer's seat, the viewer sees no difference.
#[tactic(auto, using(crate::proofs::PlayersLemmas::seen_same))]
pub fn view_shows_no_more<C, S, P>(a: &Split<C, S, P>, b: &Split<C, S, P>, viewer: Option<Seat>)
    ensures { SameFor viewer a.now b.now → strip a.now viewer ≡ strip b.now viewer }
{}
