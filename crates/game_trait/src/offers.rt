//! Who is offered moves.

ghost use Rattle.std.specs.Prelude.{◌≡◌};
ghost use Rattle.game_trait.specs.Offers.{may_be_offered};

use game_sheet::{Ctx, Seat};
use stage_map::is_active;

/// Whether a seat may be offered moves: the match goes on, and the seat may act.
pub fn may_be_offered(ctx: &Ctx, seat: Seat) -> bool
    ensures { result ≡ may_be_offered ctx.now seat }
{
    ctx.over.is_none() && is_active(ctx, seat)
}
