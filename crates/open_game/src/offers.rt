//! Moves that a game offers.

ghost use Rattle.std.specs.Prelude.{◌≡◌, ◌∷◌, []};
ghost use Rattle.game_sheet.specs.declared.args.Arg.TheVariants.{Whole as IsWhole};

use game_sheet::{Arg, Args, MoveId};

/// A move without arguments, as it is offered.
pub fn offer(id: MoveId) -> (MoveId, Args)
    ensures { result ≡ (id, []) }
{
    (id, Args::new())
}

/// A move whose one argument is a whole number, as it is offered.
pub fn offer_number(id: MoveId, number: i32) -> (MoveId, Args)
    ensures { result ≡ (id, IsWhole number ∷ []) }
{
    let mut args = Args::new();
    args.push(Arg::Whole(number));
    (id, args)
}
