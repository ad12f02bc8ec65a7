//! Moves that are offered.

ghost use Rattle.std.specs.Prelude.{◌≡◌, ◌∷◌, ◌++◌, [], OnOk};
ghost use Rattle.card_games.specs.Offers.{offers};

use game_sheet::{Arg, Args, List, MoveId, NoMemory};

/// Offers a move with each of these arguments.
pub(crate) fn offer(
    list: &mut List<(MoveId, Args)>,
    id: MoveId,
    arguments: &[Arg],
) -> Result<(), NoMemory>
    ensures { OnOk result (list.new ≡ list.old ++ offers id arguments.now) }
{
    for argument in arguments {
        let mut args = Args::new();
        args.push(*argument);
        list.push((id, args))?;
    }
    Ok(())
}
