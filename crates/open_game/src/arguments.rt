//! What a move was given.

ghost use Rattle.std.specs.Prelude.{◌≡◌, ◌<◌, ◌^◌, IfSome};
ghost use Rattle.open_game.specs.Arguments.{only_natural};

use game_sheet::Arg;

/// The one argument, where it is one whole number from 0 on; none for any other arguments.
pub fn only_natural(args: &[Arg]) -> Option<u32>
    ensures value { result ≡ only_natural args.now }
    ensures small { IfSome result (λ n. n < 2 ^ 31) }
{
    match args {
        [Arg::Whole(n)] if *n >= 0 => Some(*n as u32),
        _ => None,
    }
}
