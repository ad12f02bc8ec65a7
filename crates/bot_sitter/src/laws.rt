//! Laws of what a bot's client settles. There is nothing to run.

ghost use Rattle.std.specs.Prelude.{◌≡◌, ◌++◌, ℕ, List, Option};
ghost use Rattle.client_predict.specs.Client.{Client};
ghost use Rattle.client_predict.specs.Following.{followed};
ghost use Rattle.bot_sitter.specs.Hears.{clients_after};
ghost use Rattle.bot_sitter.specs.Seen.{Agrees};

use game_trait::Game;

/// A bot's client reads every line, acts in between, and has settled nothing but what a client has that makes no act and passes verdicts
/// and direct answers over.
pub fn bots_settle_what_their_viewers_are_shown<X: Game>()
    ensures { (any : X) (before more all : List (List ℕ)) (c : Option (Client X.G)) → all ≡ before ++ more
        → Agrees c (followed (X.rules any) before) → Agrees (clients_after (X.rules any) c more) (followed (X.rules any) all) }
{}
