//! What a bot is.

ghost use Rattle.std.specs.Prelude.{◌≡◌, ◌<◌, ◌≤◌, ◌∷◌, ◌++◌, [], length, IfOk, IfSome, OnErr};

use crate::glance::Glance;
use game_sheet::{Args, MoveId, NoMemory};

/// A player that is asked for one of the moves that its game offers.
pub trait Bot: Drop {
    ghost use Rattle.std.specs.Prelude.{List, Option, ℕ};
    ghost use Rattle.board_bots.specs.declared.glance.Glance.{Glance};

    /// What it was shown, in order.
    ghost seen: { Self → List Glance };

    /// What it answered, in order.
    ghost chosen: { Self → List (Option ℕ) };

    /// The place of one of the options, or none. Without memory it keeps neither the glance nor an answer.
    fn choose(
        &mut self,
        glance: Glance,
        options: &[(MoveId, Args)],
    ) -> Result<Option<u32>, NoMemory>
        requires some { 1 ≤ length options.now }
        requires few { length options.now ≤ 4294967295 }
        ensures saw { IfOk result (λ choice. seen self.new ≡ seen self.old ++ glance ∷ []) }
        ensures answered { IfOk result (λ choice. chosen self.new ≡ chosen self.old ++ choice ∷ []) }
        ensures there { IfOk result (λ choice. IfSome choice (λ place. place < length options.now)) }
        ensures unseen { OnErr result (seen self.new ≡ seen self.old) }
        ensures unanswered { OnErr result (chosen self.new ≡ chosen self.old) };
}

impl Bot for Box<dyn Bot + Send> {
    ghost seen = { λ b. (Bot-box b).seen b.value };

    ghost chosen = { λ b. (Bot-box b).chosen b.value };

    fn choose(
        &mut self,
        glance: Glance,
        options: &[(MoveId, Args)],
    ) -> Result<Option<u32>, NoMemory> {
        (**self).choose(glance, options)
    }
}
