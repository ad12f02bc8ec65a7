//! Why a file gives no game.

ghost use Rattle.std.specs.Prelude.{◌≡◌};
ghost use Rattle.game_file.specs.declared.unread.Unread.TheVariants.{NoMemory as Starved};

use game_sheet::NoMemory;
use game_syntax::Fault;
use std::alloc::{AllocError, AllocFailed};

/// Why a file isn't read.
#[derive(Drop)]
pub enum Unread {
    /// There was no memory.
    NoMemory,
    /// The description has a fault.
    Fault(Fault),
}

impl From<NoMemory> for Unread {
    ghost from_gives = { λ _ why. why ≡ Starved };

    fn from(_error: NoMemory) -> Self {
        Unread::NoMemory
    }
}

impl From<AllocError> for Unread {
    ghost from_gives = { λ _ why. why ≡ Starved };

    fn from(_error: AllocError) -> Self {
        Unread::NoMemory
    }
}

impl<T: Drop> From<AllocFailed<T>> for Unread {
    ghost from_gives = { λ _ why. why ≡ Starved };

    fn from(_error: AllocFailed<T>) -> Self {
        Unread::NoMemory
    }
}
