//! Why a description gives no game.

ghost use Rattle.std.specs.Prelude.{◌≡◌};

use game_file::Unread;
use game_sheet::{NoMemory, Text};
use game_syntax::Fault;

/// Why a description gives no game.
#[derive(Drop)]
pub enum Unloaded {
    /// There was no memory.
    NoMemory,
    /// It has a fault.
    Fault(Fault),
    /// It asks for active seats by a slot, which no game can have yet: the path of the spec that does.
    NotYet(Text),
}

impl From<NoMemory> for Unloaded {
    ghost use Rattle.game_loader.specs.declared.unloaded.Unloaded.TheVariants.{NoMemory as Starved};

    ghost from_gives = { λ _ why. why ≡ Starved };

    fn from(_error: NoMemory) -> Self {
        Unloaded::NoMemory
    }
}

/// A file that isn't read gives no game.
pub(crate) fn unread(why: Unread) -> Unloaded {
    match why {
        Unread::NoMemory => Unloaded::NoMemory,
        Unread::Fault(fault) => Unloaded::Fault(fault),
    }
}
