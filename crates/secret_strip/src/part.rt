//! The parts that a split is made of.

ghost use Rattle.std.specs.Prelude.{◌≡◌, IfOk};

use game_sheet::{List, NoMemory};
use std::alloc::Global;

/// A part of a game's state that can be copied, so that a view of the state can have it.
pub trait CopyPart: Sized + Drop {
    /// An equal part. It fails only where there is no memory for it.
    fn copy(&self, alloc: Global) -> Result<Self, NoMemory>
        ensures { IfOk result (λ part. part ≡ self.now) };
}

impl<T: Copy> CopyPart for List<T> {
    fn copy(&self, alloc: Global) -> Result<Self, NoMemory> {
        List::from_slice(alloc, self.as_slice())
    }
}
