//! What the rooms of a server were opened from.

use std::marker::Brand;

/// What the rooms of a server were opened from, by their numbers, which proofs alone see. The proof of each server picks it.
pub trait Origin<D> {
    ghost use Rattle.std.specs.Prelude.{ℕ, Option};

    /// The disk before the file of a room was opened; none where nothing is said of it.
    ghost start: { ℕ → Option D };
}

impl<D> Origin<D> for Brand {
    ghost use Rattle.std.specs.Prelude.{None};

    ghost start = { λ room. None };
}
