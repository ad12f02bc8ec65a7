//! The state of a match: how many actions it has accepted, and the trail of those that are done and undone.

ghost use Rattle.std.specs.Prelude.{◌≡◌, IfOk};

use crate::checkpoint::{Checkpoint, Deed};
use game_sheet::{Ctx, NoMemory, Number};
use std::alloc::Global;
use std::marker::Model;
use undo_redo::Trail;

/// A match after some accepted actions. Contracts see its number, what it began with, the actions done and undone, and what it has come to.
pub struct State<G> {
    pub(crate) number: Number,
    pub(crate) trail: Trail<Checkpoint<G>, Deed>,
}

impl<G: Drop> Drop for State<G> {
    fn drop(self) {
        let State { number: _, trail } = self;
        drop(trail);
    }
}

impl<G> Model for State<G> {
    ghost use Rattle.std.specs.Prelude.{◌≡◌, length};
    ghost use Rattle.reducer.specs.Standing.{Standing};

    ghost Value = { Standing G };

    ghost use Rattle.reducer.specs.Trails.{standing_at, IsCounted};

    ghost view = { λ s. standing_at s.number s.trail };

    ghost invariant = { λ s. IsCounted s.trail };
}

impl<G> State<G> {
    /// How many actions the match has accepted.
    pub fn number(&self) -> Number
        ensures { result ≡ self.now.number }
    {
        self.number
    }

    /// What every viewer sees besides the game's own state.
    pub fn ctx(&self) -> &Ctx
        ensures { result.now ≡ self.now.table.ctx }
    {
        &self.trail.now().table.ctx
    }

    /// The game's own state.
    pub fn g(&self) -> &G
        ensures { result.now ≡ self.now.table.g }
    {
        &self.trail.now().table.g
    }

    /// The place of the match's next random word, counted from 0.
    pub fn place(&self) -> u64
        ensures { result ≡ self.now.table.place }
    {
        self.trail.now().place
    }
}

impl<G: Drop> State<G> {
    /// An equal state, which shares what its actions came to.
    pub fn copy(&self, alloc: Global) -> Result<Self, NoMemory>
        ensures { IfOk result (λ copied. copied ≡ self.now) }
    {
        let trail = self.trail.copy(alloc)?;
        Ok(State {
            number: self.number,
            trail,
        })
    }
}
