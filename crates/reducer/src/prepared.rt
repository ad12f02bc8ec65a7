//! An accepted action with what it comes to, before a state takes it in.

ghost use Rattle.std.specs.Prelude.{◌≡◌};
ghost use Rattle.reducer.specs.Change.{coming, StepsByDeeds};

use crate::change::Change;
use game_sheet::{Ctx, Number};
use std::marker::Model;

/// An accepted action with what it makes of the trail, which no state of a match has taken in yet.
///
/// Contracts see the action, and the number and the table after it.
pub struct Prepared<G> {
    pub(crate) number: Number,
    pub(crate) change: Change<G>,
}

impl<G: Drop> Drop for Prepared<G> {
    fn drop(self) {
        let Prepared { number: _, change } = self;
        drop(change);
    }
}

impl<G> Model for Prepared<G> {
    ghost use Rattle.reducer.specs.Change.{coming, StepsByDeeds};
    ghost use Rattle.reducer.specs.Prepared.{Coming};

    ghost Value = { Coming G };

    ghost view = { λ p. coming p.number p.change };

    ghost invariant = { λ p. StepsByDeeds p.change };
}

impl<G> Prepared<G> {
    /// How many actions the match has accepted with this one.
    pub fn number(&self) -> Number
        ensures { result ≡ self.now.number }
    {
        self.number
    }

    /// What every viewer will see besides the game's own state.
    pub fn ctx(&self) -> &Ctx
        ensures { result.now ≡ self.now.table.ctx }
    {
        &self.change.after().table.ctx
    }

    /// The game's own state after the action.
    pub fn g(&self) -> &G
        ensures { result.now ≡ self.now.table.g }
    {
        &self.change.after().table.g
    }

    /// The place of the match's next random word, counted from 0.
    pub fn place(&self) -> u64
        ensures { result ≡ self.now.table.place }
    {
        self.change.after().place
    }
}

impl<G: Drop> Prepared<G> {
    /// What the action makes of the trail.
    pub(crate) fn into_change(self) -> Change<G>
        ensures coming { coming self.number result ≡ self }
        ensures steps { StepsByDeeds result }
    {
        let Prepared { number: _, change } = self;
        change
    }
}
