//! A state in three parts.

ghost use Rattle.std.specs.Prelude.{◌≡◌, ◌↔◌, IfOk, IsTrue};
ghost use Rattle.game_slots.specs.Tables.{strip};

use crate::players::{Players, copy_entry, same_entries};
use crate::slots::Slots;
use game_sheet::{NoMemory, Seat};
use std::alloc::Global;

/// A state: what everybody sees, what each seat alone sees, and what nobody sees.
pub struct Table {
    /// What everybody sees.
    pub common: Slots,
    /// What each seat alone sees; no entries where seats have no slots.
    pub players: Players,
    /// What nobody sees; none in a view, or where there are no such slots.
    pub secret: Option<Slots>,
}

impl Drop for Table {
    fn drop(self) {
        let Table {
            common,
            players,
            secret,
        } = self;
        drop(common);
        drop(players);
        drop(secret);
    }
}

impl Table {
    /// An equal state.
    pub fn copy(&self, alloc: Global) -> Result<Table, NoMemory>
        ensures { IfOk result (λ copied. copied ≡ self.now) }
    {
        let common = self.common.copy(alloc)?;
        let players = self.players.copy(alloc)?;
        let secret = copy_entry(alloc, &self.secret)?;
        Ok(Table {
            common,
            players,
            secret,
        })
    }

    /// Whether two states are equal.
    pub fn same(&self, other: &Table) -> bool
        ensures { IsTrue result ↔ (self.now ≡ other.now) }
    {
        self.common.same(&other.common)
            && self.players.same(&other.players)
            && same_entries(&self.secret, &other.secret)
    }

    /// The state as a viewer sees it: a seat, or a spectator where there is none.
    pub fn strip(&self, alloc: Global, viewer: Option<Seat>) -> Result<Table, NoMemory>
        ensures { IfOk result (λ seen. seen ≡ strip self.now viewer) }
    {
        let common = self.common.copy(alloc)?;
        match self.players.seen_by(alloc, viewer) {
            Ok(players) => Ok(Table {
                common,
                players,
                secret: None,
            }),
            Err(error) => {
                drop(common);
                Err(error)
            }
        }
    }
}
