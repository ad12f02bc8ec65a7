//! The context of a match: what the flow of turns and phases has come to.

ghost use Rattle.std.specs.Prelude.{◌≡◌, IfOk};

use crate::act::Outcome;
use crate::ids::{PhaseId, Seat, StageId};
use crate::list::List;
use crate::memory::NoMemory;
use std::alloc::Global;

/// What every viewer sees of a match besides the game's own state.
pub struct Ctx {
    /// How many seats the match has, 1 to 16.
    pub seats: u8,
    /// Which turn it is, counted over the whole match.
    pub turn: u32,
    /// The seat whose turn it is.
    pub current: Seat,
    /// The play order in force: 1 to 64 seats, each below `seats`.
    pub order: List<Seat>,
    /// The place of the current seat in the play order, below its length.
    pub pos: u8,
    /// The phase, if any.
    pub phase: Option<PhaseId>,
    /// The active seats in rising order with their stages; none where the current seat alone may act.
    pub active: Option<List<(Seat, Option<StageId>)>>,
    /// How many counted moves the turn has had.
    pub moves: u32,
    /// How the match ended, if it has.
    pub over: Option<Outcome>,
}

impl Drop for Ctx {
    fn drop(self) {
        let Ctx {
            seats: _,
            turn: _,
            current: _,
            order,
            pos: _,
            phase: _,
            active,
            moves: _,
            over: _,
        } = self;
        drop(order);
        drop(active);
    }
}

impl Ctx {
    /// An equal context.
    pub fn copy(&self, alloc: Global) -> Result<Self, NoMemory>
        ensures { IfOk result (λ copied. copied ≡ self.now) }
    {
        let order = List::from_slice(alloc, self.order.as_slice())?;
        let active = match &self.active {
            None => None,
            Some(rows) => Some(List::from_slice(alloc, rows.as_slice())?),
        };
        Ok(Ctx {
            seats: self.seats,
            turn: self.turn,
            current: self.current,
            order,
            pos: self.pos,
            phase: self.phase,
            active,
            moves: self.moves,
            over: self.over,
        })
    }
}
