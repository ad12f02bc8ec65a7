//! What a game's sheet says: its moves, turns, phases, stages and specs of active players.

use crate::act::EventKind;
use crate::ids::{MoveId, PhaseId, Seat, SpecId, StageId};
use crate::list::List;
use crate::text::Text;

/// The fixed description of a game, by which the flow of its matches goes.
pub struct Sheet {
    /// The game's name: 1 to 32 lower-case letters, digits and dashes.
    pub name: Text,
    /// The least number of seats, from 1.
    pub min_seats: u8,
    /// The greatest number of seats, up to 16.
    pub max_seats: u8,
    /// The moves, 1 to 64.
    pub moves: List<MoveRow>,
    /// The moves that a seat has where its stage and the phase say nothing.
    pub base: List<MoveId>,
    /// The turn where the phase says nothing.
    pub turn: TurnRow,
    /// The phases, at most 16.
    pub phases: List<PhaseRow>,
    /// The stages, at most 16.
    pub stages: List<StageRow>,
    /// The specs of active players, at most 16.
    pub specs: List<SpecRow>,
    /// The events that players may ask for.
    pub events: List<EventKind>,
}

impl Drop for Sheet {
    fn drop(self) {
        let Sheet {
            name,
            min_seats: _,
            max_seats: _,
            moves,
            base,
            turn,
            phases,
            stages,
            specs,
            events,
        } = self;
        drop(name);
        drop(moves);
        drop(base);
        drop(turn);
        drop(phases);
        drop(stages);
        drop(specs);
        drop(events);
    }
}

/// One move.
#[derive(Drop)]
pub struct MoveRow {
    /// Its name: 1 to 32 letters and digits.
    pub name: Text,
    /// Whether other viewers see no arguments of it in the log.
    pub redact: bool,
    /// Whether a client may guess what it does.
    pub client: bool,
    /// Whether it counts toward no limit.
    pub no_limit: bool,
    /// Whether it is taken on any state number.
    pub ignore_stale: bool,
}

/// How turns go.
#[derive(Drop)]
pub struct TurnRow {
    /// Who comes next.
    pub order: Order,
    /// The least count of moves before a turn may end.
    pub min_moves: u32,
    /// The count of moves at which a turn ends by itself.
    pub max_moves: Option<u32>,
    /// The spec that is set at the beginning of each turn.
    pub active: Option<SpecId>,
}

/// One phase.
#[derive(Drop)]
pub struct PhaseRow {
    /// Its name: 1 to 32 letters and digits.
    pub name: Text,
    /// Whether a match begins in it.
    pub start: bool,
    /// The phase that follows it.
    pub next: Option<PhaseId>,
    /// The moves that a seat has in it.
    pub moves: Option<List<MoveId>>,
    /// Its own turns.
    pub turn: Option<TurnRow>,
}

/// One stage.
#[derive(Drop)]
pub struct StageRow {
    /// Its name: 1 to 32 letters and digits.
    pub name: Text,
    /// The stage that follows it.
    pub next: Option<StageId>,
    /// The moves that a seat has in it.
    pub moves: Option<List<MoveId>>,
}

/// One spec of active players, of which a map is made.
#[derive(Drop)]
pub struct SpecRow {
    /// Where the current seat is put.
    pub current: Option<Place>,
    /// Where every other seat of the play order is put.
    pub others: Option<Place>,
    /// Where every seat of the play order is put.
    pub all: Option<Place>,
    /// Where the seats named are put.
    pub value: List<(Seat, Place)>,
    /// The least count of moves before a seat may end its stage.
    pub min_moves: u32,
    /// The count of moves at which a seat's stage ends by itself.
    pub max_moves: Option<u32>,
    /// Whether the earlier map comes back when this one is empty.
    pub revert: bool,
    /// The spec that is set when this map is empty.
    pub next: Option<SpecId>,
}

/// Where a seat stands on the map: in a stage, or listed without one.
#[derive(Clone, Copy)]
pub struct Place {
    /// The stage, if any.
    pub stage: Option<StageId>,
}

/// Who comes next.
#[derive(Drop)]
pub enum Order {
    /// All seats in turn; a phase begins after the seat that was last.
    Default,
    /// All seats in turn; a phase begins with the first.
    Reset,
    /// All seats in turn; a phase begins where the last one stood.
    Continue,
    /// All seats once; then the phase ends.
    Once,
    /// The seats of this list in turn.
    Custom(List<Seat>),
    /// The seats of the game's own list in turn.
    CustomFrom,
}
