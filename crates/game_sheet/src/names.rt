//! Rows of a sheet by their names, and kinds of event by theirs.

ghost use Rattle.std.specs.Prelude.{◌≡◌, ◌<◌, ◌≤◌, length, IfSome};
ghost use Rattle.game_sheet.specs.EventNames.{event_text, kind_from};
ghost use Rattle.game_sheet.specs.SheetNames.{move_of, phase_of, place_of, stage_of};

use crate::act::EventKind;
use crate::ids::{MoveId, PhaseId, StageId};
use crate::sheet::{MoveRow, PhaseRow, Sheet, StageRow};

/// A row of a table, which has a name.
pub trait Named {
    ghost use Rattle.std.specs.Prelude.{◌≡◌, List, ℕ};

    ghost name: { Self → List ℕ };

    fn name(&self) -> &str
        ensures { result.now ≡ name self.now };
}

impl Named for MoveRow {
    ghost name = { λ row. row.name };

    fn name(&self) -> &str {
        self.name.as_str()
    }
}

impl Named for PhaseRow {
    ghost name = { λ row. row.name };

    fn name(&self) -> &str {
        self.name.as_str()
    }
}

impl Named for StageRow {
    ghost name = { λ row. row.name };

    fn name(&self) -> &str {
        self.name.as_str()
    }
}

/// The place of the first row with a name.
fn place_of<Row: Named>(rows: &[Row], name: &str) -> Option<usize>
    ensures place { result ≡ place_of Row.name rows.now name.now }
    ensures within { IfSome result (λ place. place < length rows.now) }
{
    rows.iter().position(|row| row.name() == name)
}

impl Sheet {
    /// The first move with this name. It takes no memory.
    pub fn move_named(&self, name: &str) -> Option<MoveId>
        requires { length self.now.moves ≤ 64 }
        ensures { result ≡ move_of self.now name.now }
    {
        match place_of(self.moves.as_slice(), name) {
            Some(place) => Some(MoveId::at(place as u8)),
            None => None,
        }
    }

    /// The first phase with this name. It takes no memory.
    pub fn phase_named(&self, name: &str) -> Option<PhaseId>
        requires { length self.now.phases ≤ 16 }
        ensures { result ≡ phase_of self.now name.now }
    {
        match place_of(self.phases.as_slice(), name) {
            Some(place) => Some(PhaseId::at(place as u8)),
            None => None,
        }
    }

    /// The first stage with this name. It takes no memory.
    pub fn stage_named(&self, name: &str) -> Option<StageId>
        requires { length self.now.stages ≤ 16 }
        ensures { result ≡ stage_of self.now name.now }
    {
        match place_of(self.stages.as_slice(), name) {
            Some(place) => Some(StageId::at(place as u8)),
            None => None,
        }
    }
}

impl EventKind {
    /// The name that a player asks for it by.
    pub fn name(self) -> &'static str
        ensures { result.now ≡ event_text self }
    {
        match self {
            EventKind::EndTurn => "endTurn",
            EventKind::EndPhase => "endPhase",
            EventKind::SetPhase => "setPhase",
            EventKind::EndStage => "endStage",
            EventKind::SetStage => "setStage",
            EventKind::EndGame => "endGame",
        }
    }

    /// The kind with this name.
    pub fn named(name: &str) -> Option<EventKind>
        ensures { result ≡ kind_from name.now }
    {
        match name {
            "endTurn" => Some(EventKind::EndTurn),
            "endPhase" => Some(EventKind::EndPhase),
            "setPhase" => Some(EventKind::SetPhase),
            "endStage" => Some(EventKind::EndStage),
            "setStage" => Some(EventKind::SetStage),
            "endGame" => Some(EventKind::EndGame),
            _ => None,
        }
    }
}
