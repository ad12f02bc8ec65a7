//! Phases and stages of the sheet.

use crate::misfit::At;
use crate::rows::{listed_moves, phase_named, stage_named};
use crate::turns::Around;
use game_file::{FileFlow, PhaseMember, StageMember, Title, Unread};
use game_sheet::{List, MoveId, PhaseId, PhaseRow, StageId, StageRow, Text, TurnRow};
use game_syntax::FaultName;

/// The rows of phases.
pub(crate) fn phase_rows(around: &Around<'_>, flow: &FileFlow) -> Result<List<PhaseRow>, Unread> {
    let phases = flow.tables.phases.as_slice();
    let mut rows = List::new(around.alloc);
    for (place, row) in phases.iter().enumerate() {
        rows.push(checked_row(around, flow, &phases[..place], row)?)?;
    }
    Ok(rows)
}

/// The row of a phase behind earlier ones.
fn checked_row(
    around: &Around<'_>,
    flow: &FileFlow,
    earlier: &[PhaseMember],
    row: &PhaseMember,
) -> Result<PhaseRow, Unread> {
    check_start(around, earlier, row)?;
    phase_row(around, flow, row)
}

/// Refuses a second phase in which a match begins.
fn check_start(
    around: &Around<'_>,
    earlier: &[PhaseMember],
    row: &PhaseMember,
) -> Result<(), Unread> {
    if row.start && earlier.iter().any(|other| other.start) {
        let at = At {
            path: row.title.path.as_str(),
            member: "start",
        };
        return Err(at.fault(
            around.alloc,
            FaultName::TwoStarts,
            "a match begins in one phase",
        ));
    }
    Ok(())
}

fn phase_row(around: &Around<'_>, flow: &FileFlow, row: &PhaseMember) -> Result<PhaseRow, Unread> {
    let next = phase_next(around, flow.tables.phases.as_slice(), row)?;
    let moves = moves_in(around, flow, &row.flow.moves, &row.title)?;
    match around.own_turn(&row.turn) {
        Ok(turn) => phase_with(around, row, next, moves, turn),
        Err(unread) => {
            drop(moves);
            Err(unread)
        }
    }
}

/// The row of a phase with what it names.
fn phase_with(
    around: &Around<'_>,
    row: &PhaseMember,
    next: Option<PhaseId>,
    moves: Option<List<MoveId>>,
    turn: Option<TurnRow>,
) -> Result<PhaseRow, Unread> {
    let name = row.title.name.copy(around.alloc)?;
    Ok(PhaseRow {
        name,
        start: row.start,
        next,
        moves,
        turn,
    })
}

/// The moves that a phase or a stage lists.
fn moves_in(
    around: &Around<'_>,
    flow: &FileFlow,
    names: &Option<List<Text>>,
    title: &Title,
) -> Result<Option<List<MoveId>>, Unread> {
    let at = At {
        path: title.path.as_str(),
        member: "moves",
    };
    listed_moves(around.alloc, flow.moves.as_slice(), names, &at)
}

fn phase_next(
    around: &Around<'_>,
    phases: &[PhaseMember],
    row: &PhaseMember,
) -> Result<Option<PhaseId>, Unread> {
    match &row.flow.next {
        None => Ok(None),
        Some(name) => {
            let at = next_at(row.title.path.as_str());
            Ok(Some(phase_named(around.alloc, phases, name, &at)?))
        }
    }
}

/// The rows of stages.
pub(crate) fn stage_rows(around: &Around<'_>, flow: &FileFlow) -> Result<List<StageRow>, Unread> {
    let mut rows = List::new(around.alloc);
    for row in flow.tables.stages.as_slice() {
        rows.push(stage_row(around, flow, row)?)?;
    }
    Ok(rows)
}

fn stage_row(around: &Around<'_>, flow: &FileFlow, row: &StageMember) -> Result<StageRow, Unread> {
    let next = stage_next(around, flow.tables.stages.as_slice(), row)?;
    let name = row.title.name.copy(around.alloc)?;
    match moves_in(around, flow, &row.flow.moves, &row.title) {
        Ok(moves) => Ok(StageRow { name, next, moves }),
        Err(unread) => {
            drop(name);
            Err(unread)
        }
    }
}

fn stage_next(
    around: &Around<'_>,
    stages: &[StageMember],
    row: &StageMember,
) -> Result<Option<StageId>, Unread> {
    match &row.flow.next {
        None => Ok(None),
        Some(name) => {
            let at = next_at(row.title.path.as_str());
            Ok(Some(stage_named(around.alloc, stages, name, &at)?))
        }
    }
}

fn next_at(path: &str) -> At<'_> {
    At {
        path,
        member: "next",
    }
}
