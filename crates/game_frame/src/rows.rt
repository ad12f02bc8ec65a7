//! Rows of the sheet by their names.

use crate::misfit::At;
use game_file::{MoveMember, PhaseMember, SpecMember, StageMember, Title, Unread};
use game_sheet::{List, MoveId, PhaseId, SpecId, StageId, Text};
use game_syntax::FaultName;
use std::alloc::Global;

/// A row that has a name.
pub(crate) trait Titled {
    fn title(&self) -> &Title;
}

impl Titled for MoveMember {
    fn title(&self) -> &Title {
        &self.title
    }
}

impl Titled for PhaseMember {
    fn title(&self) -> &Title {
        &self.title
    }
}

impl Titled for StageMember {
    fn title(&self) -> &Title {
        &self.title
    }
}

impl Titled for SpecMember {
    fn title(&self) -> &Title {
        &self.title
    }
}

/// The place of the row with a name.
pub(crate) fn place_of<Row: Titled>(rows: &[Row], name: &str) -> Option<u8> {
    match rows.iter().position(|row| row.title().name.is(name)) {
        Some(place) => u8::try_from(place).ok(),
        None => None,
    }
}

/// The phase with a name.
pub(crate) fn phase_named(
    alloc: Global,
    phases: &[PhaseMember],
    name: &Text,
    at: &At<'_>,
) -> Result<PhaseId, Unread> {
    match place_of(phases, name.as_str()) {
        Some(place) => Ok(PhaseId::at(place)),
        None => Err(at.about(
            alloc,
            FaultName::UnknownPhase,
            "there is no phase ",
            name.as_str(),
        )),
    }
}

/// The stage with a name.
pub(crate) fn stage_named(
    alloc: Global,
    stages: &[StageMember],
    name: &Text,
    at: &At<'_>,
) -> Result<StageId, Unread> {
    match place_of(stages, name.as_str()) {
        Some(place) => Ok(StageId::at(place)),
        None => Err(at.about(
            alloc,
            FaultName::UnknownStage,
            "there is no stage ",
            name.as_str(),
        )),
    }
}

/// The spec with a name, by its place among specs in the sheet's order.
pub(crate) fn spec_named(
    alloc: Global,
    specs: &[&SpecMember],
    name: &Text,
    at: &At<'_>,
) -> Result<SpecId, Unread> {
    match spec_place(specs, name.as_str()) {
        Some(place) => Ok(SpecId::at(place)),
        None => Err(unknown_spec(alloc, name, at)),
    }
}

/// Why there is no spec with a name.
pub(crate) fn unknown_spec(alloc: Global, name: &Text, at: &At<'_>) -> Unread {
    at.about(
        alloc,
        FaultName::UnknownActive,
        "there is no spec of active players ",
        name.as_str(),
    )
}

fn spec_place(specs: &[&SpecMember], name: &str) -> Option<u8> {
    match specs.iter().position(|row| row.title.name.is(name)) {
        Some(place) => u8::try_from(place).ok(),
        None => None,
    }
}

/// The moves that a list names, if there is a list.
pub(crate) fn listed_moves(
    alloc: Global,
    moves: &[MoveMember],
    names: &Option<List<Text>>,
    at: &At<'_>,
) -> Result<Option<List<MoveId>>, Unread> {
    match names {
        None => Ok(None),
        Some(names) => Ok(Some(moves_named(alloc, moves, names.as_slice(), at)?)),
    }
}

fn moves_named(
    alloc: Global,
    moves: &[MoveMember],
    names: &[Text],
    at: &At<'_>,
) -> Result<List<MoveId>, Unread> {
    let mut ids = List::new(alloc);
    for name in names {
        ids.push(move_named(alloc, moves, name, at)?)?;
    }
    Ok(ids)
}

fn move_named(
    alloc: Global,
    moves: &[MoveMember],
    name: &Text,
    at: &At<'_>,
) -> Result<MoveId, Unread> {
    match place_of(moves, name.as_str()) {
        Some(place) => Ok(MoveId::at(place)),
        None => Err(at.about(
            alloc,
            FaultName::UnknownMove,
            "there is no move ",
            name.as_str(),
        )),
    }
}

/// All moves.
pub(crate) fn all_moves(alloc: Global, moves: &[MoveMember]) -> Result<List<MoveId>, Unread> {
    let mut ids = List::new(alloc);
    for (place, _) in moves.iter().enumerate() {
        if let Ok(place) = u8::try_from(place) {
            ids.push(MoveId::at(place))?;
        }
    }
    Ok(ids)
}
