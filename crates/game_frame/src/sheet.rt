//! The sheet of a game.

ghost use Rattle.std.specs.Prelude.{◌≡◌, IfOk};
ghost use Rattle.game_sheet.specs.SheetFits.{SheetFits};

use crate::actives::spec_rows;
use crate::misfit::At;
use crate::phases::{phase_rows, stage_rows};
use crate::rows::{all_moves, listed_moves};
use crate::turns::Around;
use game_file::{FileFlow, GameFile, MoveMember, Seats, Unread};
use game_sheet::{
    EventKind, List, MoveId, MoveRow, NoMemory, PhaseRow, Sheet, SpecRow, StageRow, Text, TurnRow,
    check_sheet,
};
use game_syntax::FaultName;
use std::alloc::Global;

/// What a sheet has beside its name, its seats and its table of moves.
struct Play {
    base: List<MoveId>,
    turn: TurnRow,
    tables: Tables,
    events: List<EventKind>,
}

/// The tables of a sheet beside that of moves.
struct Tables {
    phases: List<PhaseRow>,
    stages: List<StageRow>,
    specs: List<SpecRow>,
}

/// The moves of a sheet, its name, and how many seats there are.
struct Head {
    name: Text,
    moves: List<MoveRow>,
    seats: Seats,
}

impl Drop for Play {
    fn drop(self) {
        let Play {
            base,
            turn,
            tables,
            events,
        } = self;
        drop(base);
        drop(turn);
        drop(tables);
        drop(events);
    }
}

impl Drop for Tables {
    fn drop(self) {
        let Tables {
            phases,
            stages,
            specs,
        } = self;
        drop(phases);
        drop(stages);
        drop(specs);
    }
}

impl Drop for Head {
    fn drop(self) {
        let Head {
            name,
            moves,
            seats: _,
        } = self;
        drop(name);
        drop(moves);
    }
}

impl Play {
    fn sheet(self, head: Head) -> Sheet
        ensures { result.max_seats ≡ head.seats.most }
    {
        let Play {
            base,
            turn,
            tables,
            events,
        } = self;
        tables.sheet(head, base, turn, events)
    }
}

impl Tables {
    fn sheet(self, head: Head, base: List<MoveId>, turn: TurnRow, events: List<EventKind>) -> Sheet
        ensures { result.max_seats ≡ head.seats.most }
    {
        let Tables {
            phases,
            stages,
            specs,
        } = self;
        let (name, moves, seats) = head.parts();
        Sheet {
            name,
            min_seats: seats.least,
            max_seats: seats.most,
            moves,
            base,
            turn,
            phases,
            stages,
            specs,
            events,
        }
    }
}

impl Head {
    fn parts(self) -> (Text, List<MoveRow>, Seats)
        ensures { result.2 ≡ self.seats }
    {
        let Head { name, moves, seats } = self;
        (name, moves, seats)
    }
}

/// The sheet, which breaks no rule.
pub(crate) fn sheet_of(around: &Around<'_>, file: &GameFile) -> Result<Sheet, Unread>
    ensures fits { IfOk result SheetFits }
    ensures seats { IfOk result (λ sheet. sheet.max_seats ≡ file.now.head.seats.most) }
{
    let play = play_of(around, file)?;
    let sheet = made(around.alloc, file, play)?;
    match check_sheet(&sheet) {
        Ok(()) => Ok(sheet),
        Err(fault) => {
            drop(sheet);
            Err(broken(around.alloc, fault.rule))
        }
    }
}

/// Why a sheet that breaks a rule is none. What a file says is looked at more closely before.
fn broken(alloc: Global, rule: u8) -> Unread {
    let (member, name) = rule_member(rule);
    At::whole(member).fault(alloc, name, "the sheet breaks a rule of sheets")
}

/// The member that a rule is about, and the name of its fault.
fn rule_member(rule: u8) -> (&'static str, FaultName) {
    match rule {
        1 => ("game", FaultName::BadName),
        2 => ("seats", FaultName::BadSeats),
        3 => ("moves", FaultName::TooMany),
        4 => ("phases", FaultName::TooMany),
        5 => ("stages", FaultName::TooMany),
        6 => ("base", FaultName::UnknownMove),
        7 => ("phases", FaultName::TwoStarts),
        8 => ("turn", FaultName::BadLimits),
        9 => ("turn", FaultName::BadOrder),
        _ => ("activePlayers", FaultName::BadLimits),
    }
}

/// The sheet with its name and its moves.
fn made(alloc: Global, file: &GameFile, play: Play) -> Result<Sheet, NoMemory>
    ensures { IfOk result (λ sheet. sheet.max_seats ≡ file.now.head.seats.most) }
{
    match head_of(alloc, file) {
        Ok(head) => Ok(play.sheet(head)),
        Err(NoMemory) => {
            drop(play);
            Err(NoMemory)
        }
    }
}

fn head_of(alloc: Global, file: &GameFile) -> Result<Head, NoMemory>
    ensures { IfOk result (λ head. head.seats ≡ file.now.head.seats) }
{
    let moves = move_rows(alloc, file.flow.moves.as_slice())?;
    let name = file.head.game.copy(alloc)?;
    Ok(Head {
        name,
        moves,
        seats: file.head.seats,
    })
}

fn move_rows(alloc: Global, members: &[MoveMember]) -> Result<List<MoveRow>, NoMemory> {
    let mut rows = List::new(alloc);
    for member in members {
        rows.push(move_row(alloc, member)?)?;
    }
    Ok(rows)
}

fn move_row(alloc: Global, member: &MoveMember) -> Result<MoveRow, NoMemory> {
    let name = member.title.name.copy(alloc)?;
    let says = member.says;
    Ok(MoveRow {
        name,
        redact: says.redact.unwrap_or(false),
        client: says.client.unwrap_or(true),
        no_limit: says.no_limit,
        ignore_stale: says.ignore_stale,
    })
}

fn play_of(around: &Around<'_>, file: &GameFile) -> Result<Play, Unread> {
    let base = base_of(around.alloc, &file.flow)?;
    let turn = around.turn(&file.flow.turn)?;
    let tables = tables_of(around, &file.flow)?;
    let events = events_of(around.alloc, &file.end.events)?;
    Ok(Play {
        base,
        turn,
        tables,
        events,
    })
}

fn tables_of(around: &Around<'_>, flow: &FileFlow) -> Result<Tables, Unread> {
    let phases = phase_rows(around, flow)?;
    let stages = stage_rows(around, flow)?;
    let specs = spec_rows(around, flow.tables.stages.as_slice())?;
    Ok(Tables {
        phases,
        stages,
        specs,
    })
}

/// The moves that a seat has where its stage and the phase say nothing.
fn base_of(alloc: Global, flow: &FileFlow) -> Result<List<MoveId>, Unread> {
    let moves = flow.moves.as_slice();
    match listed_moves(alloc, moves, &flow.base, &At::whole("base"))? {
        Some(base) => Ok(base),
        None => all_moves(alloc, moves),
    }
}

/// The events that players may raise.
fn events_of(alloc: Global, names: &Option<List<Text>>) -> Result<List<EventKind>, Unread> {
    match names {
        None => Ok(List::new(alloc)),
        Some(names) => events_named(alloc, names.as_slice()),
    }
}

fn events_named(alloc: Global, names: &[Text]) -> Result<List<EventKind>, Unread> {
    let mut events = List::new(alloc);
    for name in names {
        events.push(event_named(alloc, name)?)?;
    }
    Ok(events)
}

fn event_named(alloc: Global, name: &Text) -> Result<EventKind, Unread> {
    match EventKind::named(name.as_str()) {
        Some(kind) => Ok(kind),
        None => Err(At::whole("events").about(
            alloc,
            FaultName::UnknownEvent,
            "endTurn, endPhase, setPhase, endStage, setStage or endGame is wanted, and not ",
            name.as_str(),
        )),
    }
}
