//! Bytes of a file, read.

ghost use Rattle.std.specs.Prelude.{IfOk};
ghost use Rattle.game_file.specs.FileFits.{FileFits, FlowFits, HeadFits, MovesFit, NamesFit, SlotsFit, TablesFit};

use crate::ends::ends;
use crate::file::{FileEnd, FileFlow, FileHead, FileNames, FileSlots, FlowTables, GameFile};
use crate::head::{game_name, seat_counts};
use crate::members::Members;
use crate::moves::MoveMember;
use crate::rows::rows;
use crate::taken::check_names;
use crate::turns::turn;
use crate::unread::Unread;
use game_sheet::List;
use game_syntax::{Fault, FaultName, place_in};
use std::alloc::{AllocError, Global};
use toml::Table;

static MEMBERS: [&str; 23] = [
    "game",
    "seats",
    "about",
    "hidden",
    "scores",
    "const",
    "common",
    "players",
    "secret",
    "work",
    "fun",
    "proc",
    "setup",
    "base",
    "moves",
    "turn",
    "phases",
    "stages",
    "activePlayers",
    "events",
    "endIf",
    "onEnd",
    "show",
];

/// The greatest count of slots of a part.
const MOST_SLOTS: usize = 64;

/// The greatest count of moves.
const MOST_MOVES: usize = 64;

/// The greatest count of phases, of stages and of specs.
const MOST_ROWS: usize = 16;

/// What the bytes of a file say.
pub fn read_file(alloc: Global, bytes: &[u8]) -> Result<GameFile, Unread>
    ensures { IfOk result FileFits }
{
    let table = match toml::table_from_slice(alloc, bytes) {
        Ok(table) => table,
        Err(error) => return Err(bad_toml(alloc, bytes, &error)),
    };
    let file = read_table(alloc, &table);
    drop(table);
    file
}

/// The fault of bytes that are no TOML.
fn bad_toml(alloc: Global, bytes: &[u8], error: &toml::de::Error) -> Unread {
    match error.span() {
        None => Unread::NoMemory,
        Some(span) => match toml_fault(alloc, bytes, span.start, error.message()) {
            Ok(fault) => Unread::Fault(fault),
            Err(_) => Unread::NoMemory,
        },
    }
}

fn toml_fault(alloc: Global, bytes: &[u8], at: usize, words: &str) -> Result<Fault, AllocError> {
    let words = String::from_str(alloc, words)?;
    Ok(Fault {
        name: FaultName::BadToml,
        path: String::new(alloc),
        place: Some(place_in(bytes, at)),
        words,
    })
}

/// The members of the whole.
fn file_members(alloc: Global, table: &Table) -> Result<Members<'_>, Unread> {
    Members::known(alloc, table, "", &MEMBERS)
}

fn read_table(alloc: Global, table: &Table) -> Result<GameFile, Unread>
    ensures { IfOk result FileFits }
{
    let members = file_members(alloc, table)?;
    let head = head(alloc, &members)?;
    let names = names(alloc, &members)?;
    let flow = flow(alloc, &members)?;
    let end = end(alloc, &members)?;
    let hints = rows(alloc, &members, "show", usize::MAX)?;
    check_names(alloc, &names)?;
    Ok(GameFile {
        head,
        names,
        flow,
        end,
        hints,
    })
}

fn head(alloc: Global, members: &Members<'_>) -> Result<FileHead, Unread>
    ensures { IfOk result HeadFits }
{
    let game = game_name(alloc, members)?;
    let seats = seat_counts(alloc, members)?;
    members.is_text(alloc, "about")?;
    let hidden = members.is(alloc, "hidden")?;
    let scores = members.text(alloc, "scores")?;
    Ok(FileHead {
        game,
        seats,
        hidden,
        scores,
    })
}

fn names(alloc: Global, members: &Members<'_>) -> Result<FileNames, Unread>
    ensures { IfOk result NamesFit }
{
    let constants = rows(alloc, members, "const", usize::MAX)?;
    let slots = slots(alloc, members)?;
    let functions = rows(alloc, members, "fun", usize::MAX)?;
    let procedures = rows(alloc, members, "proc", usize::MAX)?;
    Ok(FileNames {
        constants,
        slots,
        functions,
        procedures,
    })
}

fn slots(alloc: Global, members: &Members<'_>) -> Result<FileSlots, Unread>
    ensures { IfOk result SlotsFit }
{
    let common = rows(alloc, members, "common", MOST_SLOTS)?;
    let players = rows(alloc, members, "players", MOST_SLOTS)?;
    let secret = rows(alloc, members, "secret", MOST_SLOTS)?;
    let work = rows(alloc, members, "work", MOST_SLOTS)?;
    Ok(FileSlots {
        common,
        players,
        secret,
        work,
    })
}

fn flow(alloc: Global, members: &Members<'_>) -> Result<FileFlow, Unread>
    ensures { IfOk result FlowFits }
{
    let setup = members.code(alloc, "setup")?;
    let base = members.names(alloc, "base")?;
    let moves = moves(alloc, members)?;
    let turn = turn(alloc, members)?;
    let tables = tables(alloc, members)?;
    Ok(FileFlow {
        setup,
        base,
        moves,
        turn,
        tables,
    })
}

fn tables(alloc: Global, members: &Members<'_>) -> Result<FlowTables, Unread>
    ensures { IfOk result TablesFit }
{
    let phases = rows(alloc, members, "phases", MOST_ROWS)?;
    let stages = rows(alloc, members, "stages", MOST_ROWS)?;
    let specs = rows(alloc, members, "activePlayers", MOST_ROWS)?;
    Ok(FlowTables {
        phases,
        stages,
        specs,
    })
}

/// The moves, at least one.
fn moves(alloc: Global, members: &Members<'_>) -> Result<List<MoveMember>, Unread>
    ensures { IfOk result MovesFit }
{
    let moves = rows(alloc, members, "moves", MOST_MOVES)?;
    if moves.is_empty() {
        return Err(members.fault(alloc, FaultName::TooFew, "moves", "a game has a move"));
    }
    Ok(moves)
}

fn end(alloc: Global, members: &Members<'_>) -> Result<FileEnd, Unread> {
    let events = members.names(alloc, "events")?;
    let ends = ends(alloc, members)?;
    let on_end = members.code(alloc, "onEnd")?;
    Ok(FileEnd {
        events,
        ends,
        on_end,
    })
}
