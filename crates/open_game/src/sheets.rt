//! Sheets: one without a row, and that of a game of turns without phases, stages and secrets.

ghost use Rattle.std.specs.Prelude.{◌≡◌, IfOk, OnOk, map};
ghost use Rattle.open_game.specs.Sheets.{blank_sheet, ordinary, turns_sheet};

use game_sheet::{EventKind, List, MoveId, MoveRow, NoMemory, Order, Sheet, Text, TurnRow};
use std::alloc::Global;

/// The row of a move that is shown to all, counts toward each limit and may be guessed.
pub fn make_ordinary(alloc: Global, name: &str) -> Result<MoveRow, NoMemory>
    ensures { IfOk result (λ row. row ≡ ordinary name.now) }
{
    Ok(MoveRow {
        name: Text::from_str(alloc, name)?,
        redact: false,
        client: true,
        no_limit: false,
        ignore_stale: false,
    })
}

/// Rows of moves with these names, which are shown to all, count toward each limit and may be guessed.
fn make_moves(alloc: Global, names: &[&str]) -> Result<List<MoveRow>, NoMemory>
    ensures { IfOk result (λ rows. rows ≡ map ordinary (map (λ name. name.now) names.now)) }
{
    let mut rows = List::new(alloc);
    for name in names {
        rows.push(make_ordinary(alloc, name)?)?;
    }
    Ok(rows)
}

/// The sheet of a game of turns: from the least to the greatest number of seats, with moves of these names that are shown to all,
/// count toward each limit and may be guessed; each turn has one of the moves in the base list up to a greatest number, where there
/// is one; players may ask for these events.
pub fn turns_sheet(
    alloc: Global,
    name: &str,
    least: u8,
    greatest: u8,
    moves: &[&str],
    base: &[MoveId],
    max_moves: Option<u32>,
    events: &[EventKind],
) -> Result<Sheet, NoMemory>
    ensures { IfOk result (λ made. made ≡ turns_sheet name.now least greatest (map (λ name. name.now) moves.now) base.now max_moves events.now) }
{
    let turn = TurnRow {
        order: Order::Default,
        min_moves: 1,
        max_moves,
        active: None,
    };
    let mut sheet = blank_sheet(alloc, name, least, greatest, turn)?;
    match fill_sheet(alloc, &mut sheet, moves, base, events) {
        Ok(()) => Ok(sheet),
        Err(NoMemory) => {
            drop(sheet);
            Err(NoMemory)
        }
    }
}

/// Gives a sheet these moves and events.
fn fill_sheet(
    alloc: Global,
    sheet: &mut Sheet,
    moves: &[&str],
    base: &[MoveId],
    events: &[EventKind],
) -> Result<(), NoMemory>
    ensures { OnOk result (sheet.new ≡ record sheet.old { moves = map ordinary (map (λ name. name.now) moves.now); base = base.now; events = events.now }) }
{
    sheet.moves = make_moves(alloc, moves)?;
    sheet.base = List::from_slice(alloc, base)?;
    sheet.events = List::from_slice(alloc, events)?;
    Ok(())
}

/// A sheet without a row, of a game for the least to the greatest number of seats and with these turns.
pub fn blank_sheet(
    alloc: Global,
    name: &str,
    least: u8,
    greatest: u8,
    turn: TurnRow,
) -> Result<Sheet, NoMemory>
    ensures { IfOk result (λ made. made ≡ blank_sheet name.now least greatest turn) }
{
    match Text::from_str(alloc, name) {
        Ok(name) => Ok(Sheet {
            name,
            min_seats: least,
            max_seats: greatest,
            moves: List::new(alloc),
            base: List::new(alloc),
            turn,
            phases: List::new(alloc),
            stages: List::new(alloc),
            specs: List::new(alloc),
            events: List::new(alloc),
        }),
        Err(error) => {
            drop(turn);
            Err(error)
        }
    }
}
