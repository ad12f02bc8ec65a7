//! Which moves a client may guess, once their code is known.

ghost use Rattle.std.specs.Prelude.{◌≡◌, IfOk};
ghost use Rattle.game_frame.specs.FrameFits.{move_names};

use game_sheet::{List, MoveRow, NoMemory, Sheet};
use std::alloc::Global;

/// The sheet where a client may guess those moves whose flag is true; of moves without a flag all stays as it was.
pub fn with_clients(alloc: Global, sheet: Sheet, flags: &[bool]) -> Result<Sheet, NoMemory>
    ensures same { IfOk result (λ guessed. record guessed { moves = sheet.moves } ≡ sheet) }
    ensures moves { IfOk result (λ guessed. move_names guessed.moves ≡ move_names sheet.moves) }
{
    match guessed_rows(alloc, sheet.moves.as_slice(), flags) {
        Ok(rows) => Ok(with_moves(sheet, rows)),
        Err(NoMemory) => {
            drop(sheet);
            Err(NoMemory)
        }
    }
}

fn with_moves(sheet: Sheet, rows: List<MoveRow>) -> Sheet
    ensures { result ≡ record sheet { moves = rows } }
{
    let mut sheet = sheet;
    sheet.moves = rows;
    sheet
}

fn guessed_rows(alloc: Global, moves: &[MoveRow], flags: &[bool]) -> Result<List<MoveRow>, NoMemory>
    ensures { IfOk result (λ rows. move_names rows ≡ move_names moves.now) }
{
    let mut rows = List::new(alloc);
    for (place, row) in moves.iter().enumerate() {
        let client = flags.get(place).copied().unwrap_or(row.client);
        rows.push(guessed_row(alloc, row, client)?)?;
    }
    Ok(rows)
}

fn guessed_row(alloc: Global, row: &MoveRow, client: bool) -> Result<MoveRow, NoMemory>
    ensures { IfOk result (λ guessed. guessed ≡ record row.now { client = client }) }
{
    let name = row.name.copy(alloc)?;
    Ok(MoveRow {
        name,
        redact: row.redact,
        client,
        no_limit: row.no_limit,
        ignore_stale: row.ignore_stale,
    })
}
