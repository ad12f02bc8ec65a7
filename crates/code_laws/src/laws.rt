//! What holds of all code. There is nothing to run.

ghost use Rattle.std.specs.Prelude.{◌≡◌, ◌+◌, ◌≤◌, true, length, ℕ, Some, List as Items, Option as Maybe};
ghost use Rattle.code_laws.specs.Counts.{DrawsAtMost, QueuesAtMost, code_in_sheet, events_of, words_of};
ghost use Rattle.code_laws.specs.Sight.{reads_own};
ghost use Rattle.game_code.specs.Meaning.{value_of};
ghost use Rattle.game_code.specs.Runs.{performed};
ghost use Rattle.game_code.specs.Setting.{Setting};
ghost use Rattle.game_sheet.specs.declared.args.Arg.{Arg};
ghost use Rattle.game_slots.specs.Slots.{SlotLists};
ghost use Rattle.game_slots.specs.Tables.{strip, table_fits};
ghost use Rattle.game_slots.specs.declared.table.Table.{Table};
ghost use Rattle.game_trait.specs.Lawful.{GivesOwn};
ghost use Rattle.game_trait.specs.Queues.{QueuesInSheet};

use game_code::{Expression, Piece};
use game_sheet::{Seat, Sheet};
use game_slots::Table;

/// An expression that reads what the seat that moves sees has the same value in that seat's view of a state as in the state.
pub fn same_in_view(expression: &Expression, table: &Table, seat: Seat)
    requires { reads_own expression.now ≡ true }
    ensures { (s : Setting) (work : SlotLists) (locals : Items (Maybe Arg)) → s.seat ≡ Some seat → value_of expression.now s (strip table.now (Some seat)) work locals ≡ value_of expression.now s table.now work locals }
{}

/// A piece of code leaves a state within its rows.
pub fn code_keeps_bounds(piece: &Piece)
    ensures { (s : Setting) (table : Table) (words : Items ℕ) → table_fits s.rows table ≡ true → GivesOwn (table_fits s.rows) (performed piece.now s table words) }
{}

/// A piece of code that names rows of a sheet alone queues no others.
pub fn code_keeps_to_sheet(piece: &Piece, sheet: &Sheet)
    requires { code_in_sheet sheet.now piece.now.code ≡ true }
    ensures { (s : Setting) (table : Table) (words : Items ℕ) → QueuesInSheet sheet.now (performed piece.now s table words) }
{}

/// A piece of code that is counted to queue at most sixteen events queues no more than are counted, and is never crowded.
pub fn code_queues_as_counted(piece: &Piece)
    requires { events_of piece.now.code ≤ 16 }
    ensures { (s : Setting) (table : Table) (words : Items ℕ) → QueuesAtMost 0 (events_of piece.now.code) (performed piece.now s table words) }
{}

/// A piece of code draws at most as many words as are counted, and is spent only where fewer are left.
pub fn code_draws_as_counted(piece: &Piece)
    ensures { (s : Setting) (table : Table) (words : Items ℕ) → DrawsAtMost (length words) (words_of piece.now.code) (performed piece.now s table words) }
{}
