//! Moves after which a turn ends by itself.

ghost use Rattle.std.specs.Prelude.{◌≡◌};
ghost use Rattle.game_frame.specs.EndsTurn.{counts, ends_in_phase, ends_outside, ends_turn, has_first, has_last, has_one_move, is_listed, is_one, may_be_outside, moves_in, turn_in};

use game_sheet::{List, MoveId, PhaseRow, Sheet, TurnRow};

/// Whether a turn ends by itself after this move, so that an `endTurn` in what the move does would end a second one:
/// the move counts, and it is one of a phase, or of the sheet outside of phases, whose turn has one move and no active players.
pub fn ends_turn(sheet: &Sheet, id: MoveId) -> bool
    ensures { result ≡ ends_turn sheet.now id }
{
    counts(sheet, id) && (ends_outside(sheet, id) || ends_in_phase(sheet, id))
}

/// Whether a move counts toward limits.
fn counts(sheet: &Sheet, id: MoveId) -> bool
    ensures { result ≡ counts sheet.now id }
{
    match sheet.moves.get(usize::from(id.place())) {
        Some(row) => !row.no_limit,
        None => false,
    }
}

fn has_one_move(turn: &TurnRow) -> bool
    ensures { result ≡ has_one_move turn.now }
{
    is_one(turn.max_moves) && turn.active.is_none()
}

fn is_one(most: Option<u32>) -> bool
    ensures { result ≡ is_one most }
{
    match most {
        Some(most) => most == 1,
        None => false,
    }
}

fn is_listed(moves: &List<MoveId>, id: MoveId) -> bool
    ensures { result ≡ is_listed moves.now id }
{
    moves
        .as_slice()
        .iter()
        .any(|listed| listed.place() == id.place())
}

/// Whether a match may stand outside of phases, and its turn there ends after this move.
fn ends_outside(sheet: &Sheet, id: MoveId) -> bool
    ensures { result ≡ ends_outside sheet.now id }
{
    has_one_move(&sheet.turn)
        && is_listed(&sheet.base, id)
        && may_be_outside(sheet.phases.as_slice())
}

/// Whether no phase is the first, or one has none behind it.
fn may_be_outside(phases: &[PhaseRow]) -> bool
    ensures { result ≡ may_be_outside phases.now }
{
    !has_first(phases) || has_last(phases)
}

/// Whether a match begins in a phase.
fn has_first(phases: &[PhaseRow]) -> bool
    ensures { result ≡ has_first phases.now }
{
    phases.iter().any(|row| row.start)
}

/// Whether a phase has none behind it.
fn has_last(phases: &[PhaseRow]) -> bool
    ensures { result ≡ has_last phases.now }
{
    phases.iter().any(|row| row.next.is_none())
}

/// Whether the turn of a phase ends after this move.
fn ends_in_phase(sheet: &Sheet, id: MoveId) -> bool
    ensures { result ≡ ends_in_phase sheet.now id }
{
    sheet.phases.as_slice().iter().any(|row| has_one_move(turn_in(sheet, row))
        && is_listed(moves_in(sheet, row), id))
}

/// The turn in a phase.
fn turn_in<'a>(sheet: &'a Sheet, row: &'a PhaseRow) -> &'a TurnRow
    ensures { result.now ≡ turn_in sheet.now row.now }
{
    match &row.turn {
        Some(turn) => turn,
        None => &sheet.turn,
    }
}

/// The moves in a phase.
fn moves_in<'a>(sheet: &'a Sheet, row: &'a PhaseRow) -> &'a List<MoveId>
    ensures { result.now ≡ moves_in sheet.now row.now }
{
    match &row.moves {
        Some(moves) => moves,
        None => &sheet.base,
    }
}
