//! Turns, phases and ends of a game.

use code_loader::{CodedEnd, CodedEnds, CodedPhase, CodedTurn};
use described_game::{EndCode, EndKind, PhaseCode, TurnCode};
use game_file::EndKind as FileKind;
use game_sheet::{List, NoMemory};
use std::alloc::Global;

/// A turn, with the slot of its play order.
pub(crate) fn turn_code(coded: CodedTurn, order: Option<u8>) -> TurnCode {
    let CodedTurn {
        on_begin,
        on_end,
        on_move,
        end_if,
        cost: _,
    } = coded;
    TurnCode {
        on_begin,
        on_end,
        on_move,
        end_if,
        order,
    }
}

/// The phases, in the order of the sheet, with the slots of their play orders.
pub(crate) fn phase_codes(
    alloc: Global,
    coded: Vec<CodedPhase>,
    orders: &[Option<u8>],
) -> Result<List<PhaseCode>, NoMemory> {
    let mut phases = List::new(alloc);
    for (place, row) in coded.into_iter().enumerate() {
        let order = orders.get(place).copied().unwrap_or(None);
        phases.push(phase_code(row, order))?;
    }
    Ok(phases)
}

fn phase_code(coded: CodedPhase, order: Option<u8>) -> PhaseCode {
    let CodedPhase {
        turn,
        on_begin,
        on_end,
        end_if,
        cost: _,
    } = coded;
    PhaseCode {
        turn: own_turn(turn, order),
        on_begin,
        on_end,
        end_if,
    }
}

fn own_turn(coded: Option<CodedTurn>, order: Option<u8>) -> Option<TurnCode> {
    match coded {
        Some(coded) => Some(turn_code(coded, order)),
        None => None,
    }
}

/// The ends, in the order of the file.
pub(crate) fn end_codes(alloc: Global, coded: CodedEnds) -> Result<List<EndCode>, NoMemory> {
    let CodedEnds { ends, steps: _ } = coded;
    let mut codes = List::new(alloc);
    for row in ends {
        codes.push(end_code(row))?;
    }
    Ok(codes)
}

fn end_code(coded: CodedEnd) -> EndCode {
    let CodedEnd { kind, value } = coded;
    EndCode {
        kind: kind_of(kind),
        value,
    }
}

fn kind_of(kind: FileKind) -> EndKind {
    match kind {
        FileKind::Winner => EndKind::Winner,
        FileKind::Draw => EndKind::Draw,
        FileKind::Ended => EndKind::Ended,
    }
}
