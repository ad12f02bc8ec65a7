//! What isn't code and the code, joined to what a game is made of.

use crate::moves::Around;
use crate::turns::{end_codes, phase_codes, turn_code};
use code_loader::{CodedPiece, FileCode};
use described_game::{EndCode, GameParts, MoveCode, PhaseCode, TurnCode};
use game_code::Piece;
use game_file::GameFile;
use game_frame::{Frame, with_clients};
use game_sheet::{List, NoMemory, Sheet};
use game_slots::Slots;
use slot_json::Layout;
use std::alloc::Global;

/// The code of a game, as its parts have it.
#[derive(Drop)]
pub(crate) struct Codes {
    setup: Piece,
    moves: List<MoveCode>,
    turn: TurnCode,
    phases: List<PhaseCode>,
    ends: List<EndCode>,
    on_end: Piece,
    /// Whether a client may guess each move.
    guesses: Vec<bool>,
}

/// The code of a file whose frame is given.
pub(crate) fn codes_of(
    alloc: Global,
    file: &GameFile,
    frame: &Frame,
    code: FileCode,
) -> Result<Codes, NoMemory> {
    let around = Around {
        alloc,
        members: file.flow.moves.as_slice(),
        frames: frame.moves.as_slice(),
        most_seats: frame.sheet.max_seats,
        is_open: code.is_open,
    };
    let guesses = around.guesses(code.moves.as_slice());
    let FileCode {
        setup,
        moves,
        turn,
        phases,
        ends,
        on_end,
        is_open: _,
        nodes: _,
    } = code;
    let moves = around.move_codes(moves);
    let phases = phase_codes(alloc, phases, frame.orders.phases.as_slice());
    let ends = end_codes(alloc, ends);
    let once = Once {
        setup: piece_of(setup),
        turn: turn_code(turn, frame.orders.turn),
        on_end: piece_of(on_end),
    };
    once.with(guesses, moves, phases, ends)
}

/// The code of a game of which there is one each.
#[derive(Drop)]
struct Once {
    setup: Piece,
    turn: TurnCode,
    on_end: Piece,
}

impl Once {
    fn with(
        self,
        guesses: Result<Vec<bool>, NoMemory>,
        moves: Result<List<MoveCode>, NoMemory>,
        phases: Result<List<PhaseCode>, NoMemory>,
        ends: Result<List<EndCode>, NoMemory>,
    ) -> Result<Codes, NoMemory> {
        let guesses = guesses?;
        let moves = moves?;
        let phases = phases?;
        let ends = ends?;
        let Once {
            setup,
            turn,
            on_end,
        } = self;
        Ok(Codes {
            setup,
            moves,
            turn,
            phases,
            ends,
            on_end,
            guesses,
        })
    }
}

fn piece_of(piece: CodedPiece) -> Piece {
    let CodedPiece { piece, cost: _ } = piece;
    piece
}

/// What a game is made of, of its code and the rest.
pub(crate) fn parts_of(
    alloc: Global,
    sheet: Sheet,
    layout: Layout,
    constants: Slots,
    codes: Codes,
) -> Result<GameParts, NoMemory> {
    let Codes {
        setup,
        moves,
        turn,
        phases,
        ends,
        on_end,
        guesses,
    } = codes;
    let sheet = with_clients(alloc, sheet, guesses.as_slice())?;
    Ok(GameParts {
        sheet,
        layout,
        constants,
        setup,
        moves,
        turn,
        phases,
        ends,
        on_end,
    })
}
