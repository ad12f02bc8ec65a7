//! Tic-tac-toe for two seats.

use dice_words::Tape;
use game_sheet::{Arg, Args, EventQueue, List, MoveId, NoMemory, Outcome, Seat, Sheet};
use game_trait::Halt;
use open_game::{Open, OpenGame, only_natural, turns_sheet};
use std::alloc::Global;
use table_states::Board;

/// Tic-tac-toe: two seats click on free cells in turn, and a line of three wins.
pub type TicTacToe = Open<TicTacToeRules>;

/// The rules of tic-tac-toe.
#[derive(Drop)]
pub struct TicTacToeRules;

impl OpenGame for TicTacToeRules {
    ghost use Rattle.table_states.specs.TicTacToe.{tic_tac_toe};
    ghost use Rattle.table_states.proofs.TicTacToeLaws.{tic_tac_toe_laws};

    type G = Board;

    ghost rules = { tic_tac_toe };

    ghost laws = { tic_tac_toe_laws };

    /// One move, which ends the turn.
    fn make_sheet(alloc: Global) -> Result<Sheet, NoMemory> {
        let base = [MoveId::at(0)];
        turns_sheet(
            alloc,
            "tic-tac-toe",
            2,
            2,
            &["clickCell"],
            &base,
            Some(1),
            &[],
        )
    }

    fn opening(alloc: Global, seats: u8) -> Result<Board, NoMemory> {
        Ok(Board::new())
    }

    /// `clickCell` with the place of a free cell.
    fn play(
        alloc: Global,
        g: &Board,
        seat: Seat,
        id: MoveId,
        args: &[Arg],
        tape: &mut Tape,
        events: &mut EventQueue,
    ) -> Result<Board, Halt> {
        let Some(place) = only_natural(args) else {
            return Err(Halt::Invalid);
        };
        g.click(seat, place as usize).ok_or(Halt::Invalid)
    }

    /// The least seat with a line wins, and a full board without one is a draw.
    fn end_if(g: &Board) -> Option<Outcome> {
        match g.winner() {
            Some(seat) => Some(Outcome::Winner(seat)),
            None if g.is_full() => Some(Outcome::Draw),
            None => None,
        }
    }

    fn may_undo() -> bool {
        true
    }

    fn offers(alloc: Global, g: &Board, seat: Seat) -> Result<List<(MoveId, Args)>, NoMemory> {
        g.free_clicks(alloc)
    }
}
