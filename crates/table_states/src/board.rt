//! The board of tic-tac-toe.

ghost use Rattle.std.specs.Prelude.{◌≡◌, ◌≤◌, IfOk, length, slice_get};
ghost use Rattle.std.specs.List.{list_any};
ghost use Rattle.table_states.specs.Board.{click, empty, free_clicks, has_line, holds, is_full, is_of, winner};

use game_sheet::{Args, List, MoveId, NoMemory, Seat};
use json_tree::extra_field;
use open_game::{State, list_at, list_value, object_of_one, offer_number, write_list};
use serde_json::Value;
use std::alloc::Global;

/// The eight lines of three cells: rows, columns and diagonals.
const LINES: [[usize; 3]; 8] = [
    [0, 1, 2],
    [3, 4, 5],
    [6, 7, 8],
    [0, 3, 6],
    [1, 4, 7],
    [2, 5, 8],
    [0, 4, 8],
    [2, 4, 6],
];

/// Nine cells, row by row, each free or a seat's.
#[derive(Drop)]
pub struct Board {
    /// Who holds each cell.
    pub cells: [Option<Seat>; 9],
}

impl State for Board {
    ghost use Rattle.table_states.specs.StateForms.{board_form, board_laws};

    ghost form = { board_form };

    ghost form_laws = { board_laws };

    fn to_value(&self, alloc: Global) -> Result<Value, NoMemory> {
        let cells = list_value(alloc, &self.cells)?;
        Ok(object_of_one(alloc, "cells", cells)?)
    }

    #[tactic(auto, unfolding(json::specs::Print::escape_byte))]
    fn write(&self, alloc: Global, out: &mut Vec<u8>) -> Result<(), NoMemory> {
        out.extend_from_slice(b"{\"cells\":")?;
        write_list(out, &self.cells)?;
        out.push(b'}')?;
        Ok(())
    }

    fn from_value(alloc: Global, v: &Value) -> Result<Option<Board>, NoMemory> {
        if extra_field(v, &["cells"]) {
            return Ok(None);
        }
        match list_at::<Option<Seat>>(alloc, v, "cells", 9, 9, 1)? {
            Some(cells) => Ok(Some(Board::of(cells.as_slice()))),
            None => Ok(None),
        }
    }

    fn same(&self, other: &Board) -> bool {
        self.cells == other.cells
    }

    fn copy(&self, alloc: Global) -> Result<Board, NoMemory> {
        Ok(Board { cells: self.cells })
    }
}

impl Board {
    /// The board with every cell free.
    pub fn new() -> Self
        ensures { result ≡ empty }
    {
        Board { cells: [None; 9] }
    }

    /// The board of these nine cells.
    fn of(cells: &[Option<Seat>]) -> Board
        requires { length cells.now ≡ 9 }
        ensures { result ≡ record { cells = cells.now } }
    {
        let mut copied = [None; 9];
        copied.copy_from_slice(cells);
        Board { cells: copied }
    }

    /// The board with one more cell of a seat; none where the place is no free cell or the seat doesn't play.
    pub fn click(&self, seat: Seat, place: usize) -> Option<Board>
        ensures { result ≡ click self.now seat place }
    {
        if seat >= 2 || place >= 9 || self.cells[place].is_some() {
            return None;
        }
        let mut cells = self.cells;
        cells[place] = Some(seat);
        Some(Board { cells })
    }

    /// The least seat with a line.
    pub fn winner(&self) -> Option<Seat>
        ensures { result ≡ winner self.now }
    {
        if self.has_line(0) {
            Some(0)
        } else if self.has_line(1) {
            Some(1)
        } else {
            None
        }
    }

    /// Whether no cell is free.
    pub fn is_full(&self) -> bool
        ensures { result ≡ is_full self.now }
    {
        self.cells.iter().all(|cell| cell.is_some())
    }

    /// A click on each free cell, as moves that are offered.
    pub fn free_clicks(&self, alloc: Global) -> Result<List<(MoveId, Args)>, NoMemory>
        ensures { IfOk result (λ offers. offers ≡ free_clicks 0 self.now.cells) }
    {
        clicks_on(alloc, &self.cells)
    }

    /// Whether a seat holds the three cells of a line.
    #[tactic(auto, unfolding(crate::specs::Board::has_line))]
    fn has_line(&self, seat: Seat) -> bool
        ensures { result ≡ has_line self.now seat }
    {
        self.has_one_of(seat, &LINES)
    }

    /// Whether a seat holds the cells of one of these lines.
    fn has_one_of(&self, seat: Seat, lines: &[[usize; 3]]) -> bool
        ensures { result ≡ list_any (holds self.now seat) lines.now }
    {
        lines.iter().any(|line| self.holds(seat, line))
    }

    /// Whether a seat holds each cell of a line.
    fn holds(&self, seat: Seat, line: &[usize]) -> bool
        ensures { result ≡ holds self.now seat line.now }
    {
        line.iter().all(|place| self.is_of(seat, *place))
    }

    /// Whether a cell is a seat's.
    fn is_of(&self, seat: Seat, place: usize) -> bool
        ensures { result ≡ is_of seat (slice_get self.now.cells place) }
    {
        match self.cells.get(place) {
            Some(Some(holder)) => *holder == seat,
            _ => false,
        }
    }
}

/// A click on each free cell of these.
fn clicks_on(alloc: Global, cells: &[Option<Seat>]) -> Result<List<(MoveId, Args)>, NoMemory>
    requires { length cells.now ≤ 9 }
    ensures { IfOk result (λ offers. offers ≡ free_clicks 0 cells.now) }
{
    let mut offers = List::new(alloc);
    for (place, cell) in cells.iter().enumerate() {
        if cell.is_none() {
            offers.push(offer_number(MoveId::at(0), place as i32))?;
        }
    }
    Ok(offers)
}
