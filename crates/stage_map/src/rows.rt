//! Rows of a map: where each active seat stands, and how many moves it has made there.

ghost use Rattle.std.specs.Prelude.{◌≡◌, ◌+◌, ◌++◌, ◌^◌, ◌<◌, IfOk, OnOk, map};
ghost use Rattle.stage_map.specs.Active.{row_of, shown_row};
ghost use Rattle.stage_map.specs.Rows.{above, below, put, without};

use game_sheet::{List, NoMemory, Seat, StageId};
use std::alloc::Global;

/// Where a seat stands on a map.
#[derive(Clone, Copy)]
pub struct Row {
    /// The seat.
    pub seat: Seat,
    /// Its stage, if any.
    pub stage: Option<StageId>,
    /// How many moves it has made there.
    pub count: u32,
    /// The least count at which the seat may end its stage.
    pub least: u32,
    /// The count at which its stage ends by itself.
    pub most: Option<u32>,
}

/// The row of a seat, if it is listed.
pub fn row_of(seat: Seat, rows: &[Row]) -> Option<Row>
    ensures { result ≡ row_of seat rows.now }
{
    for row in rows {
        if row.seat == seat {
            return Some(*row);
        }
    }
    None
}

/// The rows with this one in the place of its seat's.
pub fn put(alloc: Global, row: Row, rows: &[Row]) -> Result<List<Row>, NoMemory>
    ensures { IfOk result (λ list. list ≡ put row rows.now) }
{
    let seat = row.seat;
    let mut list = below(alloc, seat, rows)?;
    list.push(row)?;
    add_above(&mut list, seat, rows)?;
    Ok(list)
}

/// The rows without that of a seat.
pub fn without(alloc: Global, seat: Seat, rows: &[Row]) -> Result<List<Row>, NoMemory>
    ensures { IfOk result (λ list. list ≡ without seat rows.now) }
{
    let mut list = below(alloc, seat, rows)?;
    add_above(&mut list, seat, rows)?;
    Ok(list)
}

/// The rows of the seats before a seat.
fn below(alloc: Global, seat: Seat, rows: &[Row]) -> Result<List<Row>, NoMemory>
    ensures { IfOk result (λ list. list ≡ below seat rows.now) }
{
    let mut list = List::new(alloc);
    for row in rows {
        if row.seat < seat {
            list.push(*row)?;
        }
    }
    Ok(list)
}

/// Adds the rows of the seats after a seat.
fn add_above(list: &mut List<Row>, seat: Seat, rows: &[Row]) -> Result<(), NoMemory>
    ensures { OnOk result (list.new ≡ list.old ++ above seat rows.now) }
{
    for row in rows {
        if seat < row.seat {
            list.push(*row)?;
        }
    }
    Ok(())
}

/// What the context shows of rows: the seats with their stages.
pub fn shown_rows(alloc: Global, rows: &[Row]) -> Result<List<(Seat, Option<StageId>)>, NoMemory>
    ensures { IfOk result (λ list. list ≡ map shown_row rows.now) }
{
    let mut list = List::new(alloc);
    for row in rows {
        list.push((row.seat, row.stage))?;
    }
    Ok(list)
}
