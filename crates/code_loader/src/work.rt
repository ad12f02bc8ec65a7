//! Slots of work of a piece, without the values that they start with: they are empty until they begin.

use game_sheet::{Arg, List, NoMemory, Short};
use game_slots::{Count, ItemKind, SlotRow};
use slot_values::Value;
use std::alloc::Global;

/// A slot of work.
#[derive(Clone, Copy)]
pub(crate) struct WorkRow {
    kind: ItemKind,
    null: bool,
    begin: Count,
    most: u16,
    lone: bool,
    /// Its place among the file's, if it is one of these.
    pub(crate) origin: Option<u8>,
}

impl WorkRow {
    /// What a row says.
    pub(crate) fn of(row: &SlotRow, origin: Option<u8>) -> WorkRow {
        WorkRow {
            kind: row.kind,
            null: row.null,
            begin: row.begin,
            most: row.most,
            lone: row.lone,
            origin,
        }
    }

    /// The row, with a start.
    fn with(&self, start: Value) -> SlotRow {
        SlotRow {
            kind: self.kind,
            null: self.null,
            start,
            begin: self.begin,
            most: self.most,
            lone: self.lone,
        }
    }

    /// A value that it may hold.
    fn start(&self) -> Value {
        if self.null {
            return None;
        }
        match self.kind {
            ItemKind::Number { least, greatest } => Some(Arg::Whole(nearest(least, greatest))),
            ItemKind::Text => Some(Arg::Text(Short::of(b"")?)),
        }
    }
}

/// The number of a range that is nearest to 0.
fn nearest(least: i32, greatest: i32) -> i32 {
    if least > 0 {
        least
    } else if greatest < 0 {
        greatest
    } else {
        0
    }
}

/// The rows of the slots of work of a piece.
pub(crate) fn rows_of(alloc: Global, work: &[WorkRow]) -> Result<List<SlotRow>, NoMemory> {
    let mut rows = List::new(alloc);
    for row in work {
        add_row(&mut rows, row, row.start())?;
    }
    Ok(rows)
}

/// Adds the row of a slot of work with a start.
fn add_row(rows: &mut List<SlotRow>, work: &WorkRow, start: Value) -> Result<(), NoMemory> {
    rows.push(work.with(start))
}
