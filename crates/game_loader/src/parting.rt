//! What isn't code, taken out of its frame.

use game_frame::Frame;
use game_sheet::{List, NoMemory, Order, Sheet, Text, TurnRow};
use game_slots::{Slots, TableRows};
use slot_json::Layout;
use std::alloc::Global;
use std::mem::replace;

/// What a game takes from a frame.
#[derive(Drop)]
pub(crate) struct FrameParts {
    pub(crate) sheet: Sheet,
    pub(crate) layout: Layout,
    /// The items of constants.
    pub(crate) rows: Slots,
    pub(crate) scores: Option<u8>,
}

/// What a game takes from a frame, whose other parts are dropped.
pub(crate) fn parted(alloc: Global, frame: Frame) -> Result<FrameParts, NoMemory> {
    let mut frame = frame;
    let sheet = replace(&mut frame.sheet, no_sheet(alloc)?);
    let layout = replace(&mut frame.layout, no_layout(alloc));
    let rows = replace(&mut frame.names.rows, Slots::from_vec(Vec::new(alloc)));
    let scores = frame.scores;
    drop(frame);
    Ok(FrameParts {
        sheet,
        layout,
        rows,
        scores,
    })
}

/// A sheet of nothing, which stands where one was taken out.
fn no_sheet(alloc: Global) -> Result<Sheet, NoMemory> {
    let name = Text::from_str(alloc, "")?;
    Ok(Sheet {
        name,
        min_seats: 0,
        max_seats: 0,
        moves: List::new(alloc),
        base: List::new(alloc),
        turn: TurnRow {
            order: Order::Default,
            min_moves: 0,
            max_moves: None,
            active: None,
        },
        phases: List::new(alloc),
        stages: List::new(alloc),
        specs: List::new(alloc),
        events: List::new(alloc),
    })
}

/// A layout of nothing, which stands where one was taken out.
fn no_layout(alloc: Global) -> Layout {
    Layout {
        rows: TableRows {
            common: List::new(alloc),
            players: List::new(alloc),
            secret: List::new(alloc),
            most_seats: 0,
        },
        common: List::new(alloc),
        players: List::new(alloc),
        secret: List::new(alloc),
    }
}
