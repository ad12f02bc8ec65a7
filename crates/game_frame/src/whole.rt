//! The frame of a whole file.

ghost use Rattle.std.specs.Prelude.{◌≡◌, IfOk};
ghost use Rattle.game_sheet.specs.SheetFits.{SheetFits};
ghost use Rattle.game_frame.specs.FrameFits.{FrameFits, SlotsFit};

use crate::actives::{ordered, spec_frames};
use crate::arguments::moves_of;
use crate::constants::{constants_of, rows_of};
use crate::frame::{Frame, FrameNames, FrameOrders, FrameSlots, MoveFrame, SlotFrame, SpecFrame};
use crate::hints::Hinted;
use crate::order::spec_order;
use crate::scores::scores_of;
use crate::sheet::sheet_of;
use crate::slots::{layout_of, slots_of};
use crate::turns::Around;
use crate::types::Known;
use game_file::{FileNames, GameFile, SpecMember, Unread};
use game_sheet::{List, Sheet};
use slot_json::Layout;
use std::alloc::Global;

/// What a file says but for its code. The first fault is told, in the order that the crate's head gives.
pub fn frame_of(alloc: Global, file: &GameFile) -> Result<Frame, Unread>
    ensures { IfOk result FrameFits }
{
    let known = Known {
        constants: file.names.constants.as_slice(),
        most_seats: file.head.seats.most,
    };
    let names = names_of(alloc, &file.names, &known)?;
    let layout = layout_of(alloc, &names.slots, file.head.seats.most)?;
    let play = hinted_play(alloc, file, &names.slots, &known)?;
    Ok(play.frame(names, layout))
}

/// What code can name.
fn names_of(alloc: Global, names: &FileNames, known: &Known<'_>) -> Result<FrameNames, Unread>
    ensures { IfOk result (λ names. SlotsFit known.now.most_seats names.slots) }
{
    let constants = constants_of(alloc, names.constants.as_slice())?;
    let rows = rows_of(alloc, names.constants.as_slice())?;
    let slots = slots_of(alloc, &names.slots, known)?;
    Ok(FrameNames {
        constants,
        rows,
        slots,
    })
}

/// What a frame has beside names and the rows of a state.
struct Play {
    scores: Option<u8>,
    moves: List<MoveFrame>,
    flow: Flow,
}

/// The sheet, and what its rows read from slots.
struct Flow {
    sheet: Sheet,
    orders: FrameOrders,
    specs: List<SpecFrame>,
}

impl Drop for Play {
    fn drop(self) {
        let Play {
            scores: _,
            moves,
            flow,
        } = self;
        drop(moves);
        drop(flow);
    }
}

impl Drop for Flow {
    fn drop(self) {
        let Flow {
            sheet,
            orders,
            specs,
        } = self;
        drop(sheet);
        drop(orders);
        drop(specs);
    }
}

impl Play {
    fn frame(self, names: FrameNames, layout: Layout) -> Frame
        ensures names { result.names ≡ names }
        ensures layout { result.layout ≡ layout }
        ensures sheet { result.sheet ≡ self.flow.sheet }
    {
        let Play {
            scores,
            moves,
            flow,
        } = self;
        flow.frame(names, layout, moves, scores)
    }
}

impl Flow {
    fn frame(
        self,
        names: FrameNames,
        layout: Layout,
        moves: List<MoveFrame>,
        scores: Option<u8>,
    ) -> Frame
        ensures names { result.names ≡ names }
        ensures layout { result.layout ≡ layout }
        ensures sheet { result.sheet ≡ self.sheet }
    {
        let Flow {
            sheet,
            orders,
            specs,
        } = self;
        Frame {
            sheet,
            layout,
            names,
            moves,
            orders,
            specs,
            scores,
        }
    }
}

/// What a frame has beside names, with hints for what is there.
fn hinted_play(
    alloc: Global,
    file: &GameFile,
    slots: &FrameSlots,
    known: &Known<'_>,
) -> Result<Play, Unread>
    ensures fits { IfOk result (λ play. SheetFits play.flow.sheet) }
    ensures seats { IfOk result (λ play. play.flow.sheet.max_seats ≡ file.now.head.seats.most) }
{
    let play = play_of(alloc, file, slots, known)?;
    match check_hints(alloc, file, slots, play.moves.as_slice()) {
        Ok(()) => Ok(play),
        Err(unread) => {
            drop(play);
            Err(unread)
        }
    }
}

fn check_hints(
    alloc: Global,
    file: &GameFile,
    slots: &FrameSlots,
    moves: &[MoveFrame],
) -> Result<(), Unread> {
    let hinted = Hinted {
        alloc,
        slots,
        members: file.flow.moves.as_slice(),
        moves,
    };
    hinted.check(file.hints.as_slice())
}

fn play_of(
    alloc: Global,
    file: &GameFile,
    slots: &FrameSlots,
    known: &Known<'_>,
) -> Result<Play, Unread>
    ensures fits { IfOk result (λ play. SheetFits play.flow.sheet) }
    ensures seats { IfOk result (λ play. play.flow.sheet.max_seats ≡ file.now.head.seats.most) }
{
    let scores = scores_of(alloc, &file.head.scores, slots.common.as_slice())?;
    let flow = flow_of(alloc, file, slots.common.as_slice())?;
    let moves = moves_of(alloc, file, &flow.sheet, known)?;
    Ok(Play {
        scores,
        moves,
        flow,
    })
}

fn flow_of(alloc: Global, file: &GameFile, common: &[SlotFrame]) -> Result<Flow, Unread>
    ensures fits { IfOk result (λ flow. SheetFits flow.sheet) }
    ensures seats { IfOk result (λ flow. flow.sheet.max_seats ≡ file.now.head.seats.most) }
{
    let specs = file.flow.tables.specs.as_slice();
    let order = spec_order(alloc, specs)?;
    let specs = ordered(alloc, specs, order.as_slice())?;
    flow_with(alloc, file, common, specs.as_slice())
}

fn flow_with(
    alloc: Global,
    file: &GameFile,
    common: &[SlotFrame],
    specs: &[&SpecMember],
) -> Result<Flow, Unread>
    ensures fits { IfOk result (λ flow. SheetFits flow.sheet) }
    ensures seats { IfOk result (λ flow. flow.sheet.max_seats ≡ file.now.head.seats.most) }
{
    let around = Around {
        alloc,
        common,
        specs,
        min_seats: file.head.seats.least,
    };
    let sheet = sheet_of(&around, file)?;
    let orders = around.orders(&file.flow)?;
    let specs = spec_frames(&around, file.flow.tables.stages.as_slice())?;
    Ok(Flow {
        sheet,
        orders,
        specs,
    })
}
