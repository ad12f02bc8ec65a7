//! The slots of a file, and the names and rows of a state.

ghost use Rattle.std.specs.Prelude.{◌≡◌, true, IfNone, IfOk};
ghost use Rattle.game_frame.specs.FrameFits.{AreSound, IsLayoutOf, LayoutFits, SlotsFit, is_sound, names_of, rows_of};

use crate::frame::{FrameSlots, SlotFrame, SlotType};
use crate::misfit::{At, tree_of};
use crate::types::{Known, TypeText};
use game_file::{FileSlots, SlotMember, Source, Unread};
use game_sheet::{List, NoMemory, Text};
use game_slots::{SlotRow, TableRows};
use game_syntax::{FaultName, Form, Tree};
use slot_json::{Layout, layout_fits, text_fits};
use std::alloc::Global;

/// The slots of each part.
pub(crate) fn slots_of(
    alloc: Global,
    slots: &FileSlots,
    known: &Known<'_>,
) -> Result<FrameSlots, Unread>
    ensures { IfOk result (SlotsFit known.now.most_seats) }
{
    let common = part_of(alloc, slots.common.as_slice(), known)?;
    let players = part_of(alloc, slots.players.as_slice(), known)?;
    let secret = part_of(alloc, slots.secret.as_slice(), known)?;
    let work = part_of(alloc, slots.work.as_slice(), known)?;
    Ok(FrameSlots {
        common,
        players,
        secret,
        work,
    })
}

fn part_of(
    alloc: Global,
    members: &[SlotMember],
    known: &Known<'_>,
) -> Result<List<SlotFrame>, Unread>
    ensures { IfOk result (AreSound known.now.most_seats) }
{
    let mut slots = List::new(alloc);
    for member in members {
        slots.push(slot_of(alloc, member, known)?)?;
    }
    Ok(slots)
}

fn slot_of(alloc: Global, member: &SlotMember, known: &Known<'_>) -> Result<SlotFrame, Unread>
    ensures { IfOk result (λ frame. is_sound known.now.most_seats frame.slot.row ≡ true) }
{
    let slot = type_of(alloc, &member.source, known)?;
    let name = member.name.copy(alloc)?;
    Ok(SlotFrame { name, slot })
}

fn type_of(alloc: Global, source: &Source, known: &Known<'_>) -> Result<SlotType, Unread>
    ensures { IfOk result (λ slot. is_sound known.now.most_seats slot.row ≡ true) }
{
    let tree = tree_of(alloc, Form::Slot, source)?;
    let slot = type_in(alloc, source, &tree, known);
    drop(tree);
    slot
}

fn type_in(
    alloc: Global,
    source: &Source,
    tree: &Tree,
    known: &Known<'_>,
) -> Result<SlotType, Unread>
    ensures { IfOk result (λ slot. is_sound known.now.most_seats slot.row ≡ true) }
{
    let text = TypeText {
        text: source.text.as_str(),
        tree,
        known: *known,
    };
    match text.slot(tree.root) {
        Ok(slot) => Ok(slot),
        Err(misfit) => Err(misfit.told(alloc, source)),
    }
}

/// The names and rows of a state. The text of a state has at most 8,192 bytes.
pub(crate) fn layout_of(alloc: Global, slots: &FrameSlots, most_seats: u8) -> Result<Layout, Unread>
    ensures fits { IfOk result LayoutFits }
    ensures same_rows { IfOk result (IsLayoutOf slots.now) }
    ensures seats { IfOk result (λ layout. layout.rows.most_seats ≡ most_seats) }
{
    let layout = layout_made(alloc, slots, most_seats)?;
    match layout_fault(alloc, &layout) {
        None => Ok(layout),
        Some(fault) => {
            drop(layout);
            Err(fault)
        }
    }
}

/// Why names and rows are none of a state, if they are none.
fn layout_fault(alloc: Global, layout: &Layout) -> Option<Unread>
    ensures { IfNone result (LayoutFits layout.now) }
{
    let whole = At::whole("");
    if !layout_fits(layout) {
        return Some(whole.fault(
            alloc,
            FaultName::BadName,
            "names of slots have letters, digits and `_`",
        ));
    }
    if !text_fits(layout) {
        return Some(whole.fault(
            alloc,
            FaultName::StateTooLong,
            "a state is a text of more than 8,192 bytes: make lists shorter, ranges smaller, or texts fewer",
        ));
    }
    None
}

fn layout_made(alloc: Global, slots: &FrameSlots, most_seats: u8) -> Result<Layout, NoMemory>
    ensures same_rows { IfOk result (IsLayoutOf slots.now) }
    ensures seats { IfOk result (λ layout. layout.rows.most_seats ≡ most_seats) }
{
    let rows = table_rows(alloc, slots, most_seats)?;
    let common = names(alloc, slots.common.as_slice())?;
    let players = names(alloc, slots.players.as_slice())?;
    let secret = names(alloc, slots.secret.as_slice())?;
    Ok(Layout {
        rows,
        common,
        players,
        secret,
    })
}

fn table_rows(alloc: Global, slots: &FrameSlots, most_seats: u8) -> Result<TableRows, NoMemory>
    ensures common { IfOk result (λ rows. rows.common ≡ rows_of slots.now.common) }
    ensures players { IfOk result (λ rows. rows.players ≡ rows_of slots.now.players) }
    ensures secret { IfOk result (λ rows. rows.secret ≡ rows_of slots.now.secret) }
    ensures seats { IfOk result (λ rows. rows.most_seats ≡ most_seats) }
{
    let common = rows(alloc, slots.common.as_slice())?;
    let players = rows(alloc, slots.players.as_slice())?;
    let secret = rows(alloc, slots.secret.as_slice())?;
    Ok(TableRows {
        common,
        players,
        secret,
        most_seats,
    })
}

fn rows(alloc: Global, slots: &[SlotFrame]) -> Result<List<SlotRow>, NoMemory>
    ensures { IfOk result (λ rows. rows ≡ rows_of slots.now) }
{
    let mut rows = List::new(alloc);
    for frame in slots {
        rows.push(frame.slot.row)?;
    }
    Ok(rows)
}

fn names(alloc: Global, slots: &[SlotFrame]) -> Result<List<Text>, NoMemory>
    ensures { IfOk result (λ names. names ≡ names_of slots.now) }
{
    let mut names = List::new(alloc);
    for frame in slots {
        names.push(frame.name.copy(alloc)?)?;
    }
    Ok(names)
}
