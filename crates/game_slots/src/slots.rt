//! The slots of one part of a state.

ghost use Rattle.std.specs.Prelude.{◌≡◌, ◌↔◌, IfOk, IsTrue, OnOk, length, option_copied, slice_get};
ghost use Rattle.game_slots.specs.Slots.{begun_with, slot_begun, slots_changed, slots_started};

use crate::items::Items;
use crate::rows::{Change, SlotRow};
use game_sheet::NoMemory;
use slot_values::Value;
use std::alloc::Global;
use std::marker::Model;

/// A list of slots.
pub struct Slots {
    items: Vec<Items>,
}

impl Drop for Slots {
    fn drop(self) {
        let Slots { items } = self;
        drop(items);
    }
}

impl Model for Slots {
    ghost use Rattle.std.specs.Prelude.{List, Option};
    ghost use Rattle.game_sheet.specs.declared.args.Arg.{Arg};

    ghost Value = { List (List (Option Arg)) };

    ghost view = { λ s. s.items.items };
}

impl Slots {
    /// These slots.
    pub fn from_vec(items: Vec<Items>) -> Self
        ensures { result ≡ items.items }
    {
        Slots { items }
    }

    /// The slots in order.
    pub fn as_slice(&self) -> &[Items]
        ensures { result.now ≡ self.now }
    {
        self.items.as_slice()
    }

    /// The items of a slot; none where there is no such slot.
    pub fn get(&self, slot: u8) -> Option<&Items>
        ensures { option_copied result ≡ slice_get self.now slot }
    {
        self.items.as_slice().get(usize::from(slot))
    }

    /// The slots as they start, in a match of so many seats.
    pub fn start(alloc: Global, rows: &[SlotRow], seats: u8) -> Result<Self, NoMemory>
        ensures { IfOk result (λ slots. slots ≡ slots_started rows.now seats) }
    {
        let mut items = Vec::new(alloc);
        for row in rows {
            items.push(start_items(alloc, row, seats)?)?;
        }
        Ok(Slots { items })
    }

    /// Changes a slot as its row lets it be; where there is no such row or slot, all stay as they were.
    pub fn change(&mut self, rows: &[SlotRow], slot: u8, change: &Change) -> Result<(), NoMemory>
        ensures { OnOk result (self.new ≡ slots_changed rows.now slot change.now self.old) }
    {
        change_in(&mut self.items, rows, usize::from(slot), change)
    }

    /// A slot begins anew: so many items of one value, as its row says.
    pub fn begin(
        &mut self,
        rows: &[SlotRow],
        slot: u8,
        seats: u8,
        value: &Value,
    ) -> Result<(), NoMemory>
        ensures { OnOk result (self.new ≡ slot_begun rows.now slot seats value.now self.old) }
    {
        begin_in(&mut self.items, rows, usize::from(slot), seats, value)
    }

    /// Whether the slots are the same.
    pub fn same(&self, other: &Slots) -> bool
        ensures { IsTrue result ↔ (self.now ≡ other.now) }
    {
        self.items.len() == other.items.len()
            && same_slots(self.items.as_slice(), other.items.as_slice())
    }

    /// Equal slots.
    pub fn copy(&self, alloc: Global) -> Result<Self, NoMemory>
        ensures { IfOk result (λ copied. copied ≡ self.now) }
    {
        let mut items = Vec::new(alloc);
        for slot in self.items.as_slice() {
            items.push(slot.copy(alloc)?)?;
        }
        Ok(Slots { items })
    }
}

fn start_items(alloc: Global, row: &SlotRow, seats: u8) -> Result<Items, NoMemory>
    ensures { IfOk result (λ items. items ≡ begun_with row.now.begin seats row.now.start) }
{
    let mut items = Items::new(alloc);
    items.begin(row.begin, seats, &row.start)?;
    Ok(items)
}

fn change_in(
    slots: &mut Vec<Items>,
    rows: &[SlotRow],
    slot: usize,
    change: &Change,
) -> Result<(), NoMemory>
    ensures { OnOk result (slots.new.items ≡ slots_changed rows.now slot change.now slots.old.items) }
{
    let Some(row) = rows.get(slot) else {
        return Ok(());
    };
    if slot < slots.len() {
        slots[slot].change(row, change)
    } else {
        Ok(())
    }
}

fn begin_in(
    slots: &mut Vec<Items>,
    rows: &[SlotRow],
    slot: usize,
    seats: u8,
    value: &Value,
) -> Result<(), NoMemory>
    ensures { OnOk result (slots.new.items ≡ slot_begun rows.now slot seats value.now slots.old.items) }
{
    let Some(row) = rows.get(slot) else {
        return Ok(());
    };
    if slot < slots.len() {
        slots[slot].begin(row.begin, seats, value)
    } else {
        Ok(())
    }
}

/// Whether the slots are the same, of which there are as many.
fn same_slots(one: &[Items], other: &[Items]) -> bool
    requires { length one.now ≡ length other.now }
    ensures { IsTrue result ↔ (one.now ≡ other.now) }
{
    for (place, item) in one.iter().enumerate() {
        if !item.same(&other[place]) {
            return false;
        }
    }
    true
}
