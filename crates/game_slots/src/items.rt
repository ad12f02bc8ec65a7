//! The items of one slot.

ghost use Rattle.std.specs.Prelude.{◌≡◌, ◌<◌, ◌↔◌, ◌∷◌, ◌++◌, [], IfOk, IsTrue, OnOk, Some, length, slice_get, slice_index_or};
ghost use Rattle.game_slots.specs.Keeping.{kept_items};
ghost use Rattle.game_slots.specs.Slots.{begun_with, changed, item_in, least_items, length_of, place_in, swapped};
ghost use Rattle.game_slots.specs.declared.rows.Change.TheVariants.{Set, Push, Remove, Clear, Fill};

use crate::kept::{
    Kept, add, add_many, copied, empty, exchange, fill, get, item, len, place_in, put, same_items,
    take_out,
};
use crate::rows::{Change, Count, SlotRow};
use crate::starts::{count_in, value_fits};
use game_sheet::NoMemory;
use slot_values::{Number, Value};
use std::alloc::Global;
use std::marker::Model;

/// The items of a slot in order. A number or null takes 8 bytes; where a text is among them, each takes as much as a text may.
pub struct Items {
    kept: Kept,
}

impl Drop for Items {
    fn drop(self) {
        let Items { kept } = self;
        drop(kept);
    }
}

impl Model for Items {
    ghost use Rattle.std.specs.Prelude.{List, Option};
    ghost use Rattle.game_sheet.specs.declared.args.Arg.{Arg};
    ghost use Rattle.game_slots.specs.Keeping.{kept_items};

    ghost Value = { List (Option Arg) };

    ghost view = { λ i. kept_items i.kept };
}

impl Items {
    /// No items.
    pub fn new(alloc: Global) -> Self
        ensures { result ≡ [] }
    {
        Items {
            kept: Kept::Numbers(Vec::new(alloc)),
        }
    }

    /// How many items there are.
    pub fn len(&self) -> usize
        ensures { result ≡ length self.now }
    {
        len(&self.kept)
    }

    /// How many items there are; null where that isn't a number of 32 bits.
    pub fn count(&self) -> Number
        ensures { result ≡ length_of self.now }
    {
        let count = self.len();
        if count < 2_147_483_648 {
            Some(count as i32)
        } else {
            None
        }
    }

    /// The item at a place; null where there is no such place.
    pub fn get(&self, at: Number) -> Value
        ensures { result ≡ item_in self.now at }
    {
        get(&self.kept, at)
    }

    /// The item at a place that there is.
    pub fn item(&self, place: usize) -> Value
        requires { place < length self.now }
        ensures value { slice_get self.now place ≡ Some result }
        ensures indexed { result ≡ slice_index_or self.now place result }
    {
        item(&self.kept, place)
    }

    /// Adds a value at the end.
    pub fn push(&mut self, value: &Value) -> Result<(), NoMemory>
        ensures { OnOk result (self.new ≡ self.old ++ value.now ∷ []) }
    {
        add(&mut self.kept, value)
    }

    /// Begins anew: so many items of one value, in a match of so many seats.
    pub fn begin(&mut self, count: Count, seats: u8, value: &Value) -> Result<(), NoMemory>
        ensures { OnOk result (self.new ≡ begun_with count seats value.now) }
    {
        empty(&mut self.kept);
        add_many(&mut self.kept, count_in(count, seats), value)
    }

    /// Changes the items as the slot's row lets them be.
    pub fn change(&mut self, row: &SlotRow, change: &Change) -> Result<(), NoMemory>
        ensures { OnOk result (self.new ≡ changed row.now change.now self.old) }
    {
        match change {
            Change::Set(at, value) => set(&mut self.kept, row, *at, value),
            Change::Push(value) => push(&mut self.kept, row, value),
            Change::Remove(at) => {
                remove(&mut self.kept, row, *at);
                Ok(())
            }
            Change::Clear => {
                clear(&mut self.kept, row);
                Ok(())
            }
            Change::Fill(value) => fill_fitting(&mut self.kept, row, value),
            Change::Swap(one, other) => {
                swap(&mut self.kept, *one, *other);
                Ok(())
            }
        }
    }

    /// Whether the items are the same.
    pub fn same(&self, other: &Items) -> bool
        ensures { IsTrue result ↔ (self.now ≡ other.now) }
    {
        self.len() == other.len() && same_items(&self.kept, &other.kept)
    }

    /// Equal items.
    pub fn copy(&self, alloc: Global) -> Result<Self, NoMemory>
        ensures { IfOk result (λ copied. copied ≡ self.now) }
    {
        let kept = copied(&self.kept, alloc)?;
        Ok(Items { kept })
    }
}

fn set(kept: &mut Kept, row: &SlotRow, at: Number, value: &Value) -> Result<(), NoMemory>
    ensures { OnOk result (kept_items kept.new ≡ changed row.now (Set at value.now) (kept_items kept.old)) }
{
    match place_in(at, len(kept)) {
        Some(place) => {
            if value_fits(row, value) {
                put(kept, place, value)
            } else {
                Ok(())
            }
        }
        None => Ok(()),
    }
}

fn push(kept: &mut Kept, row: &SlotRow, value: &Value) -> Result<(), NoMemory>
    ensures { OnOk result (kept_items kept.new ≡ changed row.now (Push value.now) (kept_items kept.old)) }
{
    if len(kept) < usize::from(row.most) && value_fits(row, value) {
        add(kept, value)
    } else {
        Ok(())
    }
}

fn remove(kept: &mut Kept, row: &SlotRow, at: Number)
    ensures { kept_items kept.new ≡ changed row.now (Remove at) (kept_items kept.old) }
{
    if let Some(place) = place_in(at, len(kept)) {
        if least_items(row) < len(kept) {
            take_out(kept, place);
        }
    }
}

fn least_items(row: &SlotRow) -> usize
    ensures { result ≡ least_items row.now }
{
    if row.lone { 1 } else { 0 }
}

fn clear(kept: &mut Kept, row: &SlotRow)
    ensures { kept_items kept.new ≡ changed row.now Clear (kept_items kept.old) }
{
    if !row.lone {
        empty(kept);
    }
}

fn fill_fitting(kept: &mut Kept, row: &SlotRow, value: &Value) -> Result<(), NoMemory>
    ensures { OnOk result (kept_items kept.new ≡ changed row.now (Fill value.now) (kept_items kept.old)) }
{
    if value_fits(row, value) {
        fill(kept, value)
    } else {
        Ok(())
    }
}

fn swap(kept: &mut Kept, one: Number, other: Number)
    ensures { kept_items kept.new ≡ swapped (kept_items kept.old) (place_in one (length (kept_items kept.old))) (place_in other (length (kept_items kept.old))) }
{
    let count = len(kept);
    if let (Some(one), Some(other)) = (place_in(one, count), place_in(other, count)) {
        exchange(kept, one, other);
    }
}
