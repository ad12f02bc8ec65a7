//! What is held for each seat.

ghost use Rattle.std.specs.Prelude.{◌≡◌, ◌↔◌, IfOk, IsTrue, OnOk, length, option_copied};
ghost use Rattle.game_slots.specs.Tables.{entries_changed, entry_at, has_seat, seen, seen_from, some_changed};

use crate::kept::place_in;
use crate::rows::{Change, SlotRow};
use crate::slots::Slots;
use game_sheet::{NoMemory, Seat};
use slot_values::Number;
use std::alloc::Global;
use std::marker::Model;

/// What each seat alone sees, in order of the seats; none where it is hidden.
pub struct Players {
    items: Vec<Option<Slots>>,
}

impl Drop for Players {
    fn drop(self) {
        let Players { items } = self;
        drop(items);
    }
}

impl Model for Players {
    ghost use Rattle.std.specs.Prelude.{List, Option};
    ghost use Rattle.game_sheet.specs.declared.args.Arg.{Arg};

    ghost Value = { List (Option (List (List (Option Arg)))) };

    ghost view = { λ p. p.items.items };
}

impl Players {
    /// These entries.
    pub fn from_vec(items: Vec<Option<Slots>>) -> Self
        ensures { result ≡ items.items }
    {
        Players { items }
    }

    /// The entries in order.
    pub fn as_slice(&self) -> &[Option<Slots>]
        ensures { result.now ≡ self.now }
    {
        self.items.as_slice()
    }

    /// What is held for a seat; none where it is hidden, or where there is no such seat.
    pub fn get(&self, seat: Number) -> Option<&Slots>
        ensures { option_copied result ≡ entry_at self.now seat }
    {
        entry_at(self.items.as_slice(), seat)
    }

    /// Changes a slot of a seat; where there is none, all stay as they were.
    pub fn change(
        &mut self,
        rows: &[SlotRow],
        seat: Number,
        slot: u8,
        change: &Change,
    ) -> Result<(), NoMemory>
        ensures { OnOk result (self.new ≡ entries_changed rows.now seat slot change.now self.old) }
    {
        change_entry(&mut self.items, rows, seat, slot, change)
    }

    /// What a viewer sees of them.
    pub fn seen_by(&self, alloc: Global, viewer: Option<Seat>) -> Result<Self, NoMemory>
        ensures { IfOk result (λ players. players ≡ seen_from viewer 0 self.now) }
    {
        seen_players(alloc, self.items.as_slice(), viewer)
    }

    /// Equal entries.
    pub fn copy(&self, alloc: Global) -> Result<Self, NoMemory>
        ensures { IfOk result (λ copied. copied ≡ self.now) }
    {
        let mut items = Vec::new(alloc);
        for entry in self.items.as_slice() {
            items.push(copy_entry(alloc, entry)?)?;
        }
        Ok(Players { items })
    }

    /// Whether the entries are the same.
    pub fn same(&self, other: &Players) -> bool
        ensures { IsTrue result ↔ (self.now ≡ other.now) }
    {
        self.items.len() == other.items.len()
            && same_lists(self.items.as_slice(), other.items.as_slice())
    }
}

fn entry_at(entries: &[Option<Slots>], seat: Number) -> Option<&Slots>
    ensures { option_copied result ≡ entry_at entries.now seat }
{
    match place_in(seat, entries.len()) {
        Some(place) => entries[place].as_ref(),
        None => None,
    }
}

/// An equal entry.
pub(crate) fn copy_entry(alloc: Global, entry: &Option<Slots>) -> Result<Option<Slots>, NoMemory>
    ensures { IfOk result (λ copied. copied ≡ entry.now) }
{
    match entry {
        Some(slots) => Ok(Some(slots.copy(alloc)?)),
        None => Ok(None),
    }
}

/// Whether two entries are the same.
pub(crate) fn same_entries(a: &Option<Slots>, b: &Option<Slots>) -> bool
    ensures { IsTrue result ↔ (a.now ≡ b.now) }
{
    match (a, b) {
        (Some(x), Some(y)) => x.same(y),
        (None, None) => true,
        _ => false,
    }
}

fn change_entry(
    entries: &mut Vec<Option<Slots>>,
    rows: &[SlotRow],
    seat: Number,
    slot: u8,
    change: &Change,
) -> Result<(), NoMemory>
    ensures { OnOk result (entries.new.items ≡ entries_changed rows.now seat slot change.now entries.old.items) }
{
    match place_in(seat, entries.len()) {
        Some(place) => change_some(&mut entries[place], rows, slot, change),
        None => Ok(()),
    }
}

/// Changes a slot, where there are slots.
pub(crate) fn change_some(
    entry: &mut Option<Slots>,
    rows: &[SlotRow],
    slot: u8,
    change: &Change,
) -> Result<(), NoMemory>
    ensures { OnOk result (entry.new ≡ some_changed rows.now slot change.now entry.old) }
{
    match entry {
        Some(slots) => slots.change(rows, slot, change),
        None => Ok(()),
    }
}

fn seen_players(
    alloc: Global,
    entries: &[Option<Slots>],
    viewer: Option<Seat>,
) -> Result<Players, NoMemory>
    ensures { IfOk result (λ players. players ≡ seen_from viewer 0 entries.now) }
{
    let mut items = Vec::new(alloc);
    for (seat, entry) in entries.iter().enumerate() {
        items.push(seen(alloc, viewer, seat, entry)?)?;
    }
    Ok(Players { items })
}

fn seen(
    alloc: Global,
    viewer: Option<Seat>,
    seat: usize,
    entry: &Option<Slots>,
) -> Result<Option<Slots>, NoMemory>
    ensures { IfOk result (λ shown. shown ≡ seen viewer seat entry.now) }
{
    if !has_seat(viewer, seat) {
        return Ok(None);
    }
    copy_entry(alloc, entry)
}

fn has_seat(viewer: Option<Seat>, seat: usize) -> bool
    ensures { result ≡ has_seat viewer seat }
{
    match viewer {
        Some(own) => usize::from(own) == seat,
        None => false,
    }
}

/// Whether the entries are the same, of which there are as many.
fn same_lists(one: &[Option<Slots>], other: &[Option<Slots>]) -> bool
    requires { length one.now ≡ length other.now }
    ensures { IsTrue result ↔ (one.now ≡ other.now) }
{
    for (place, item) in one.iter().enumerate() {
        if !same_entries(item, &other[place]) {
            return false;
        }
    }
    true
}
