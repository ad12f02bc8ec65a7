//! What a piece of code reads and changes: a state, and the slots that live while it runs.

ghost use Rattle.std.specs.Prelude.{◌≡◌, OnOk, option_copied};
ghost use Rattle.game_slots.specs.Tables.{items_at, slot_in, work_begun, work_table_changed};

use crate::items::Items;
use crate::players::change_some;
use crate::rows::{Change, SlotPlace, SlotRow, TableRows};
use crate::slots::Slots;
use crate::table::Table;
use game_sheet::NoMemory;
use slot_values::Value;

/// A state, and the slots of work of the code that runs on it.
pub struct WorkTable {
    /// The state.
    pub table: Table,
    /// The slots of work, which are no part of it.
    pub work: Slots,
}

impl Drop for WorkTable {
    fn drop(self) {
        let WorkTable { table, work } = self;
        drop(table);
        drop(work);
    }
}

impl WorkTable {
    /// Changes a slot as its row lets it be; where there is none, all stay as they were.
    pub fn change(
        &mut self,
        rows: &TableRows,
        work: &[SlotRow],
        place: SlotPlace,
        change: &Change,
    ) -> Result<(), NoMemory>
        ensures { OnOk result (self.new ≡ work_table_changed rows.now work.now place change.now self.old) }
    {
        match place {
            SlotPlace::Common(slot) => {
                self.table
                    .common
                    .change(rows.common.as_slice(), slot, change)
            }
            SlotPlace::Player(seat, slot) => {
                self.table
                    .players
                    .change(rows.players.as_slice(), seat, slot, change)
            }
            SlotPlace::Secret(slot) => change_some(
                &mut self.table.secret,
                rows.secret.as_slice(),
                slot,
                change,
            ),
            SlotPlace::Work(slot) => self.work.change(work, slot, change),
        }
    }

    /// The state alone.
    pub fn into_table(self) -> Table
        ensures { result ≡ self.table }
    {
        let WorkTable { table, work } = self;
        drop(work);
        table
    }

    /// A slot of work begins anew, each item with this value, in a match of so many seats.
    pub fn begin(
        &mut self,
        work: &[SlotRow],
        slot: u8,
        seats: u8,
        value: &Value,
    ) -> Result<(), NoMemory>
        ensures { OnOk result (self.new ≡ work_begun work.now slot seats value.now self.old) }
    {
        self.work.begin(work, slot, seats, value)
    }
}

/// The items of a slot of a state, or of the slots of work; none where they haven't it.
pub fn items_at<'a>(table: &'a Table, work: &'a [Items], place: SlotPlace) -> Option<&'a Items>
    ensures { option_copied result ≡ items_at table.now work.now place }
{
    match place {
        SlotPlace::Common(slot) => table.common.get(slot),
        SlotPlace::Player(seat, slot) => slot_in(table.players.get(seat), slot),
        SlotPlace::Secret(slot) => slot_in(table.secret.as_ref(), slot),
        SlotPlace::Work(slot) => work.get(usize::from(slot)),
    }
}

fn slot_in(slots: Option<&Slots>, slot: u8) -> Option<&Items>
    ensures { option_copied result ≡ slot_in (option_copied slots.entry) slot }
{
    match slots {
        Some(slots) => slots.get(slot),
        None => None,
    }
}
