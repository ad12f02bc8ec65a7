//! What may stand in a slot, and the first state.

ghost use Rattle.std.specs.Prelude.{◌≡◌, IfOk, Some, replicate};
ghost use Rattle.game_sheet.specs.Short.{is_short};
ghost use Rattle.game_slots.specs.Slots.{argument_fits, count_in, slots_started, value_fits};
ghost use Rattle.game_slots.specs.Tables.{players_started, secret_started, started};

use crate::players::Players;
use crate::rows::{Count, ItemKind, SlotRow, TableRows};
use crate::slots::Slots;
use crate::table::Table;
use game_sheet::{Arg, NoMemory, Short};
use slot_values::Value;
use std::alloc::Global;

/// Whether a value may stand in a slot.
pub fn value_fits(row: &SlotRow, value: &Value) -> bool
    ensures { result ≡ value_fits row.now value.now }
{
    match value {
        Some(argument) => argument_fits(&row.kind, argument),
        None => row.null,
    }
}

fn argument_fits(kind: &ItemKind, argument: &Arg) -> bool
    ensures { result ≡ argument_fits kind.now argument.now }
{
    match (kind, argument) {
        (ItemKind::Number { least, greatest }, Arg::Whole(number)) => {
            *least <= *number && *number <= *greatest
        }
        (ItemKind::Text, Arg::Text(text)) => is_short(text),
        _ => false,
    }
}

/// Whether a slot can hold a text, as it can each short one.
fn is_short(text: &Short) -> bool
    ensures { result ≡ is_short text.now }
{
    let _text = text.as_str();
    true
}

/// How many items there are in a match of so many seats.
pub(crate) fn count_in(count: Count, seats: u8) -> u32
    ensures { result ≡ count_in count seats }
{
    match count {
        Count::Fixed(count) => u32::from(count),
        Count::PerSeat(count) => u32::from(count) * u32::from(seats),
    }
}

/// The first state of a match of so many seats: each slot as it starts.
pub fn started(alloc: Global, rows: &TableRows, seats: u8) -> Result<Table, NoMemory>
    ensures { IfOk result (λ table. table ≡ started rows.now seats) }
{
    let common = Slots::start(alloc, rows.common.as_slice(), seats)?;
    let players = players_started(alloc, rows.players.as_slice(), seats)?;
    let secret = secret_started(alloc, rows.secret.as_slice(), seats)?;
    Ok(Table {
        common,
        players,
        secret,
    })
}

fn players_started(alloc: Global, rows: &[SlotRow], seats: u8) -> Result<Players, NoMemory>
    ensures { IfOk result (λ players. players ≡ players_started rows.now seats) }
{
    if rows.is_empty() {
        return Ok(Players::from_vec(Vec::new(alloc)));
    }
    alike(alloc, rows, seats)
}

/// Equal slots for each seat.
fn alike(alloc: Global, rows: &[SlotRow], seats: u8) -> Result<Players, NoMemory>
    ensures { IfOk result (λ players. players ≡ replicate seats (Some (slots_started rows.now seats))) }
{
    let mut entries = Vec::new(alloc);
    for _ in 0..seats {
        entries.push(Some(Slots::start(alloc, rows, seats)?))?;
    }
    Ok(Players::from_vec(entries))
}

fn secret_started(alloc: Global, rows: &[SlotRow], seats: u8) -> Result<Option<Slots>, NoMemory>
    ensures { IfOk result (λ secret. secret ≡ secret_started rows.now seats) }
{
    if rows.is_empty() {
        return Ok(None);
    }
    Ok(Some(Slots::start(alloc, rows, seats)?))
}
