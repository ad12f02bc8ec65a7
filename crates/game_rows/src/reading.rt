//! What the members of a row say.

ghost use Rattle.std.specs.Prelude.{◌≤◌, ◌<◌, IfOk, IfSome, length};

use crate::fault::{RowFault, RowNo};
use crate::function::Function;
use dice_words::Tape;
use game_sheet::{Args, MoveId, PhaseId, Seat, Sheet};
use game_trait::Game;
use json_tree::{FieldFault, list_of, natural_of, text_of};
use serde_json::Value;
use sheet_json::{args_of, seat_or_null_of};
use std::alloc::Global;

/// The function that a row asks.
pub(crate) fn function_of(row: &Value) -> Result<Function, RowFault> {
    match text_of(row, "f") {
        Ok(name) => match Function::named(name) {
            Some(function) => Ok(function),
            None => Err(RowFault::NoFunction),
        },
        Err(_) => Err(RowFault::NoFunction),
    }
}

/// The whole number of a member, from 0 to a greatest one; another number where there is no such member.
pub(crate) fn number_of(
    value: &Value,
    name: &str,
    otherwise: u64,
    most: u64,
) -> Result<u64, FieldFault>
    requires { otherwise ≤ most }
    ensures { IfOk result (λ number. number ≤ most) }
{
    match natural_of(value, name, most) {
        Ok(number) => Ok(number),
        Err(FieldFault::Missing) => Ok(otherwise),
        Err(fault) => Err(fault),
    }
}

/// The state of a row.
pub(crate) fn state_of<X: Game>(alloc: Global, game: &X, row: &Value) -> Result<X::G, RowNo> {
    let Some(member) = row.get("g") else {
        return Err(RowNo::Fault(RowFault::NoState));
    };
    match game.from_value(alloc, member)? {
        Some(g) => Ok(g),
        None => Err(RowNo::Fault(RowFault::NoState)),
    }
}

/// The seat of a row.
pub(crate) fn seat_of(row: &Value) -> Result<Seat, RowFault> {
    match number_of(row, "seat", 0, 15) {
        Ok(seat) => Ok(seat as u8),
        Err(_) => Err(RowFault::BadSeat),
    }
}

/// Who looks; none for a spectator.
pub(crate) fn viewer_of(row: &Value) -> Result<Option<Seat>, RowFault> {
    match seat_or_null_of(row, "viewer") {
        Ok(viewer) => Ok(viewer),
        Err(FieldFault::Missing) => Ok(None),
        Err(_) => Err(RowFault::BadSeat),
    }
}

/// The move of a row, which is one of the sheet's.
pub(crate) fn move_of(sheet: &Sheet, row: &Value) -> Result<MoveId, RowFault>
    requires { length sheet.now.moves ≤ 64 }
    ensures { IfOk result (λ id. id < length sheet.now.moves) }
{
    let Ok(name) = text_of(row, "move") else {
        return Err(RowFault::NoMove);
    };
    match sheet.move_named(name) {
        Some(id) if (id.place() as usize) < sheet.moves.len() => Ok(id),
        _ => Err(RowFault::NoMove),
    }
}

/// The arguments of a row.
pub(crate) fn arguments_of(row: &Value) -> Result<Args, RowFault> {
    match list_of(row, "args") {
        Ok(items) => match args_of(items) {
            Some(args) => Ok(args),
            None => Err(RowFault::BadArgs),
        },
        Err(FieldFault::Missing) => Ok(Args::new()),
        Err(_) => Err(RowFault::BadArgs),
    }
}

/// The phase that a member names or whose place it gives; none where it is null or there is no such member.
pub(crate) fn phase_of(
    sheet: &Sheet,
    value: &Value,
    name: &str,
) -> Result<Option<PhaseId>, RowFault>
    requires { length sheet.now.phases ≤ 16 }
{
    match value.get(name) {
        None => Ok(None),
        Some(member) => match member {
            Value::Null => Ok(None),
            Value::String(text) => named_phase(sheet, text.as_str()),
            _ => placed_phase(sheet, member),
        },
    }
}

fn named_phase(sheet: &Sheet, name: &str) -> Result<Option<PhaseId>, RowFault>
    requires { length sheet.now.phases ≤ 16 }
{
    match sheet.phase_named(name) {
        Some(phase) => Ok(Some(phase)),
        None => Err(RowFault::NoPhase),
    }
}

fn placed_phase(sheet: &Sheet, member: &Value) -> Result<Option<PhaseId>, RowFault>
    requires { length sheet.now.phases ≤ 16 }
{
    match member.as_u64() {
        Some(place) if place < sheet.phases.len() as u64 => Ok(Some(PhaseId::at(place as u8))),
        _ => Err(RowFault::NoPhase),
    }
}

/// The random words of a row: none, or those of its seed.
///
/// A tape has no words but those of a seed today. Words that are given one by one will be read here.
pub(crate) fn tape_of(row: &Value) -> Result<Tape, RowFault> {
    match row.get("seed") {
        Some(member) => match member.as_str() {
            Some(digits) => live_tape(row, digits),
            None => Err(RowFault::BadSeed),
        },
        None => blank_tape(row),
    }
}

fn live_tape(row: &Value, digits: &str) -> Result<Tape, RowFault> {
    let Ok(place) = number_of(row, "place", 0, u64::MAX) else {
        return Err(RowFault::BadSeed);
    };
    match seed_of(digits.as_bytes()) {
        Some(seed) => Ok(Tape::live(seed, 0, place)),
        None => Err(RowFault::BadSeed),
    }
}

fn blank_tape(row: &Value) -> Result<Tape, RowFault> {
    match list_of(row, "words") {
        Ok(words) if words.is_empty() => Ok(Tape::blank()),
        Err(FieldFault::Missing) => Ok(Tape::blank()),
        _ => Err(RowFault::GivenWords),
    }
}

/// The seed of 64 hexadecimal digits.
fn seed_of(digits: &[u8]) -> Option<[u8; 32]> {
    if digits.len() != 64 {
        return None;
    }
    let mut seed = [0; 32];
    for place in 0..32 {
        let (Some(high), Some(low)) = (digit(digits[2 * place]), digit(digits[2 * place + 1]))
        else {
            return None;
        };
        seed[place] = 16 * high + low;
    }
    Some(seed)
}

/// What a hexadecimal digit stands for.
fn digit(byte: u8) -> Option<u8>
    ensures { IfSome result (λ value. value < 16) }
{
    match byte {
        b'0'..=b'9' => Some(byte - b'0'),
        b'a'..=b'f' => Some(byte - b'a' + 10),
        _ => None,
    }
}
