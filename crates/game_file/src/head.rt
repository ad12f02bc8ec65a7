//! What stands at the head of a file.

ghost use Rattle.std.specs.Prelude.{◌≡◌, ◌≤◌, true, IfOk, IfSome};
ghost use Rattle.game_sheet.specs.SheetRules.{is_game_letter, is_name};
ghost use Rattle.game_file.specs.FileFits.{SeatsFit};

use crate::members::Members;
use crate::names::is_game_name;
use crate::unread::Unread;
use game_sheet::{MOST_SEATS, Text};
use game_syntax::FaultName;
use std::alloc::Global;
use toml::Value;

/// How many seats a match may have.
#[derive(Clone, Copy)]
pub struct Seats {
    /// The least count, from 1.
    pub least: u8,
    /// The greatest count, up to 16.
    pub most: u8,
}

/// The game's name.
pub(crate) fn game_name(alloc: Global, members: &Members<'_>) -> Result<Text, Unread>
    ensures { IfOk result (λ name. is_name is_game_letter name ≡ true) }
{
    match members.table.get("game") {
        None => Err(members.fault(alloc, FaultName::MissingMember, "game", "")),
        Some(Value::String(name)) if is_game_name(name.as_str()) => Ok(Text::from_str(
            alloc,
            name.as_str(),
        )?),
        Some(Value::String(_)) => Err(members.fault(
            alloc,
            FaultName::BadName,
            "game",
            "a game's name has 1 to 32 lower-case letters, digits and dashes",
        )),
        Some(_) => Err(members.fault(alloc, FaultName::BadType, "game", "a text is wanted")),
    }
}

/// How many seats a match may have: a number, or the least and the greatest.
pub(crate) fn seat_counts(alloc: Global, members: &Members<'_>) -> Result<Seats, Unread>
    ensures { IfOk result SeatsFit }
{
    match members.table.get("seats") {
        None => Err(members.fault(alloc, FaultName::MissingMember, "seats", "")),
        Some(Value::Integer(seats)) => seats_between(alloc, members, *seats, *seats),
        Some(Value::Array(ends)) => match ends.as_slice() {
            [Value::Integer(least), Value::Integer(most)] => seats_between(
                alloc, members, *least, *most,
            ),
            _ => Err(seats_type(alloc, members)),
        },
        Some(_) => Err(seats_type(alloc, members)),
    }
}

fn seats_type(alloc: Global, members: &Members<'_>) -> Unread {
    members.fault(
        alloc,
        FaultName::BadType,
        "seats",
        "a number is wanted, or the least and the greatest in brackets",
    )
}

fn seats_between(
    alloc: Global,
    members: &Members<'_>,
    least: i64,
    most: i64,
) -> Result<Seats, Unread>
    ensures { IfOk result SeatsFit }
{
    match seats_of(least, most) {
        Some(seats) => Ok(seats),
        None => Err(members.fault(
            alloc,
            FaultName::BadSeats,
            "seats",
            "a match has 1 to 16 seats",
        )),
    }
}

fn seats_of(least: i64, most: i64) -> Option<Seats>
    ensures { IfSome result SeatsFit }
{
    let least = count_of(least)?;
    let most = count_of(most)?;
    if least > most {
        return None;
    }
    Some(Seats { least, most })
}

/// A count of seats that a match may have.
fn count_of(count: i64) -> Option<u8>
    ensures { IfSome result (λ seats. (1 ≤ seats) × (seats ≤ 16)) }
{
    match u8::try_from(count) {
        Ok(seats) if seats >= 1 && seats <= MOST_SEATS => Some(seats),
        _ => None,
    }
}
