//! Specs of active players.

use crate::members::{Limits, Members};
use crate::names::check_row_name;
use crate::paths::{fault_at, member_path};
use crate::rows::{Row, RowAt, Title};
use crate::unread::Unread;
use game_sheet::{List, Seat, Text};
use game_syntax::FaultName;
use std::alloc::Global;
use toml::{Table, Value};

/// A spec of active players.
pub struct SpecMember {
    /// Its name, 1 to 32 letters and digits, and its path.
    pub title: Title,
    /// Who is active.
    pub who: ActiveMember,
    /// How many moves a seat has.
    pub limits: Limits,
    /// Whether the earlier map comes back when this one is empty.
    pub revert: bool,
    /// The spec that is set when this map is empty.
    pub next: Option<Text>,
}

/// Who is active by a spec.
pub struct ActiveMember {
    /// Where the current seat is put.
    pub current: PlaceMember,
    /// Where every other seat is put.
    pub others: PlaceMember,
    /// Where every seat is put.
    pub all: PlaceMember,
    /// Where the seats named are put.
    pub value: SeatsMember,
}

/// Where a seat is put, if that is said: in a stage with a name, or in none.
pub enum PlaceMember {
    /// Nothing is said.
    Unsaid,
    /// `true`.
    NoStage,
    /// The name of a stage.
    Stage(Text),
}

/// Which seats a spec names.
pub enum SeatsMember {
    /// These seats, each with its place.
    Seats(List<SeatMember>),
    /// Those of a common slot with a name, all in one place.
    Slot(Text, PlaceMember),
}

/// A seat with its place.
pub struct SeatMember {
    /// The seat.
    pub seat: Seat,
    /// Where it is put.
    pub place: PlaceMember,
}

impl Drop for SpecMember {
    fn drop(self) {
        let SpecMember {
            title,
            who,
            limits: _,
            revert: _,
            next,
        } = self;
        drop(title);
        drop(who);
        drop(next);
    }
}

impl Drop for ActiveMember {
    fn drop(self) {
        let ActiveMember {
            current,
            others,
            all,
            value,
        } = self;
        drop(current);
        drop(others);
        drop(all);
        drop(value);
    }
}

impl Drop for PlaceMember {
    fn drop(self) {
        match self {
            PlaceMember::Unsaid | PlaceMember::NoStage => {}
            PlaceMember::Stage(name) => drop(name),
        }
    }
}

impl Drop for SeatsMember {
    fn drop(self) {
        match self {
            SeatsMember::Seats(seats) => drop(seats),
            SeatsMember::Slot(name, place) => {
                drop(name);
                drop(place);
            }
        }
    }
}

impl Drop for SeatMember {
    fn drop(self) {
        let SeatMember { seat: _, place } = self;
        drop(place);
    }
}

static MEMBERS: [&str; 8] = [
    "currentPlayer",
    "others",
    "all",
    "value",
    "minMoves",
    "maxMoves",
    "revert",
    "next",
];

/// The members of a spec.
fn spec_members<'a>(alloc: Global, at: &RowAt<'a>) -> Result<Members<'a>, Unread> {
    Members::of(alloc, at.value, at.path, &MEMBERS)
}

impl Row for SpecMember {
    ghost use Rattle.std.specs.Prelude.{◌≡◌, true};
    ghost use Rattle.std.specs.Char.{is_ascii_alphanumeric};
    ghost use Rattle.game_sheet.specs.SheetRules.{is_name};
    ghost use Rattle.game_file.specs.declared.actives.SpecMember.{SpecMember};

    ghost fits = { λ (row : SpecMember). is_name is_ascii_alphanumeric row.title.name ≡ true };

    fn read(alloc: Global, at: &RowAt<'_>) -> Result<Self, Unread> {
        check_row_name(alloc, at.name, at.path)?;
        let members = spec_members(alloc, at)?;
        let who = active(alloc, &members)?;
        let limits = members.limits(alloc)?;
        let revert = members.is(alloc, "revert")?;
        let next = members.text(alloc, "next")?;
        let title = at.title(alloc)?;
        Ok(SpecMember {
            title,
            who,
            limits,
            revert,
            next,
        })
    }
}

fn active(alloc: Global, members: &Members<'_>) -> Result<ActiveMember, Unread> {
    let current = place(alloc, members, "currentPlayer")?;
    let others = place(alloc, members, "others")?;
    let all = place(alloc, members, "all")?;
    let value = named_seats(alloc, members)?;
    Ok(ActiveMember {
        current,
        others,
        all,
        value,
    })
}

/// The place that a member names, if it is there.
fn place(alloc: Global, members: &Members<'_>, member: &str) -> Result<PlaceMember, Unread> {
    match members.table.get(member) {
        None => Ok(PlaceMember::Unsaid),
        Some(value) => {
            let path = members.path_of(alloc, member)?;
            place_at(alloc, value, path.as_str())
        }
    }
}

fn place_at(alloc: Global, value: &Value, path: &str) -> Result<PlaceMember, Unread> {
    match value {
        Value::Boolean(true) => Ok(PlaceMember::NoStage),
        Value::String(name) => Ok(PlaceMember::Stage(Text::from_str(alloc, name.as_str())?)),
        _ => Err(fault_at(
            alloc,
            FaultName::BadType,
            path,
            "the name of a stage is wanted, or true for none",
        )),
    }
}

fn named_seats(alloc: Global, members: &Members<'_>) -> Result<SeatsMember, Unread> {
    match members.table.get("value") {
        None => Ok(SeatsMember::Seats(List::new(alloc))),
        Some(value) => {
            let path = members.path_of(alloc, "value")?;
            named_seats_at(alloc, value, path.as_str())
        }
    }
}

fn named_seats_at(alloc: Global, value: &Value, path: &str) -> Result<SeatsMember, Unread> {
    match value {
        Value::Table(table) => {
            if table.contains_key("slot") {
                slot_seats(alloc, table, path)
            } else {
                Ok(SeatsMember::Seats(listed_seats(alloc, table, path)?))
            }
        }
        _ => Err(fault_at(
            alloc,
            FaultName::BadType,
            path,
            "a table from seats to stages is wanted, or a slot",
        )),
    }
}

static SLOT_MEMBERS: [&str; 2] = ["slot", "stage"];

/// The members of the seats of a slot.
fn slot_members<'a>(alloc: Global, table: &'a Table, path: &'a str) -> Result<Members<'a>, Unread> {
    Members::known(alloc, table, path, &SLOT_MEMBERS)
}

/// The seats of a slot.
fn slot_seats(alloc: Global, table: &Table, path: &str) -> Result<SeatsMember, Unread> {
    let members = slot_members(alloc, table, path)?;
    match members.text(alloc, "slot")? {
        Some(slot) => Ok(SeatsMember::Slot(slot, place(alloc, &members, "stage")?)),
        None => Err(members.fault(alloc, FaultName::MissingMember, "slot", "")),
    }
}

/// The seats of a table from seats to places.
fn listed_seats(alloc: Global, table: &Table, path: &str) -> Result<List<SeatMember>, Unread> {
    let mut seats = List::new(alloc);
    for (name, value) in table {
        seats.push(listed_seat(alloc, name.as_str(), value, path)?)?;
    }
    Ok(seats)
}

fn listed_seat(alloc: Global, name: &str, value: &Value, path: &str) -> Result<SeatMember, Unread> {
    let path = member_path(alloc, path, name)?;
    match seat_named(name) {
        Some(seat) => Ok(SeatMember {
            seat,
            place: place_at(alloc, value, path.as_str())?,
        }),
        None => Err(fault_at(
            alloc,
            FaultName::UnknownMember,
            path.as_str(),
            "the number of a seat is wanted",
        )),
    }
}

/// The seat with this number of one digit, or of two with no zero in front.
fn seat_named(name: &str) -> Option<Seat> {
    match name.as_bytes() {
        [b'0'..=b'9'] | [b'1'..=b'9', b'0'..=b'9'] => name.parse::<u8>().ok(),
        _ => None,
    }
}
