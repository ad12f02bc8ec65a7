//! Turns.

use crate::members::{Limits, Members};
use crate::paths::fault_at;
use crate::source::Code;
use crate::unread::Unread;
use game_sheet::{List, Text};
use game_syntax::FaultName;
use std::alloc::Global;
use toml::Value;

/// A turn.
pub struct TurnMember {
    /// The path of the turn.
    pub path: Text,
    /// Who comes next.
    pub order: OrderMember,
    /// How many moves it has.
    pub limits: Limits,
    /// The spec that a turn begins with.
    pub active: Option<Text>,
    /// The turn's code.
    pub hooks: TurnHooks,
}

/// The code of a turn.
pub struct TurnHooks {
    /// Runs where a turn begins.
    pub on_begin: Code,
    /// Runs where a turn ends.
    pub on_end: Code,
    /// Runs after each move.
    pub on_move: Code,
    /// Whether the turn ends.
    pub end_if: Code,
}

/// Who comes next, as the file says it.
pub enum OrderMember {
    /// `"default"`, or nothing.
    Default,
    /// `"reset"`.
    Reset,
    /// `"continue"`.
    Continue,
    /// `"once"`.
    Once,
    /// A list of seats.
    Seats(List<i32>),
    /// The name of a common list of numbers.
    Slot(Text),
}

impl Drop for TurnMember {
    fn drop(self) {
        let TurnMember {
            path,
            order,
            limits: _,
            active,
            hooks,
        } = self;
        drop(path);
        drop(order);
        drop(active);
        drop(hooks);
    }
}

impl Drop for TurnHooks {
    fn drop(self) {
        let TurnHooks {
            on_begin,
            on_end,
            on_move,
            end_if,
        } = self;
        drop(on_begin);
        drop(on_end);
        drop(on_move);
        drop(end_if);
    }
}

impl Drop for OrderMember {
    fn drop(self) {
        match self {
            OrderMember::Default | OrderMember::Reset | OrderMember::Continue | OrderMember::Once =>
                {}
            OrderMember::Seats(seats) => drop(seats),
            OrderMember::Slot(name) => drop(name),
        }
    }
}

static MEMBERS: [&str; 8] = [
    "order",
    "minMoves",
    "maxMoves",
    "activePlayers",
    "onBegin",
    "onEnd",
    "onMove",
    "endIf",
];

/// The turn that a table has, if it has one.
pub(crate) fn turn(alloc: Global, members: &Members<'_>) -> Result<Option<TurnMember>, Unread> {
    match members.table.get("turn") {
        None => Ok(None),
        Some(value) => {
            let path = members.path_of(alloc, "turn")?;
            Ok(Some(turn_at(alloc, value, path.as_str())?))
        }
    }
}

/// The members of a turn.
fn turn_members<'a>(alloc: Global, value: &'a Value, path: &'a str) -> Result<Members<'a>, Unread> {
    Members::of(alloc, value, path, &MEMBERS)
}

fn turn_at(alloc: Global, value: &Value, path: &str) -> Result<TurnMember, Unread> {
    let members = turn_members(alloc, value, path)?;
    let order = order(alloc, &members)?;
    let limits = members.limits(alloc)?;
    let active = members.text(alloc, "activePlayers")?;
    let hooks = hooks(alloc, &members)?;
    let path = Text::from_str(alloc, path)?;
    Ok(TurnMember {
        path,
        order,
        limits,
        active,
        hooks,
    })
}

fn hooks(alloc: Global, members: &Members<'_>) -> Result<TurnHooks, Unread> {
    let on_begin = members.code(alloc, "onBegin")?;
    let on_end = members.code(alloc, "onEnd")?;
    let on_move = members.code(alloc, "onMove")?;
    let end_if = members.code(alloc, "endIf")?;
    Ok(TurnHooks {
        on_begin,
        on_end,
        on_move,
        end_if,
    })
}

fn order(alloc: Global, members: &Members<'_>) -> Result<OrderMember, Unread> {
    match members.table.get("order") {
        None => Ok(OrderMember::Default),
        Some(Value::String(word)) => order_word(alloc, members, word.as_str()),
        Some(value) => {
            let path = members.path_of(alloc, "order")?;
            order_at(alloc, value, path.as_str())
        }
    }
}

fn order_word(alloc: Global, members: &Members<'_>, word: &str) -> Result<OrderMember, Unread> {
    match word {
        "default" => Ok(OrderMember::Default),
        "reset" => Ok(OrderMember::Reset),
        "continue" => Ok(OrderMember::Continue),
        "once" => Ok(OrderMember::Once),
        _ => Err(members.fault(
            alloc,
            FaultName::BadOrder,
            "order",
            "default, reset, continue or once is wanted",
        )),
    }
}

fn order_at(alloc: Global, value: &Value, path: &str) -> Result<OrderMember, Unread> {
    match value {
        Value::Array(items) => Ok(OrderMember::Seats(seats_of(alloc, items.as_slice(), path)?)),
        Value::Table(_) => order_slot(alloc, value, path),
        _ => Err(fault_at(
            alloc,
            FaultName::BadType,
            path,
            "a word, a list of seats or a slot is wanted",
        )),
    }
}

static SLOT_MEMBERS: [&str; 1] = ["slot"];

/// The members of an order that a slot has.
fn slot_members<'a>(alloc: Global, value: &'a Value, path: &'a str) -> Result<Members<'a>, Unread> {
    Members::of(alloc, value, path, &SLOT_MEMBERS)
}

fn order_slot(alloc: Global, value: &Value, path: &str) -> Result<OrderMember, Unread> {
    let members = slot_members(alloc, value, path)?;
    match members.text(alloc, "slot")? {
        Some(slot) => Ok(OrderMember::Slot(slot)),
        None => Err(members.fault(alloc, FaultName::MissingMember, "slot", "")),
    }
}

fn seats_of(alloc: Global, items: &[Value], path: &str) -> Result<List<i32>, Unread> {
    let mut seats = List::new(alloc);
    for item in items {
        seats.push(seat_of(alloc, item, path)?)?;
    }
    Ok(seats)
}

fn seat_of(alloc: Global, item: &Value, path: &str) -> Result<i32, Unread> {
    match item {
        Value::Integer(seat) => match i32::try_from(*seat) {
            Ok(seat) => Ok(seat),
            Err(_) => Err(fault_at(alloc, FaultName::OutOfRange, path, "")),
        },
        _ => Err(fault_at(alloc, FaultName::BadType, path, "a list of seats is wanted")),
    }
}
