//! Turns of the sheet.

use crate::frame::{FrameOrders, SlotFrame, SlotType};
use crate::misfit::At;
use crate::rows::spec_named;
use game_file::{FileFlow, Limits, OrderMember, PhaseMember, SpecMember, TurnMember, Unread};
use game_sheet::{List, Order, Seat, SpecId, Text, TurnRow};
use game_slots::ItemKind;
use game_syntax::FaultName;
use std::alloc::Global;

/// What rows of the sheet name: common slots, specs in the sheet's order, and seats.
#[derive(Clone, Copy)]
pub(crate) struct Around<'a> {
    pub(crate) alloc: Global,
    pub(crate) common: &'a [SlotFrame],
    pub(crate) specs: &'a [&'a SpecMember],
    pub(crate) min_seats: u8,
}

/// Limits as the sheet has them.
#[derive(Clone, Copy)]
pub(crate) struct Bounds {
    pub(crate) least: u32,
    pub(crate) most: Option<u32>,
}

impl Around<'_> {
    /// The sheet's turn.
    pub(crate) fn turn(&self, turn: &Option<TurnMember>) -> Result<TurnRow, Unread> {
        match turn {
            None => Ok(plain_turn()),
            Some(turn) => {
                self.check_once(turn)?;
                self.turn_of(turn)
            }
        }
    }

    /// The turn of a phase, if it has one.
    pub(crate) fn own_turn(&self, turn: &Option<TurnMember>) -> Result<Option<TurnRow>, Unread> {
        match turn {
            None => Ok(None),
            Some(turn) => Ok(Some(self.turn_of(turn)?)),
        }
    }

    fn check_once(&self, turn: &TurnMember) -> Result<(), Unread> {
        match &turn.order {
            OrderMember::Once => Err(turn_at(turn, "order").fault(
                self.alloc,
                FaultName::BadOrder,
                "`once` ends a phase: it stands in the turn of a phase",
            )),
            _ => Ok(()),
        }
    }

    fn turn_of(&self, turn: &TurnMember) -> Result<TurnRow, Unread> {
        let order = self.order(turn)?;
        let bounds = bounds_of(self.alloc, turn.limits, turn.path.as_str())?;
        let active = self.active(turn)?;
        Ok(TurnRow {
            order,
            min_moves: bounds.least,
            max_moves: bounds.most,
            active,
        })
    }

    fn active(&self, turn: &TurnMember) -> Result<Option<SpecId>, Unread> {
        match &turn.active {
            None => Ok(None),
            Some(name) => {
                let at = turn_at(turn, "activePlayers");
                Ok(Some(spec_named(self.alloc, self.specs, name, &at)?))
            }
        }
    }

    fn order(&self, turn: &TurnMember) -> Result<Order, Unread> {
        match &turn.order {
            OrderMember::Default => Ok(Order::Default),
            OrderMember::Reset => Ok(Order::Reset),
            OrderMember::Continue => Ok(Order::Continue),
            OrderMember::Once => Ok(Order::Once),
            OrderMember::Slot(_) => Ok(Order::CustomFrom),
            OrderMember::Seats(seats) => {
                let at = turn_at(turn, "order");
                Ok(Order::Custom(self.seats(seats.as_slice(), &at)?))
            }
        }
    }

    /// A list of 1 to 64 seats of every match.
    fn seats(&self, numbers: &[i32], at: &At<'_>) -> Result<List<Seat>, Unread> {
        if numbers.is_empty() || numbers.len() > 64 {
            return Err(self.bad_order(at));
        }
        self.each_seat(numbers, at)
    }

    fn each_seat(&self, numbers: &[i32], at: &At<'_>) -> Result<List<Seat>, Unread> {
        let mut seats = List::new(self.alloc);
        for number in numbers {
            seats.push(self.seat(*number, at)?)?;
        }
        Ok(seats)
    }

    fn seat(&self, number: i32, at: &At<'_>) -> Result<Seat, Unread> {
        match u8::try_from(number) {
            Ok(seat) if seat < self.min_seats => Ok(seat),
            _ => Err(self.bad_order(at)),
        }
    }

    fn bad_order(&self, at: &At<'_>) -> Unread {
        at.fault(
            self.alloc,
            FaultName::BadOrder,
            "an order has 1 to 64 seats, each below the least number of seats",
        )
    }

    /// The slots of the orders of the sheet's turn and of the phases' own ones.
    pub(crate) fn orders(&self, flow: &FileFlow) -> Result<FrameOrders, Unread> {
        let turn = self.order_slot(&flow.turn)?;
        let phases = self.phase_orders(flow.tables.phases.as_slice())?;
        Ok(FrameOrders { turn, phases })
    }

    fn phase_orders(&self, phases: &[PhaseMember]) -> Result<List<Option<u8>>, Unread> {
        let mut slots = List::new(self.alloc);
        for row in phases {
            slots.push(self.order_slot(&row.turn)?)?;
        }
        Ok(slots)
    }

    /// The slot of a turn's order, if it is one.
    fn order_slot(&self, turn: &Option<TurnMember>) -> Result<Option<u8>, Unread> {
        match turn {
            None => Ok(None),
            Some(turn) => match &turn.order {
                OrderMember::Slot(name) => {
                    let at = turn_at(turn, "order");
                    Ok(Some(self.number_list(name, &at)?))
                }
                _ => Ok(None),
            },
        }
    }

    /// The common list of numbers with a name.
    fn number_list(&self, name: &Text, at: &At<'_>) -> Result<u8, Unread> {
        let place = self.numbers(name, at)?;
        match self.common.get(usize::from(place)) {
            Some(frame) if frame.slot.row.lone => Err(at.about(
                self.alloc,
                FaultName::WantsList,
                "a list is wanted, and one value is ",
                name.as_str(),
            )),
            _ => Ok(place),
        }
    }

    /// The common slot of numbers with a name, a list or not.
    pub(crate) fn numbers(&self, name: &Text, at: &At<'_>) -> Result<u8, Unread> {
        match slot_named(self.common, name.as_str()) {
            None => Err(at.about(
                self.alloc,
                FaultName::UnknownName,
                "there is no slot of `common` ",
                name.as_str(),
            )),
            Some((place, slot)) => match slot.row.kind {
                ItemKind::Number { .. } => Ok(place),
                ItemKind::Text => Err(at.about(
                    self.alloc,
                    FaultName::WantsNumber,
                    "numbers are wanted, and texts are in ",
                    name.as_str(),
                )),
            },
        }
    }
}

/// The slot with a name, and its place.
pub(crate) fn slot_named(slots: &[SlotFrame], name: &str) -> Option<(u8, SlotType)> {
    for (place, frame) in slots.iter().enumerate() {
        if frame.name.is(name) {
            return match u8::try_from(place) {
                Ok(place) => Some((place, frame.slot)),
                Err(_) => None,
            };
        }
    }
    None
}

/// A turn of which nothing is said.
fn plain_turn() -> TurnRow {
    TurnRow {
        order: Order::Default,
        min_moves: 0,
        max_moves: None,
        active: None,
    }
}

/// A member of a turn.
fn turn_at<'a>(turn: &'a TurnMember, member: &'a str) -> At<'a> {
    At {
        path: turn.path.as_str(),
        member,
    }
}

/// The limits of a turn or a spec at a path.
pub(crate) fn bounds_of(alloc: Global, limits: Limits, path: &str) -> Result<Bounds, Unread> {
    let least = at_least_zero(
        alloc,
        limits.min_moves,
        &At {
            path,
            member: "minMoves",
        },
    )?;
    let at = At {
        path,
        member: "maxMoves",
    };
    let most = most_of(alloc, limits.max_moves, least, &at)?;
    Ok(Bounds { least, most })
}

fn at_least_zero(alloc: Global, number: i32, at: &At<'_>) -> Result<u32, Unread> {
    match u32::try_from(number) {
        Ok(number) => Ok(number),
        Err(_) => Err(at.fault(
            alloc,
            FaultName::BadLimits,
            "a count of moves is not below 0",
        )),
    }
}

fn most_of(
    alloc: Global,
    number: Option<i32>,
    least: u32,
    at: &At<'_>,
) -> Result<Option<u32>, Unread> {
    match number {
        None => Ok(None),
        Some(number) => match u32::try_from(number) {
            Ok(most) if most >= 1 && least <= most => Ok(Some(most)),
            _ => Err(at.fault(
                alloc,
                FaultName::BadLimits,
                "maxMoves is at least 1, and not below minMoves",
            )),
        },
    }
}
