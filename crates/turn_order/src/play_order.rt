//! The seats in the order in which they take turns.

ghost use Rattle.std.specs.Prelude.{◌≡◌, ◌≤◌, IfOk, nat_le};
ghost use Rattle.std.specs.List.{list_any};
ghost use Rattle.turn_order.specs.PlayOrder.{all_seats, is_no_order, list_or_all, IsPlayOrder};

use game_sheet::{List, NoMemory, Seat};
use std::alloc::Global;

/// The greatest length of a play order.
const MOST: usize = 64;

/// All seats of a match from 0.
pub fn all_seats(alloc: Global, seats: u8) -> Result<List<Seat>, NoMemory>
    requires least { 1 ≤ seats }
    requires most { seats ≤ 64 }
    ensures value { IfOk result (λ order. order ≡ all_seats seats) }
    ensures serves { IfOk result (IsPlayOrder seats) }
{
    let mut order = List::new(alloc);
    for seat in 0..seats {
        order.push(seat)?;
    }
    Ok(order)
}

/// The play order that a game's own list gives in a match of so many seats: the list, or all seats where it can't be one.
pub fn list_from(alloc: Global, given: List<Seat>, seats: u8) -> Result<List<Seat>, NoMemory>
    requires least { 1 ≤ seats }
    requires most { seats ≤ 64 }
    ensures value { IfOk result (λ order. order ≡ list_or_all seats given) }
    ensures serves { IfOk result (IsPlayOrder seats) }
{
    if is_no_order(given.as_slice(), seats) {
        all_seats(alloc, seats)
    } else {
        Ok(given)
    }
}

/// Whether a list is no play order of a match of so many seats.
fn is_no_order(given: &[Seat], seats: u8) -> bool
    ensures { result ≡ is_no_order seats given.now }
{
    given.is_empty() || given.len() > MOST || goes_past(given, seats)
}

/// Whether a list holds a number that is no seat of the match.
fn goes_past(given: &[Seat], seats: u8) -> bool
    ensures { result ≡ list_any (λ seat. nat_le seats seat) given.now }
{
    given.iter().any(|seat| *seat >= seats)
}
