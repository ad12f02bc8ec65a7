//! The order of specs of active players: each stands before the one that follows it.

use crate::misfit::At;
use crate::rows::{place_of, unknown_spec};
use game_file::{SpecMember, Unread};
use game_sheet::{List, Text};
use game_syntax::FaultName;
use std::alloc::Global;

/// The places of specs in the sheet's order: each before the one that follows it, and otherwise by their names.
pub(crate) fn spec_order(alloc: Global, specs: &[SpecMember]) -> Result<List<u8>, Unread> {
    let nexts = followers(alloc, specs)?;
    let mut order = List::new(alloc);
    for _turn in 0..specs.len() {
        match free_place(nexts.as_slice(), order.as_slice()) {
            Some(place) => order.push(place)?,
            None => return Err(circle(alloc, specs, order.as_slice())),
        }
    }
    Ok(order)
}

/// The place of the spec that follows each.
fn followers(alloc: Global, specs: &[SpecMember]) -> Result<List<Option<u8>>, Unread> {
    let mut nexts = List::new(alloc);
    for row in specs {
        nexts.push(follower(alloc, specs, row)?)?;
    }
    Ok(nexts)
}

fn follower(alloc: Global, specs: &[SpecMember], row: &SpecMember) -> Result<Option<u8>, Unread> {
    match &row.next {
        None => Ok(None),
        Some(name) => Ok(Some(follower_named(alloc, specs, row, name)?)),
    }
}

fn follower_named(
    alloc: Global,
    specs: &[SpecMember],
    row: &SpecMember,
    name: &Text,
) -> Result<u8, Unread> {
    match place_of(specs, name.as_str()) {
        Some(place) => Ok(place),
        None => {
            let at = At {
                path: row.title.path.as_str(),
                member: "next",
            };
            Err(unknown_spec(alloc, name, &at))
        }
    }
}

/// The first place that isn't in the order yet, with all that it follows in it.
fn free_place(nexts: &[Option<u8>], order: &[u8]) -> Option<u8> {
    for place in 0..16u8 {
        if usize::from(place) < nexts.len()
            && !order.contains(&place)
            && follows_none(nexts, order, place)
        {
            return Some(place);
        }
    }
    None
}

/// Whether a place follows none but those in the order.
fn follows_none(nexts: &[Option<u8>], order: &[u8], place: u8) -> bool {
    for (earlier, next) in nexts.iter().enumerate() {
        if *next == Some(place) && !is_in(order, earlier) {
            return false;
        }
    }
    true
}

fn is_in(order: &[u8], place: usize) -> bool {
    order.iter().any(|earlier| usize::from(*earlier) == place)
}

/// Specs that follow one another in a circle: what is left once no other is free.
fn circle(alloc: Global, specs: &[SpecMember], order: &[u8]) -> Unread {
    for (place, row) in specs.iter().enumerate() {
        if !is_in(order, place) {
            let at = At {
                path: row.title.path.as_str(),
                member: "next",
            };
            return round(alloc, &at);
        }
    }
    round(alloc, &At::whole("activePlayers"))
}

fn round(alloc: Global, at: &At<'_>) -> Unread {
    at.fault(
        alloc,
        FaultName::GoesRound,
        "specs of active players follow one another in a circle",
    )
}
