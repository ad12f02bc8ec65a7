//! How the state of each game is drawn. A game is known by the members of its state.

use game_sheet::NoMemory;
use json_text::put_natural;
use serde_json::Value;

/// The state of one of the games; nothing for a state of another form.
pub(crate) fn draw_game(out: &mut Vec<u8>, g: &Value) -> Result<(), NoMemory> {
    if let Some(cells) = items(g, "cells") {
        return draw_cells(out, cells);
    }
    if let Some(heap) = number(g, "heap") {
        return draw_heap(out, heap);
    }
    if let Some(totals) = items(g, "totals") {
        put_labelled(out, b"pot", number(g, "pot"))?;
        return draw_each(out, b"totals", totals);
    }
    if let Some(common) = g.get("common") {
        draw_common(out, common)?;
    }
    if let Some(players) = items(g, "players") {
        draw_own(out, players)?;
    }
    Ok(())
}

/// Rows of three cells: X and O, and the number of each free cell.
fn draw_cells(out: &mut Vec<u8>, cells: &[Value]) -> Result<(), NoMemory> {
    let mut place = 0_u64;
    for cell in cells {
        out.extend_from_slice(if place % 3 == 0 { b"  " } else { b" | " })?;
        match cell.as_u64() {
            Some(0) => out.push(b'X')?,
            Some(_) => out.push(b'O')?,
            None => put_natural(out, place)?,
        }
        if place % 3 == 2 {
            out.push(b'\n')?;
        }
        place = place.saturating_add(1);
    }
    Ok(())
}

/// A mark for each that is left in the heap.
fn draw_heap(out: &mut Vec<u8>, heap: u64) -> Result<(), NoMemory> {
    put_labelled(out, b"heap", Some(heap))?;
    out.extend_from_slice(b"  ")?;
    for mark in 0..heap.min(60) {
        out.extend_from_slice(if mark % 5 == 4 { b"I " } else { b"I" })?;
    }
    out.push(b'\n')?;
    Ok(())
}

/// What lies open in a game of cards, bids or captions.
fn draw_common(out: &mut Vec<u8>, common: &Value) -> Result<(), NoMemory> {
    for name in ["table", "hands", "scores", "boasts", "revealed"] {
        if let Some(values) = items(common, name) {
            draw_each(out, name.as_bytes(), values)?;
        }
    }
    if let Some(left) = number(common, "left") {
        put_labelled(out, b"left", Some(left))?;
    }
    Ok(())
}

/// What is shown of the players' own: for a player, the own hand, bid or caption.
fn draw_own(out: &mut Vec<u8>, players: &[Value]) -> Result<(), NoMemory> {
    let mut seat = 0_u64;
    for player in players {
        for name in ["hand", "bid", "text"] {
            if let Some(own) = player.get(name) {
                out.extend_from_slice(b"  ")?;
                out.extend_from_slice(name.as_bytes())?;
                out.extend_from_slice(b" of seat ")?;
                put_natural(out, seat)?;
                out.push(b':')?;
                match own.as_array() {
                    Some(cards) => put_each(out, cards.as_slice())?,
                    None => put_word(out, own)?,
                }
                out.push(b'\n')?;
            }
        }
        seat = seat.saturating_add(1);
    }
    Ok(())
}

/// A line with what each seat has, seat 0 first.
fn draw_each(out: &mut Vec<u8>, name: &[u8], values: &[Value]) -> Result<(), NoMemory> {
    out.extend_from_slice(b"  ")?;
    out.extend_from_slice(name)?;
    out.push(b':')?;
    put_each(out, values)?;
    out.push(b'\n')?;
    Ok(())
}

fn put_each(out: &mut Vec<u8>, values: &[Value]) -> Result<(), NoMemory> {
    for value in values {
        put_word(out, value)?;
    }
    Ok(())
}

/// A number, a text, or a dash for what isn't there, after a blank.
fn put_word(out: &mut Vec<u8>, value: &Value) -> Result<(), NoMemory> {
    out.push(b' ')?;
    if let Some(n) = value.as_u64() {
        put_natural(out, n)?;
    } else if let Some(text) = value.as_str() {
        out.push(b'"')?;
        out.extend_from_slice(text.as_bytes())?;
        out.push(b'"')?;
    } else {
        out.push(b'-')?;
    }
    Ok(())
}

fn put_labelled(out: &mut Vec<u8>, name: &[u8], n: Option<u64>) -> Result<(), NoMemory> {
    out.extend_from_slice(b"  ")?;
    out.extend_from_slice(name)?;
    out.extend_from_slice(b": ")?;
    match n {
        Some(n) => put_natural(out, n)?,
        None => out.push(b'-')?,
    }
    out.push(b'\n')?;
    Ok(())
}

/// The items of a list by its name.
pub(crate) fn items<'v>(value: &'v Value, name: &str) -> Option<&'v [Value]> {
    match value.get(name) {
        Some(member) => match member.as_array() {
            Some(items) => Some(items.as_slice()),
            None => None,
        },
        None => None,
    }
}

/// A number by its name.
pub(crate) fn number(value: &Value, name: &str) -> Option<u64> {
    match value.get(name) {
        Some(member) => member.as_u64(),
        None => None,
    }
}
