//! The same as metrics: text as Prometheus reads it, a name with its kind, and a number on a line of its own.

use crate::status::{Counts, Ends, RoomStatus};
use game_sheet::NoMemory;
use json_text::put_natural;
use std::alloc::Global;

/// What is counted over all rooms.
#[derive(Clone, Copy)]
struct Rooms {
    free: u64,
    playing: u64,
    over: u64,
    stopped: u64,
    sessions: u64,
    matches: u64,
}

/// The metrics of these rooms and counts. What is named `_total` counts from the start on; all else is as it stands.
pub fn metrics_text(
    alloc: Global,
    rooms: &[RoomStatus],
    counts: Counts,
) -> Result<Vec<u8>, NoMemory> {
    let mut out = Vec::new(alloc);
    put_links(&mut out, counts)?;
    put_ends(&mut out, counts.ends)?;
    put_rooms(&mut out, counted(rooms))?;
    Ok(out)
}

/// Counts the rooms by what goes on in them.
fn counted(rooms: &[RoomStatus]) -> Rooms {
    let mut found = Rooms {
        free: 0,
        playing: 0,
        over: 0,
        stopped: 0,
        sessions: 0,
        matches: 0,
    };
    for room in rooms {
        add(&mut found, room);
    }
    found
}

/// Counts one room more.
fn add(found: &mut Rooms, room: &RoomStatus) {
    let RoomStatus::Open {
        stands,
        serial,
        sessions,
    } = room
    else {
        found.stopped = found.stopped.saturating_add(1);
        return;
    };
    found.sessions = found.sessions.saturating_add(*sessions);
    found.matches = found.matches.saturating_add(*serial);
    match stands {
        None => found.free = found.free.saturating_add(1),
        Some(stands) if stands.over => found.over = found.over.saturating_add(1),
        Some(_) => found.playing = found.playing.saturating_add(1),
    }
}

/// Appends what is counted of links.
fn put_links(out: &mut Vec<u8>, counts: Counts) -> Result<(), NoMemory> {
    put_kind(out, b"open", b"gauge")?;
    put_row(out, b"open", b"", u64::from(counts.open))?;
    put_kind(out, b"links", b"gauge")?;
    put_row(out, b"links", b"", counts.links)?;
    put_kind(out, b"bots", b"gauge")?;
    put_row(out, b"bots", b"", counts.bots)?;
    put_kind(out, b"lines_total", b"counter")?;
    put_row(out, b"lines_total", b"", counts.lines)?;
    put_kind(out, b"received_bytes_total", b"counter")?;
    put_row(out, b"received_bytes_total", b"", counts.received)?;
    put_kind(out, b"sent_bytes_total", b"counter")?;
    put_row(out, b"sent_bytes_total", b"", counts.sent)
}

/// Appends how sessions have ended.
fn put_ends(out: &mut Vec<u8>, ends: Ends) -> Result<(), NoMemory> {
    put_kind(out, ENDS, b"counter")?;
    put_row(out, ENDS, b"{end=\"ended\"}", ends.ended)?;
    put_row(out, ENDS, b"{end=\"left\"}", ends.left)?;
    put_row(out, ENDS, b"{end=\"lagging\"}", ends.lagging)?;
    put_row(out, ENDS, b"{end=\"too-long\"}", ends.too_long)?;
    put_row(out, ENDS, b"{end=\"fault\"}", ends.faults)?;
    put_row(out, ENDS, b"{end=\"no-memory\"}", ends.starved)
}

/// The name of the counts of sessions that have ended.
const ENDS: &[u8] = b"sessions_ended_total";

/// Appends what is counted of rooms.
fn put_rooms(out: &mut Vec<u8>, rooms: Rooms) -> Result<(), NoMemory> {
    put_kind(out, b"rooms", b"gauge")?;
    put_row(out, b"rooms", b"{state=\"free\"}", rooms.free)?;
    put_row(out, b"rooms", b"{state=\"playing\"}", rooms.playing)?;
    put_row(out, b"rooms", b"{state=\"over\"}", rooms.over)?;
    put_row(out, b"rooms", b"{state=\"stopped\"}", rooms.stopped)?;
    put_kind(out, b"sessions", b"gauge")?;
    put_row(out, b"sessions", b"", rooms.sessions)?;
    put_kind(out, b"matches_total", b"counter")?;
    put_row(out, b"matches_total", b"", rooms.matches)
}

/// Appends the line that says of which kind a metric is.
fn put_kind(out: &mut Vec<u8>, name: &[u8], kind: &[u8]) -> Result<(), NoMemory> {
    out.extend_from_slice(b"# TYPE sarpuntxe_")?;
    out.extend_from_slice(name)?;
    out.push(b' ')?;
    out.extend_from_slice(kind)?;
    Ok(out.push(b'\n')?)
}

/// Appends a line with a number.
fn put_row(out: &mut Vec<u8>, name: &[u8], labels: &[u8], number: u64) -> Result<(), NoMemory> {
    out.extend_from_slice(b"sarpuntxe_")?;
    out.extend_from_slice(name)?;
    out.extend_from_slice(labels)?;
    out.push(b' ')?;
    put_natural(out, number)?;
    Ok(out.push(b'\n')?)
}
