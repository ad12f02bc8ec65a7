//! What a server tells of its rooms and links to whoever asks for its status, and its text as JSON. No key and no player's name is in it, and nothing
//! that isn't shown to everybody.

use crate::gauge::Seen;
use game_sheet::{NoMemory, Number, Seat, Text};
use json_text::{put_boolean, put_comma, put_natural, put_null, put_string};
use std::alloc::Global;
use wire_json::MatchRow;

/// What is told of a room.
#[derive(Drop)]
pub enum RoomStatus {
    /// It has stopped for good.
    Stopped,
    /// It goes on.
    Open {
        /// The match that stands, if one does.
        stands: Option<MatchStatus>,
        /// How many matches it has had.
        serial: u64,
        /// How many sessions are attached.
        sessions: u64,
    },
}

/// What is told of a match.
#[derive(Drop)]
pub struct MatchStatus {
    /// Its game's name.
    pub game: Text,
    /// Its state number.
    pub number: Number,
    /// Whether it has ended.
    pub over: bool,
    /// How many seats it has.
    pub seats: u64,
    /// At how many of them a player sits.
    pub taken: u64,
}

/// What is told of the links, and of the bots beside them.
#[derive(Clone, Copy)]
pub struct Counts {
    /// Whether links are taken.
    pub open: bool,
    /// How many links are open now; bots' not among them.
    pub links: u64,
    /// How many seats the server's own bots were given.
    pub bots: u64,
    /// How sessions have ended.
    pub ends: Ends,
    /// How many lines came over links.
    pub lines: u64,
    /// How many bytes of lines came over links.
    pub received: u64,
    /// How many bytes of lines were sent over links.
    pub sent: u64,
}

/// How many sessions have ended for each cause.
#[derive(Clone, Copy)]
pub struct Ends {
    /// Their peer ended them.
    pub ended: u64,
    /// Their seat was left, or their match removed.
    pub left: u64,
    /// They fell behind.
    pub lagging: u64,
    /// A line was too long.
    pub too_long: u64,
    /// Their link failed.
    pub faults: u64,
    /// There was no memory, or their room has stopped.
    pub starved: u64,
}

impl Ends {
    /// How many ended for what came: a line that was too long, a fault of the link, or want of memory.
    pub(crate) fn refused(self) -> u64 {
        self.too_long
            .saturating_add(self.faults)
            .saturating_add(self.starved)
    }
}

impl RoomStatus {
    /// Of a room that shows this, and in which no match stands.
    pub(crate) fn without_match(seen: Seen) -> RoomStatus {
        if seen.stopped {
            return RoomStatus::Stopped;
        }
        RoomStatus::Open {
            stands: None,
            serial: seen.matches,
            sessions: seen.attached,
        }
    }

    /// Of a room that shows this, and whose match has this row.
    pub(crate) fn with_match(
        alloc: Global,
        seen: Seen,
        row: &MatchRow,
    ) -> Result<RoomStatus, NoMemory> {
        let seats = row.players.as_slice();
        Ok(RoomStatus::Open {
            stands: Some(MatchStatus {
                game: row.game.copy(alloc)?,
                number: seen.number,
                over: row.over,
                seats: seats.len() as u64,
                taken: players_in(seats),
            }),
            serial: row.name.serial(),
            sessions: seen.attached,
        })
    }
}

/// At how many of these seats a player sits.
fn players_in(seats: &[(Seat, Option<Text>)]) -> u64 {
    let mut taken: u64 = 0;
    for seat in seats {
        if seat.1.is_some() {
            taken = taken.saturating_add(1);
        }
    }
    taken
}

/// The status as a JSON object on one line, with its newline: the rooms in order, and the counts.
pub fn status_text(
    alloc: Global,
    rooms: &[RoomStatus],
    counts: Counts,
) -> Result<Vec<u8>, NoMemory> {
    let mut out = Vec::new(alloc);
    out.extend_from_slice(b"{\"rooms\":[")?;
    for (room, status) in rooms.iter().enumerate() {
        put_comma(&mut out, room > 0)?;
        put_room(alloc, &mut out, room as u64, status)?;
    }
    out.extend_from_slice(b"],\"open\":")?;
    put_boolean(&mut out, counts.open)?;
    put_member(&mut out, b",\"links\":", counts.links)?;
    put_member(&mut out, b",\"bots\":", counts.bots)?;
    put_member(&mut out, b",\"refused\":", counts.ends.refused())?;
    put_member(&mut out, b",\"received\":", counts.received)?;
    put_member(&mut out, b",\"sent\":", counts.sent)?;
    out.extend_from_slice(b"}\n")?;
    Ok(out)
}

/// Appends the object of a room.
fn put_room(
    alloc: Global,
    out: &mut Vec<u8>,
    room: u64,
    status: &RoomStatus,
) -> Result<(), NoMemory> {
    put_member(out, b"{\"room\":", room)?;
    match status {
        RoomStatus::Stopped => {
            out.extend_from_slice(b",\"stopped\":")?;
            put_boolean(out, true)?;
        }
        RoomStatus::Open {
            stands,
            serial,
            sessions,
        } => {
            put_match(alloc, out, stands, *serial)?;
            put_member(out, b",\"sessions\":", *sessions)?;
        }
    }
    out.push(b'}')?;
    Ok(())
}

/// Appends the members of the match that stands in a room, if one does.
fn put_match(
    alloc: Global,
    out: &mut Vec<u8>,
    stands: &Option<MatchStatus>,
    serial: u64,
) -> Result<(), NoMemory> {
    out.extend_from_slice(b",\"game\":")?;
    match stands {
        Some(stands) => {
            put_string(alloc, out, stands.game.as_str())?;
            put_member(out, b",\"serial\":", serial)?;
            put_member(out, b",\"number\":", u64::from(stands.number))?;
            out.extend_from_slice(b",\"over\":")?;
            put_boolean(out, stands.over)?;
            put_member(out, b",\"seats\":", stands.seats)?;
            put_member(out, b",\"taken\":", stands.taken)
        }
        None => {
            put_null(out)?;
            put_member(out, b",\"serial\":", serial)?;
            out.extend_from_slice(b",\"number\":")?;
            put_null(out)?;
            out.extend_from_slice(b",\"over\":")?;
            put_null(out)?;
            put_member(out, b",\"seats\":", 0)?;
            put_member(out, b",\"taken\":", 0)
        }
    }
}

/// Appends a member that is a number, behind these bytes.
fn put_member(out: &mut Vec<u8>, before: &[u8], number: u64) -> Result<(), NoMemory> {
    out.extend_from_slice(before)?;
    Ok(put_natural(out, number)?)
}
