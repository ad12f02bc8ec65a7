//! What a room's reply makes of the open request.

ghost use Rattle.std.specs.Prelude.{◌≡◌, ◌≤◌, ◌<◌, ◌+◌, ℕ, IfOk, OnErr};
ghost use Rattle.any_game.specs.AnyRules.{named};
ghost use Rattle.game_hall.specs.Kept.{IsNamed, NextIn, RequestIn, MayWantMemory};
ghost use Rattle.game_hall.specs.declared.request.Request.TheVariants.{Creating, Listing, Looking};
ghost use Rattle.game_hall.specs.Requests.{next as next_of, undone as undone_by, refusal_by as refusal_of_reply, looked_by, joined_by, renamed_by, left_by, after_attach, after_submit, after_listing, lists, tries};

use crate::begin::{make, refuse};
use crate::next::Next;
use crate::request::Request;
use crate::rows::Rows;
use crate::written::WrittenAnswer;
use any_game::{AnyGame, by_name};
use game_sheet::{Key, MatchName, NoMemory, Seat, Text};
use room_history::{RoomCall, RoomReply};
use std::alloc::Global;
use wire_json::Refusal;

/// What a reply makes of the request that waits for it. Only a row that is shown and a busy room may want memory.
pub fn next(
    alloc: Global,
    rooms: u8,
    request: Request,
    reply: RoomReply,
) -> Result<Next<AnyGame>, NoMemory>
    requires rooms { rooms ≤ 64 }
    requires request { RequestIn rooms request }
    requires named { IsNamed reply }
    ensures next { IfOk result (λ n. n ≡ next_of named rooms request reply) }
    ensures there { IfOk result (NextIn rooms) }
    ensures starved { OnErr result (MayWantMemory request reply) }
{
    match request {
        Request::Creating {
            game,
            seats,
            seed,
            room,
        } => create(alloc, rooms, game, seats, seed, room, reply),
        Request::Listing { game, rows, room } => list(alloc, rooms, game, rows, room, reply),
        Request::Looking => match look(alloc, reply) {
            Ok(answer) => Ok(Next::Says(answer)),
            Err(no) => Err(no),
        },
        Request::Joining { name, seat, key } => Ok(Next::Says(join(name, seat, key, reply))),
        Request::Renaming { name, seat } => Ok(Next::Says(rename(name, seat, reply))),
        Request::Leaving { name, seat } => Ok(Next::Says(leave(name, seat, reply))),
        Request::Syncing { room } => Ok(sync(room, reply)),
        Request::Acting { ticket } => Ok(act(ticket, reply)),
    }
}

/// A create goes on with the next room where one is busy.
fn create(
    alloc: Global,
    rooms: u8,
    game: Text,
    seats: u8,
    seed: [u8; 32],
    room: u8,
    reply: RoomReply,
) -> Result<Next<AnyGame>, NoMemory>
    requires rooms { rooms ≤ 64 }
    requires room { room < rooms }
    requires named { IsNamed reply }
    ensures next { IfOk result (λ n. n ≡ next_of named rooms (Creating game seats seed room) reply) }
    ensures starved { OnErr result (MayWantMemory (Creating game seats seed room) reply) }
{
    match reply {
        RoomReply::Busy => ask(alloc, rooms, game, seats, seed, room + 1),
        RoomReply::Created { serial } => Ok(Next::Says(WrittenAnswer::created(MatchName::new(
            room, serial,
        )))),
        other => Ok(Next::Says(undone(None, other))),
    }
}

/// A room is asked for a match, if there is one more.
fn ask(
    alloc: Global,
    rooms: u8,
    game: Text,
    seats: u8,
    seed: [u8; 32],
    room: u8,
) -> Result<Next<AnyGame>, NoMemory>
    ensures { IfOk result (λ n. n ≡ tries named rooms game seats seed room) }
{
    if room < rooms {
        match by_name(alloc, game.as_str()) {
            Ok(found) => Ok(make(found, game, seats, seed, room)),
            Err(no) => Err(no),
        }
    } else {
        Ok(refuse(Refusal::Full))
    }
}

/// A list goes on with the next room, whatever stands in this one.
fn list(
    alloc: Global,
    rooms: u8,
    game: Text,
    rows: Rows,
    room: u8,
    reply: RoomReply,
) -> Result<Next<AnyGame>, NoMemory>
    requires rooms { rooms ≤ 64 }
    requires room { room < rooms }
    ensures next { IfOk result (λ n. n ≡ after_listing rooms game rows room reply) }
    ensures starved { OnErr result (MayWantMemory (Listing game rows room) reply) }
{
    match reply {
        RoomReply::Looked(row) => {
            let rows = if row.game.is(game.as_str()) {
                rows.with(alloc, row)?
            } else {
                rows
            };
            Ok(look_on(rooms, game, rows, room + 1))
        }
        RoomReply::NoMemory => Ok(Next::Says(WrittenAnswer::again(None))),
        other => {
            drop(other);
            Ok(look_on(rooms, game, rows, room + 1))
        }
    }
}

/// A look at a room, or the list once there is no further room.
pub fn look_on<X>(rooms: u8, game: Text, rows: Rows, room: u8) -> Next<X>
    ensures { result ≡ lists rooms game rows room }
{
    if room < rooms {
        Next::Calls {
            room,
            call: RoomCall::Look { serial: None },
            request: Request::Listing { game, rows, room },
        }
    } else {
        Next::Says(WrittenAnswer::matches(rows))
    }
}

fn look(alloc: Global, reply: RoomReply) -> Result<WrittenAnswer, NoMemory>
    ensures answer { IfOk result (λ a. a ≡ looked_by reply) }
    ensures starved { OnErr result (MayWantMemory Looking reply) }
{
    match reply {
        RoomReply::Looked(row) => WrittenAnswer::row(alloc, row),
        other => Ok(undone(None, other)),
    }
}

fn join(name: MatchName, seat: Seat, key: Key, reply: RoomReply) -> WrittenAnswer
    ensures { result ≡ joined_by name seat key reply }
{
    match reply {
        RoomReply::Joined => WrittenAnswer::joined(key, name, seat),
        other => undone(None, other),
    }
}

fn rename(name: MatchName, seat: Seat, reply: RoomReply) -> WrittenAnswer
    ensures { result ≡ renamed_by name seat reply }
{
    match reply {
        RoomReply::Renamed => WrittenAnswer::renamed(name, seat),
        other => undone(None, other),
    }
}

fn leave(name: MatchName, seat: Seat, reply: RoomReply) -> WrittenAnswer
    ensures { result ≡ left_by name seat reply }
{
    match reply {
        RoomReply::Left => WrittenAnswer::left(name, seat),
        other => undone(None, other),
    }
}

fn sync<X>(room: u8, reply: RoomReply) -> Next<X>
    ensures { result ≡ after_attach room reply }
{
    match reply {
        RoomReply::Attached => Next::Attaches { room },
        other => Next::Says(undone(None, other)),
    }
}

fn act<X>(ticket: u32, reply: RoomReply) -> Next<X>
    ensures { result ≡ after_submit ticket reply }
{
    match reply {
        RoomReply::Verdict(_) => Next::Silent,
        other => Next::Says(undone(Some(ticket), other)),
    }
}

/// The answer to a request that its room didn't do.
fn undone(ticket: Option<u32>, reply: RoomReply) -> WrittenAnswer
    ensures { result ≡ undone_by ticket reply }
{
    match reply {
        RoomReply::NoMemory => WrittenAnswer::again(ticket),
        other => {
            let refusal = refusal_by(&other);
            drop(other);
            WrittenAnswer::refused(refusal)
        }
    }
}

/// What a room's refusal is to a session.
fn refusal_by(reply: &RoomReply) -> Refusal
    ensures { result ≡ refusal_of_reply reply.now }
{
    match reply {
        RoomReply::Busy => Refusal::Full,
        RoomReply::BadSeats => Refusal::BadSeats,
        RoomReply::NoStart => Refusal::NoStart,
        RoomReply::NoSeat => Refusal::NoSeat,
        RoomReply::SeatTaken => Refusal::SeatTaken,
        RoomReply::BadName => Refusal::BadName,
        RoomReply::AlreadyAttached => Refusal::AlreadyAttached,
        RoomReply::Unauthorized => Refusal::Unauthorized,
        RoomReply::NotAttached => Refusal::NotAttached,
        _ => Refusal::NoMatch,
    }
}
