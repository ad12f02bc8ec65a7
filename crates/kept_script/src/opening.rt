//! Opens: a match in the one room, with a player at each of its seats.

ghost use Rattle.std.specs.Prelude.{◌≡◌, ◌≤◌, [], ◌∷◌, Some, IfOk, OnOk, false};
ghost use Rattle.any_game.specs.AnyRules.{any_rules, named};
ghost use Rattle.any_game.specs.GameKind.{GameKind};
ghost use Rattle.hall_history.specs.Opening.{joins, seat_key, seat_name};
ghost use Rattle.hall_history.specs.Rooms.{History, Rooms as AllRooms};
ghost use Rattle.match_master.specs.Held.{StandsFor, is_starved};
ghost use Rattle.room_history.specs.declared.call.RoomCall.TheVariants as call_of;
ghost use Rattle.session_hall.specs.Held.{AreBooks};
ghost use Rattle.session_hall.specs.Opens.{CreatesIn, OpensIn, seated_in, tried_by};
ghost use Rattle.kept_room.specs.Journal.{Calls, Since, stands_in};
ghost use Rattle.kept_script.specs.Growing.{AreOpening, creating_calls};
ghost use Rattle.kept_script.specs.OneRoom.{books_of};
ghost use Rattle.kept_script.specs.Tries.{UnlessStarved, tried_as};

use any_game::{AnyGame, by_name};
use game_sheet::{Key, MatchName, NoMemory, Seat, Text};
use kept_room::KeptRoom;
use room_disk::Disk;
use room_history::{RoomCall, RoomReply};
use std::alloc::Global;

/// The pass by which a script calls its room itself.
const OWN_PASS: u32 = 32;

/// What came of asking the room for a match.
#[derive(Clone, Copy)]
pub enum Tried {
    /// It holds a match already.
    Busy,
    /// It made the match of this serial.
    Made(u64),
    /// It makes no such match.
    Refused,
    /// There was no memory.
    Starved,
}

/// Makes a match, and seats a player at each of its seats. It gives none where the room is busy, or makes no such match.
pub fn open_match<D: Disk + Drop>(
    alloc: Global,
    room: &mut KeptRoom<D>,
    game: &str,
    seats: u8,
    seed: [u8; 32],
) -> Result<Option<MatchName>, NoMemory>
    requires first { room.old.object.room ≡ 0 }
    requires stands { (rooms : AllRooms GameKind) × AreBooks (books_of room.old) rooms }
    requires serves { (h : Calls) × stands_in room.old.object h }
    ensures opened { (rooms : AllRooms GameKind) → AreBooks (books_of room.old) rooms
        → IfOk result (λ made. OpensIn rooms game.now seats seed (books_of room.new) made) }
    ensures since { (more : Calls) × Since D.is_told D.seen D.may_leave D.moment D.left_since D.faults room.old room.new more × IfOk result (λ made. AreOpening game.now seats seed made more) }
{
    match create(alloc, room, game, seats, seed) {
        Tried::Busy => Ok(None),
        Tried::Made(serial) => seat_match(alloc, room, serial, seats),
        Tried::Refused => Ok(None),
        Tried::Starved => Err(NoMemory),
    }
}

/// Seats a player at each seat of the match that was made, and gives its name.
fn seat_match<D: Disk + Drop>(
    alloc: Global,
    room: &mut KeptRoom<D>,
    serial: u64,
    seats: u8,
) -> Result<Option<MatchName>, NoMemory>
    requires serves { (h : Calls) × stands_in room.old.object h }
    requires serial { 1 ≤ serial }
    ensures named { IfOk result (λ made. made ≡ Some (record { room = 0; serial = serial })) }
    ensures seated { (h : History GameKind) → StandsFor any_rules room.old.object.book h
        → OnOk result (StandsFor any_rules room.new.object.book (seated_in serial seats h)) }
    ensures same { room.new.object.book.room ≡ room.old.object.book.room }
    ensures since { (more : Calls) × Since D.is_told D.seen D.may_leave D.moment D.left_since D.faults room.old room.new more × OnOk result (more ≡ seated_in serial seats []) }
{
    match seat_players(alloc, room, serial, seats) {
        Ok(()) => Ok(Some(MatchName::new(0, serial))),
        Err(_) => Err(NoMemory),
    }
}

/// Asks the room to make a match of a game. A game that there isn't is refused.
fn create<D: Disk + Drop>(
    alloc: Global,
    room: &mut KeptRoom<D>,
    game: &str,
    seats: u8,
    seed: [u8; 32],
) -> Tried
    requires serves { (h : Calls) × stands_in room.old.object h }
    ensures created { (h : History GameKind) → StandsFor any_rules room.old.object.book h
        → CreatesIn room.old.object.book.room (named game.now) seats seed h (tried_as result) room.new.object.book }
    ensures same { room.new.object.book.room ≡ room.old.object.book.room }
    ensures since { (more : Calls) × Since D.is_told D.seen D.may_leave D.moment D.left_since D.faults room.old room.new more × UnlessStarved result (more ≡ creating_calls (named game.now) seats seed) }
{
    match by_name(alloc, game) {
        Ok(Some(game)) => create_game(room, game, seats, seed),
        Ok(None) => Tried::Refused,
        Err(_) => Tried::Starved,
    }
}

/// Asks the room to make a match.
fn create_game<D: Disk + Drop>(
    room: &mut KeptRoom<D>,
    game: AnyGame,
    seats: u8,
    seed: [u8; 32],
) -> Tried
    requires serves { (h : Calls) × stands_in room.old.object h }
    ensures created { (h : History GameKind) → StandsFor any_rules room.old.object.book h
        → CreatesIn room.old.object.book.room (Some game) seats seed h (tried_as result) room.new.object.book }
    ensures same { room.new.object.book.room ≡ room.old.object.book.room }
    ensures since { (more : Calls) × Since D.is_told D.seen D.may_leave D.moment D.left_since D.faults room.old room.new more × UnlessStarved result (more ≡ creating_calls (Some game) seats seed) }
{
    let reply = room.ask(OWN_PASS, RoomCall::Create { game, seats, seed });
    let tried = told(&reply);
    drop(reply);
    tried
}

/// What a reply says of a create.
fn told(reply: &RoomReply) -> Tried
    ensures { tried_as result ≡ tried_by reply.now }
{
    match reply {
        RoomReply::Busy => Tried::Busy,
        RoomReply::Created { serial } => Tried::Made(*serial),
        RoomReply::NoMemory => Tried::Starved,
        _ => Tried::Refused,
    }
}

/// Seats a player at so many seats of a match, from seat 0 on.
fn seat_players<D: Disk + Drop>(
    alloc: Global,
    room: &mut KeptRoom<D>,
    serial: u64,
    seats: u8,
) -> Result<(), NoMemory>
    requires serves { (h : Calls) × stands_in room.old.object h }
    ensures seated { (h : History GameKind) → StandsFor any_rules room.old.object.book h
        → OnOk result (StandsFor any_rules room.new.object.book (seated_in serial seats h)) }
    ensures same { room.new.object.book.room ≡ room.old.object.book.room }
    ensures since { (more : Calls) × Since D.is_told D.seen D.may_leave D.moment D.left_since D.faults room.old room.new more × OnOk result (more ≡ seated_in serial seats []) }
{
    for seat in 0..seats {
        match seat_player(alloc, room, serial, seat) {
            Ok(()) => {}
            Err(_) => return Err(NoMemory),
        }
    }
    Ok(())
}

/// Seats a player at a seat of a match.
fn seat_player<D: Disk + Drop>(
    alloc: Global,
    room: &mut KeptRoom<D>,
    serial: u64,
    seat: Seat,
) -> Result<(), NoMemory>
    requires serves { (h : Calls) × stands_in room.old.object h }
    ensures seated { (h : History GameKind) → StandsFor any_rules room.old.object.book h
        → OnOk result (StandsFor any_rules room.new.object.book (joins serial seat ∷ h)) }
    ensures same { room.new.object.book.room ≡ room.old.object.book.room }
    ensures since { (more : Calls) × Since D.is_told D.seen D.may_leave D.moment D.left_since D.faults room.old room.new more × OnOk result (more ≡ joins serial seat ∷ []) }
{
    match player(alloc, serial, seat) {
        Ok(call) => {
            let reply = room.ask(OWN_PASS, call);
            let served = served(&reply);
            drop(reply);
            served
        }
        Err(_) => Err(NoMemory),
    }
}

/// The call that seats a player at a seat of a match.
fn player(alloc: Global, serial: u64, seat: Seat) -> Result<RoomCall<AnyGame>, NoMemory>
    ensures { IfOk result (λ call. call ≡ call_of.Join serial seat (seat_name seat) (seat_key seat)) }
{
    let name = format!(in alloc; "p{seat}")?;
    Ok(RoomCall::Join {
        serial,
        seat,
        name: Text::from_str(alloc, name.as_str())?,
        key: Key::new(key_of_seat(seat)),
    })
}

/// The bytes of a seat's key: its number.
fn key_of_seat(seat: Seat) -> [u8; 16]
    ensures { result ≡ seat_key seat }
{
    [0, 0, 0, 0, 0, 0, 0, 0, 0, 0, 0, 0, 0, 0, 0, seat]
}

/// Whether a reply tells of no want of memory.
fn served(reply: &RoomReply) -> Result<(), NoMemory>
    ensures { OnOk result (is_starved reply.now ≡ false) }
{
    match reply {
        RoomReply::NoMemory => Err(NoMemory),
        _ => Ok(()),
    }
}
