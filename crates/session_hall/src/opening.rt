//! Opens: a match in the first free room, with a player at each of its seats.

ghost use Rattle.std.specs.Prelude.{◌≡◌, ◌≤◌, ◌∷◌, length, IfOk, OnOk};
ghost use Rattle.any_game.specs.AnyRules.{any_rules, named};
ghost use Rattle.any_game.specs.GameKind.{GameKind};
ghost use Rattle.hall_history.specs.Opening.{joins, seat_key};
ghost use Rattle.hall_history.specs.Rooms.{History, Rooms as AllRooms};
ghost use Rattle.match_master.specs.Held.{StandsFor, is_starved};
ghost use Rattle.session_hall.specs.Held.{AreBooks};
ghost use Rattle.session_hall.specs.Opens.{CreatesIn, OpensIn, seated_in, tried_by};

use any_game::{AnyGame, by_name};
use game_sheet::{Key, MatchName, NoMemory, Seat, Text};
use match_master::{Book, RoomCall, RoomReply};
use std::alloc::Global;

/// The pass by which the hall calls rooms itself.
pub const OWN_PASS: u32 = 32;

/// What came of asking a room for a match.
#[derive(Clone, Copy)]
pub enum Tried {
    /// It holds a match already.
    Busy,
    /// It made the match of this serial.
    Made(u64),
    /// It makes no such match.
    Refused,
    /// There was no memory.
    Starved,
}

/// Makes a match in the first room that isn't busy, and seats a player at each of its seats. It gives none where all rooms are busy, or
/// where no such match is made.
pub fn open_match(
    alloc: Global,
    books: &mut [Book<AnyGame>],
    game: &str,
    seats: u8,
    seed: [u8; 32],
) -> Result<Option<MatchName>, NoMemory>
    requires most { length books.old ≤ 64 }
    requires stand { (rooms : AllRooms GameKind) × AreBooks books.old rooms }
    ensures opened { (rooms : AllRooms GameKind) → AreBooks books.old rooms
        → IfOk result (λ made. OpensIn rooms game.now seats seed books.new made) }
    ensures stand { (rooms : AllRooms GameKind) → AreBooks books.old rooms
        → (after : AllRooms GameKind) × (length after ≡ length rooms) × AreBooks books.new after }
{
    for room in 0..books.len() {
        let book = &mut books[room];
        match create(alloc, book, game, seats, seed) {
            Tried::Busy => {}
            Tried::Made(serial) => {
                seat_players(alloc, book, serial, seats)?;
                return Ok(Some(MatchName::new(room as u8, serial)));
            }
            Tried::Refused => return Ok(None),
            Tried::Starved => return Err(NoMemory),
        }
    }
    Ok(None)
}

/// Asks a room to make a match of a game. A game that there isn't is refused.
fn create(alloc: Global, book: &mut Book<AnyGame>, game: &str, seats: u8, seed: [u8; 32]) -> Tried
    ensures created { (h : History GameKind) → StandsFor any_rules book.old h
        → CreatesIn book.old.room (named game.now) seats seed h result book.new }
    ensures room { book.new.room ≡ book.old.room }
{
    match by_name(alloc, game) {
        Ok(Some(game)) => create_game(book, game, seats, seed),
        Ok(None) => Tried::Refused,
        Err(_) => Tried::Starved,
    }
}

/// Asks a room to make a match.
fn create_game(book: &mut Book<AnyGame>, game: AnyGame, seats: u8, seed: [u8; 32]) -> Tried
    ensures created { (h : History GameKind) → StandsFor any_rules book.old h
        → CreatesIn book.old.room (Some game) seats seed h result book.new }
    ensures room { book.new.room ≡ book.old.room }
{
    let call = RoomCall::Create { game, seats, seed };
    let reply = book.apply(OWN_PASS, call);
    let tried = told(&reply);
    drop(reply);
    tried
}

/// What a reply says of a create.
fn told(reply: &RoomReply) -> Tried
    ensures { result ≡ tried_by reply.now }
{
    match reply {
        RoomReply::Busy => Tried::Busy,
        RoomReply::Created { serial } => Tried::Made(*serial),
        RoomReply::NoMemory => Tried::Starved,
        _ => Tried::Refused,
    }
}

/// Seats a player at so many seats of a match, from seat 0 on.
fn seat_players(
    alloc: Global,
    book: &mut Book<AnyGame>,
    serial: u64,
    seats: u8,
) -> Result<(), NoMemory>
    ensures seated { (h : History GameKind) → StandsFor any_rules book.old h
        → OnOk result (StandsFor any_rules book.new (seated_in serial seats h)) }
    ensures stands { (h : History GameKind) → StandsFor any_rules book.old h
        → (after : History GameKind) × StandsFor any_rules book.new after }
    ensures room { book.new.room ≡ book.old.room }
{
    for seat in 0..seats {
        seat_player(alloc, book, serial, seat)?;
    }
    Ok(())
}

/// Seats a player at a seat of a match.
fn seat_player(
    alloc: Global,
    book: &mut Book<AnyGame>,
    serial: u64,
    seat: Seat,
) -> Result<(), NoMemory>
    ensures seated { (h : History GameKind) → StandsFor any_rules book.old h
        → OnOk result (StandsFor any_rules book.new (joins serial seat ∷ h)) }
    ensures stands { (h : History GameKind) → StandsFor any_rules book.old h
        → (after : History GameKind) × StandsFor any_rules book.new after }
    ensures room { book.new.room ≡ book.old.room }
{
    let name = format!(in alloc; "p{seat}")?;
    let call = RoomCall::Join {
        serial,
        seat,
        name: Text::from_str(alloc, name.as_str())?,
        key: Key::new(key_of_seat(seat)),
    };
    let reply = book.apply(OWN_PASS, call);
    let starved = is_starved(&reply);
    drop(reply);
    if starved { Err(NoMemory) } else { Ok(()) }
}

/// The bytes of a seat's key: its number.
pub fn key_of_seat(seat: Seat) -> [u8; 16]
    ensures { result ≡ seat_key seat }
{
    [0, 0, 0, 0, 0, 0, 0, 0, 0, 0, 0, 0, 0, 0, 0, seat]
}

/// Whether a reply is want of memory.
fn is_starved(reply: &RoomReply) -> bool
    ensures { result ≡ is_starved reply.now }
{
    match reply {
        RoomReply::NoMemory => true,
        _ => false,
    }
}
