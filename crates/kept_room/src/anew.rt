//! A file that has just the count of a room's matches.

ghost use Rattle.std.specs.Prelude.{◌≡◌, ◌≤◌, ◌++◌, ◌∷◌, [], ℕ, IfSome, List, None, length, true};
ghost use Rattle.object_journal.specs.Replaying.{Came};
ghost use Rattle.any_game.specs.AnyRules.{any_rules};
ghost use Rattle.change_text.specs.Payload.{ActsInForm};
ghost use Rattle.record_file.specs.Records.{record_bytes};
ghost use Rattle.room_history.specs.Room.{serials, standing};
ghost use Rattle.room_object.specs.Entry.{Entry};
ghost use Rattle.kept_room.specs.Anew.{IsCleared, IsDraft};
ghost use Rattle.kept_room.specs.Journal.{Calls, stands_in};

use any_game::AnyGame;
use change_text::put_change;
use object_journal::{Replayed, Replays};
use record_file::LONGEST;
use room_changes::Change;
use room_journal::RoomBook;
use std::alloc::Global;

/// The bytes of a file in which a room, which is 0 to 63, has made so many matches and cleared each. None where there is no memory for them, or where
/// they are more than that many bytes.
pub fn cleared_bytes(alloc: Global, room: u8, made: u64, most: u64) -> Option<Vec<u8>>
    requires { room ≤ 63 }
    ensures cleared { IfSome result (λ bytes. (h : Calls) × IsCleared room made bytes.items h) }
    ensures few { IfSome result (λ bytes. length bytes.items ≤ most) }
{
    let create = create_text(alloc)?;
    let clear = clear_text(alloc)?;
    let mut book = RoomBook::new(alloc, room).ok()?;
    let bytes = bytes_of(alloc, &mut book, &create, &clear, made, most.min(LONGEST))?;
    if is_cleared(&book, made) {
        Some(bytes)
    } else {
        None
    }
}

/// Whether a room has made so many matches, of which none stands.
fn is_cleared(book: &RoomBook, made: u64) -> bool
    ensures { result ≡ true → (h : Calls) → stands_in book.now h → (serials any_rules book.now.room h ≡ made) × (standing any_rules book.now.room h ≡ None) }
{
    match book.number() {
        Some(_) => false,
        None => book.serial() == made,
    }
}

/// The bytes of a file with the records of two changes, so many times one after the other, which an object makes to which nothing has happened. None
/// where it doesn't make them, where there is no memory, or where they are more than that many bytes.
fn bytes_of<O: Replays>(
    alloc: Global,
    object: &mut O,
    first: &[u8],
    second: &[u8],
    times: u64,
    most: u64,
) -> Option<Vec<u8>>
    requires { O.stands_for object.old [] }
    ensures number { O.number object.new ≡ O.number object.old }
    ensures made { IfSome result (λ bytes. (end : ℕ) × (h : List (Entry O.Call)) × Came O.stands_for O.has_come (O.records (O.number object.old)) (O.may_follow (O.number object.old)) object.new bytes.items end h) }
    ensures few { IfSome result (λ bytes. length bytes.items ≤ most) }
{
    let mut bytes = Vec::new(alloc);
    'times: for _ in 0..times {
        if bytes.len() as u64 >= most
            || !add_record(alloc, object, &mut bytes, first)
            || !add_record(alloc, object, &mut bytes, second)
        {
            return None;
        }
    }
    if bytes.len() as u64 >= most {
        return None;
    }
    bytes.push(0).ok()?;
    Some(bytes)
}

/// Has an object make the change of a record, and adds that to the bytes of its records. False where that can't be done; then the bytes are of no use.
fn add_record<O: Replays>(
    alloc: Global,
    object: &mut O,
    bytes: &mut Vec<u8>,
    payload: &[u8],
) -> bool
    requires { (h : List (Entry O.Call)) × IsDraft O.stands_for O.has_come (O.records (O.number object.old)) (O.may_follow (O.number object.old)) object.old bytes.old.items h }
    ensures number { O.number object.new ≡ O.number object.old }
    ensures added { result ≡ true → (h : List (Entry O.Call)) × IsDraft O.stands_for O.has_come (O.records (O.number object.old)) (O.may_follow (O.number object.old)) object.new bytes.new.items h }
{
    match object.replay(alloc, payload) {
        Replayed::Done => push_record(bytes, payload).is_some(),
        Replayed::Refused | Replayed::NoMemory => false,
    }
}

/// Adds a record of this payload behind an open gate.
fn push_record(bytes: &mut Vec<u8>, payload: &[u8]) -> Option<()>
    ensures { IfSome result (λ done. bytes.new.items ≡ bytes.old.items ++ (1 ∷ record_bytes payload.now)) }
{
    let count = u32::try_from(payload.len()).ok()?;
    bytes.push(1).ok()?;
    bytes.extend_from_slice(&count.to_le_bytes()).ok()?;
    bytes.extend_from_slice(payload).ok()
}

/// The text of a match that is made.
fn create_text(alloc: Global) -> Option<Vec<u8>> {
    let game = AnyGame::tic_tac_toe(alloc).ok()?;
    text_of(
        alloc,
        Change::Create {
            game,
            seats: 2,
            seed: [0; 32],
        },
    )
}

/// The text of a match that is cleared.
fn clear_text(alloc: Global) -> Option<Vec<u8>> {
    text_of(alloc, Change::Clear)
}

/// The text of a change.
fn text_of(alloc: Global, change: Change<AnyGame>) -> Option<Vec<u8>>
    requires { ActsInForm change }
{
    let mut text = Vec::new(alloc);
    let put = put_change(alloc, &mut text, &change);
    drop(change);
    put.ok()?;
    Some(text)
}
