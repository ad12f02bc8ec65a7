//! The desks of all rooms, and each place's list of passes, one for each room in order.

ghost use Rattle.std.specs.Prelude.{◌≡◌, ◌+◌, ◌<◌, ◌≤◌, ℕ, List, [], length, map, IfOk, All, None, vec_len};
ghost use Rattle.any_game.specs.AnyRules.{any_rules};
ghost use Rattle.any_game.specs.GameKind.{GameKind};
ghost use Rattle.hosted_room.specs.Calls.{NobodyIn};
ghost use Rattle.room_desk.specs.History.{dealt};
ghost use Rattle.room_history.specs.declared.call.RoomCall.{RoomCall as Asks};
ghost use Rattle.room_object.specs.Entry.{Entry};
ghost use Rattle.session_pool.specs.Passes.{Belong, number_of, unseen};
ghost use Rattle.session_pool.specs.Placed.{AttachedBy};
ghost use Rattle.session_pool.specs.Rooms.{HaveSeen, StandFor, row_of, rows_from, dealt_to, numbers};
ghost use Rattle.session_pool.specs.Watched.{History, seen_of};

use any_game::AnyGame;
use game_sheet::NoMemory;
use hosted_room::HostedRoom;
use match_master::Book;
use room_desk::{Desk, Pass};
use room_object::Object;
use std::alloc::Global;

/// Takes the last pass of each room.
fn row<B: HostedRoom<AnyGame>>(
    alloc: Global,
    desks: &[Desk<B>],
    by_room: &mut Vec<Vec<Pass<B>>>,
    number: u32,
) -> Result<Vec<Pass<B>>, NoMemory>
    requires dealt { map (λ v. map unseen v.items) by_room.old.items ≡ dealt_to desks.now (number + 1) }
    requires free { All (λ v. AttachedBy v.items None) by_room.old.items }
    ensures row { IfOk result (λ p. map unseen p.items ≡ row_of desks.now number) }
    ensures row_free { IfOk result (λ p. AttachedBy p.items None) }
    ensures left { IfOk result (λ p. map (λ v. map unseen v.items) by_room.new.items ≡ dealt_to desks.now number) }
    ensures left_free { IfOk result (λ p. All (λ v. AttachedBy v.items None) by_room.new.items) }
    ensures seen { (pasts : List History) → HaveSeen (map (λ v. v.items) by_room.old.items) pasts
        → IfOk result (λ p. HaveSeen (map (λ v. v.items) by_room.new.items) pasts × (seen_of p.items ≡ pasts)) }
{
    let mut row = Vec::with_capacity(alloc, by_room.len())?;
    for place in 0..by_room.len() {
        let Some(pass) = by_room[place].pop() else {
            unreachable!()
        };
        row.push_reserved(pass);
    }
    Ok(row)
}

/// A list of passes for each place: the pass of its number in each room.
fn deal_rooms<B: HostedRoom<AnyGame>>(
    alloc: Global,
    desks: &[Desk<B>],
    mut by_room: Vec<Vec<Pass<B>>>,
    places: u32,
) -> Result<Vec<Vec<Pass<B>>>, NoMemory>
    requires dealt { map (λ v. map unseen v.items) by_room.items ≡ dealt_to desks.now places }
    requires free { All (λ v. AttachedBy v.items None) by_room.items }
    ensures rows { IfOk result (λ r. map (λ v. map unseen v.items) r.items ≡ rows_from desks.now 0 places) }
    ensures free { IfOk result (λ r. All (λ v. AttachedBy v.items None) r.items) }
    ensures seen { (pasts : List History) → HaveSeen (map (λ v. v.items) by_room.items) pasts → IfOk result (λ r. All (λ v. seen_of v.items ≡ pasts) r.items) }
{
    let mut rows = Vec::with_capacity(alloc, places as usize)?;
    let mut number = places;
    while number > 0 {
        number -= 1;
        let row = row(alloc, desks, &mut by_room, number)?;
        rows.insert(0, row)?;
    }
    Ok(rows)
}

/// A room on a desk, and its passes.
fn open_room<B: HostedRoom<AnyGame>>(
    alloc: Global,
    room: B,
    passes: u32,
) -> Result<(Desk<B>, Vec<Pass<B>>), NoMemory>
    requires stands { (past : List (Entry (Asks GameKind))) × B.stands_for room past }
    requires nobody { (past : List (Entry (Asks GameKind))) → B.stands_for room past → NobodyIn any_rules passes (B.number room) past }
    requires passes { (0 < passes) × (passes ≤ 65536) }
    ensures object { IfOk result (λ r. r.0.desk.object ≡ B.number room) }
    ensures count { IfOk result (λ r. r.0.passes ≡ passes) }
    ensures passes { IfOk result (λ r. map unseen r.1.items ≡ dealt [] r.0.desk passes) }
    ensures free { IfOk result (λ r. AttachedBy r.1.items None) }
    ensures seen { IfOk result (λ r. (past : History) × B.stands_for room past × All (λ p. p.seen ≡ past) r.1.items) }
{
    Desk::set_up(alloc, room, passes)
}

/// The desks of 1 to 64 rooms, and for each of 1 to 65,536 places its passes, one for each room in order, all with the place's number.
///
/// The rooms are numbered from 0. Each stands for the calls that it has had, and in none is a pass of these places attached. The passes have seen the
/// calls that their rooms stood for, and no more.
pub fn set_up_rooms<B: HostedRoom<AnyGame>>(
    alloc: Global,
    rooms: Vec<B>,
    places: u32,
) -> Result<(Vec<Desk<B>>, Vec<Vec<Pass<B>>>), NoMemory>
    requires rooms { (0 < vec_len rooms) × (vec_len rooms ≤ 64) }
    requires places { (0 < places) × (places ≤ 65536) }
    requires numbered { map (λ b. B.number b) rooms.items ≡ numbers 0 (vec_len rooms) }
    requires stand { All (λ b. (past : List (Entry (Asks GameKind))) × B.stands_for b past) rooms.items }
    requires nobody { All (λ b. (past : List (Entry (Asks GameKind))) → B.stands_for b past → NobodyIn any_rules places (B.number b) past) rooms.items }
    ensures objects { IfOk result (λ r. map (λ d. d.desk.object) r.0.items ≡ numbers 0 (vec_len rooms)) }
    ensures counts { IfOk result (λ r. All (λ d. d.passes ≡ places) r.0.items) }
    ensures rows { IfOk result (λ r. map (λ v. map unseen v.items) r.1.items ≡ rows_from r.0.items 0 places) }
    ensures some { IfOk result (λ r. (vec_len r.0 ≡ vec_len rooms) × (vec_len r.1 ≡ places)) }
    ensures belong { IfOk result (λ r. All (λ p. Belong r.0.items (number_of p.items) p.items) r.1.items) }
    ensures free { IfOk result (λ r. All (λ p. AttachedBy p.items None) r.1.items) }
    ensures within { IfOk result (λ r. All (λ p. number_of p.items < places) r.1.items) }
    ensures seen { IfOk result (λ r. (pasts : List History) × StandFor B.stands_for rooms.items pasts × All (λ p. seen_of p.items ≡ pasts) r.1.items) }
{
    let mut desks = Vec::with_capacity(alloc, rooms.len())?;
    let mut by_room = Vec::with_capacity(alloc, rooms.len())?;
    for room in rooms {
        let (desk, passes) = open_room(alloc, room, places)?;
        desks.push_reserved(desk);
        by_room.push_reserved(passes);
    }
    let rows = deal_rooms(alloc, desks.as_slice(), by_room, places)?;
    Ok((desks, rows))
}

/// So many rooms of a server that keeps nothing, 64 at most: a book each, numbered from 0, in which nothing has happened.
pub fn plain_rooms(alloc: Global, rooms: u8) -> Result<Vec<Book<AnyGame>>, NoMemory>
    requires rooms { rooms ≤ 64 }
    ensures count { IfOk result (λ r. vec_len r ≡ rooms) }
    ensures numbered { IfOk result (λ r. map (λ b. ⟦<Book<AnyGame> as Object>⟧.number b) r.items ≡ numbers 0 (vec_len r)) }
    ensures fresh { IfOk result (λ r. All (λ b. ⟦<Book<AnyGame> as Object>⟧.stands_for b []) r.items) }
    ensures stand { IfOk result (λ r. All (λ b. (past : List (Entry (Asks GameKind))) × ⟦<Book<AnyGame> as Object>⟧.stands_for b past) r.items) }
    ensures nobody { (places : ℕ) → IfOk result (λ r. All (λ b. (past : List (Entry (Asks GameKind))) → ⟦<Book<AnyGame> as Object>⟧.stands_for b past
        → NobodyIn any_rules places (⟦<Book<AnyGame> as Object>⟧.number b) past) r.items) }
{
    let mut books = Vec::with_capacity(alloc, rooms as usize)?;
    for room in 0..rooms {
        let book = Book::new(alloc, room)?;
        books.push_reserved(book);
    }
    Ok(books)
}
