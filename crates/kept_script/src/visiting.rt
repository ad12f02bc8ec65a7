//! A session's lines, Takes and Detaches in the one room.

ghost use Rattle.std.specs.Prelude.{◌≡◌, None, IsSome};
ghost use Rattle.room_history.specs.declared.call.RoomCall.TheVariants as call;
ghost use Rattle.session_driver.specs.Freeing.{Frees};
ghost use Rattle.session_driver.specs.Hearing.{draws, side};
ghost use Rattle.kept_room.specs.Journal.{Since};
ghost use Rattle.kept_script.specs.Growing.{freeing_calls};
ghost use Rattle.kept_script.specs.OneRoom.{HearsKept, IsFirst, books_of, calls_book};

use any_game::AnyGame;
use dice_words::Tape;
use game_hall::SessionCore;
use kept_room::KeptRoom;
use room_disk::Disk;
use room_history::{RoomCall, RoomReply};
use session_driver::{Rooms, Tally, detach, hear, take};
use std::alloc::Global;

/// The one room, as a session calls it. Any pass may call.
#[derive(Drop)]
pub struct OneRoom<'a, D: Disk + Drop> {
    /// The room.
    pub room: &'a mut KeptRoom<D>,
}

impl<'a, D: Disk + Drop> Rooms for OneRoom<'a, D> {
    ghost use Rattle.std.specs.Prelude.{◌≡◌};
    ghost use Rattle.kept_script.specs.OneRoom.{CallsOne, IsFirst};

    ghost many = { λ d. 1 };

    ghost serves = { λ d pass. IsFirst d.room.now };

    ghost calls = { λ d pass made e. CallsOne D.is_told D.seen D.may_leave D.moment D.left_since D.faults d.room.now pass made e.room.now × (e.room.ghost_name ≡ d.room.ghost_name) };

    fn count(&self) -> u8 {
        1
    }

    fn call(&mut self, pass: u32, _room: u8, call: RoomCall<AnyGame>) -> RoomReply {
        self.room.ask(pass, call)
    }
}

/// Hears a line of a session.
fn hear_there<D: Disk + Drop>(
    alloc: Global,
    rooms: &mut OneRoom<'_, D>,
    core: &mut SessionCore,
    tape: &mut Tape,
    seed: &mut Option<[u8; 32]>,
    line: &[u8],
) -> Tally
    requires first { IsFirst rooms.old.room.now }
    requires rooms { core.old.rooms ≡ 1 }
    requires closed { core.old.request ≡ None }
    requires written { core.old.said ≡ None }
    requires live { IsSome tape.old.source }
    ensures same { rooms.new.room.ghost_name ≡ rooms.old.room.ghost_name }
    ensures hears { HearsKept D.is_told D.seen D.may_leave D.moment D.left_since D.faults rooms.old.room.now rooms.new.room.now line.now core.old (draws tape.old seed.old) core.new (draws tape.new seed.new) result }
{
    hear(alloc, rooms, core, tape, seed, line)
}

/// Hears a line of a session, without its newline, and makes the calls of its request in the one room.
pub fn hear_in<D: Disk + Drop>(
    alloc: Global,
    room: &mut KeptRoom<D>,
    core: &mut SessionCore,
    tape: &mut Tape,
    seed: &mut Option<[u8; 32]>,
    line: &[u8],
) -> Tally
    requires first { IsFirst room.old }
    requires rooms { core.old.rooms ≡ 1 }
    requires closed { core.old.request ≡ None }
    requires written { core.old.said ≡ None }
    requires live { IsSome tape.old.source }
    ensures hears { HearsKept D.is_told D.seen D.may_leave D.moment D.left_since D.faults room.old room.new line.now core.old (draws tape.old seed.old) core.new (draws tape.new seed.new) result }
{
    let mut rooms = OneRoom { room };
    hear_there(alloc, &mut rooms, core, tape, seed, line)
}

/// Takes what waits for a session.
fn take_there<D: Disk + Drop>(
    rooms: &mut OneRoom<'_, D>,
    core: &mut SessionCore,
) -> Option<RoomReply>
    requires first { IsFirst rooms.old.room.now }
    requires rooms { core.old.rooms ≡ 1 }
    ensures same { rooms.new.room.ghost_name ≡ rooms.old.room.ghost_name }
    ensures takes { Frees calls_book call.Take (side (books_of rooms.old.room.now) core.old) result (side (books_of rooms.new.room.now) core.new) }
    ensures since { Since D.is_told D.seen D.may_leave D.moment D.left_since D.faults rooms.old.room.now rooms.new.room.now (freeing_calls core.old.pass call.Take core.old.at) }
{
    take(rooms, core)
}

/// Hands out what waits for a session in the one room. The reply is none where the session isn't attached.
pub fn take_in<D: Disk + Drop>(room: &mut KeptRoom<D>, core: &mut SessionCore) -> Option<RoomReply>
    requires first { IsFirst room.old }
    requires rooms { core.old.rooms ≡ 1 }
    ensures takes { Frees calls_book call.Take (side (books_of room.old) core.old) result (side (books_of room.new) core.new) }
    ensures since { Since D.is_told D.seen D.may_leave D.moment D.left_since D.faults room.old room.new (freeing_calls core.old.pass call.Take core.old.at) }
{
    let mut rooms = OneRoom { room };
    take_there(&mut rooms, core)
}

/// Ends a session's attachment.
fn detach_there<D: Disk + Drop>(
    rooms: &mut OneRoom<'_, D>,
    core: &mut SessionCore,
) -> Option<RoomReply>
    requires first { IsFirst rooms.old.room.now }
    requires rooms { core.old.rooms ≡ 1 }
    ensures same { rooms.new.room.ghost_name ≡ rooms.old.room.ghost_name }
    ensures detaches { Frees calls_book call.Detach (side (books_of rooms.old.room.now) core.old) result (side (books_of rooms.new.room.now) core.new) }
    ensures since { Since D.is_told D.seen D.may_leave D.moment D.left_since D.faults rooms.old.room.now rooms.new.room.now (freeing_calls core.old.pass call.Detach core.old.at) }
{
    detach(rooms, core)
}

/// Ends a session's attachment in the one room. The reply is none where the session isn't attached.
pub fn detach_in<D: Disk + Drop>(
    room: &mut KeptRoom<D>,
    core: &mut SessionCore,
) -> Option<RoomReply>
    requires first { IsFirst room.old }
    requires rooms { core.old.rooms ≡ 1 }
    ensures detaches { Frees calls_book call.Detach (side (books_of room.old) core.old) result (side (books_of room.new) core.new) }
    ensures since { Since D.is_told D.seen D.may_leave D.moment D.left_since D.faults room.old room.new (freeing_calls core.old.pass call.Detach core.old.at) }
{
    let mut rooms = OneRoom { room };
    detach_there(&mut rooms, core)
}
