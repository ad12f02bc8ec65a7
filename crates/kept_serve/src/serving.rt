//! Serves a door over rooms that were opened from their journals, and gives their disks back.

ghost use Rattle.std.specs.Prelude.{◌≡◌, ◌≤◌, ◌<◌, ◌+◌, List, [], All, IfOk, IfSome, Some, false, map, vec_capacity, vec_len};
ghost use Rattle.any_game.specs.AnyRules.{any_rules};
ghost use Rattle.door_serve.specs.Ends.{EndsBy};
ghost use Rattle.hosted_room.specs.Calls.{NobodyIn};
ghost use Rattle.kept_room.specs.Asides.{may_refuse};
ghost use Rattle.kept_room.specs.Journal.{Calls};
ghost use Rattle.kept_serve.specs.Kept.{Leave, left_of};
ghost use Rattle.kept_serve.specs.Opened.{AreOpened, room_of, starts_at};
ghost use Rattle.session_pool.specs.Rooms.{numbers};
ghost use Rattle.session_pool.specs.Sittings.{AreServed};
ghost use Rattle.session_pool.specs.Watched.{StandsIn};

use crate::opened_room::{ClosedRoom, OpenedRoom};
use any_game::AnyGame;
use board_links::{Door, Sink};
use door_serve::{ServeEnd, serve_rooms};
use game_sheet::NoMemory;
use kept_room::{HostedKept, Origin};
use link_rounds::Ready;
use room_disk::Disk;
use room_keeper::{GaugedRoom, HallKeeper, Outside, watch_rooms};
use room_object::Object;
use std::alloc::Global;
use std::marker::Brand;
use std::sync::Wait;
use std::thread::Threads;

/// Serves the links of a door over 1 to 64 rooms that were opened for two passes more than there are places, as `serve_rooms` does, without a match for
/// bots. A match to which no session was attached for so many minutes by the clock outside is cleared; none is where they are 0. The rooms are closed then,
/// and come back in their order, or none where there was no memory to set them up.
///
/// **kept** says what the disk of each has, if it went by the model of a disk when its room was opened: a room that hasn't stopped has the records of
/// all its calls on its disk; whenever a crash came, it left the records of a first part of them; and from the moment of each reply that told a
/// session anything, at least those of all calls up to that one. These calls are what the room's history has on top of calls that have just the records
/// that its file had when it was opened. By these very histories, one of each room, were the links served that the door tells of: what the passes of
/// their sessions had seen in the end are beginnings of them, and before its first turn each session's passes had seen what the rooms stood for when
/// serving began, which has all records of the file. So every call that was made since then, and added a record, is one of those that the room made since
/// it was opened. A room stops only for a cause.
pub fn serve_opened<
    D: Disk + Drop + Send,
    P: Door + Send,
    W: Ready<P::L> + Send,
    K: Sink,
    R: Threads + Wait + Sync,
    C: Outside + Send,
>(
    rt: &R,
    alloc: Global,
    rooms: Vec<OpenedRoom<D>>,
    places: u16,
    readies: Vec<W>,
    idle: u32,
    outside: C,
    sessions: u64,
    door: P,
    sink: &mut K,
    seed: [u8; 32],
) -> (ServeEnd, P, Vec<ClosedRoom<D>>)
where
    P::L: Send,
    requires opened { AreOpened D.is_told D.seen D.may_leave D.moment D.left_since D.faults (places + 2) (vec_len rooms) rooms.items }
    requires rooms { (0 < vec_len rooms) × (vec_len rooms ≤ 64) }
    requires places { (0 < places) × (places ≤ 4096) }
    requires some { 0 < vec_len readies }
    requires enough { vec_len readies ≤ places }
    requires fresh { (P.given door ≡ 0) × (P.out door ≡ 0) × (P.bots_out door ≡ 0) × (P.shut door ≡ false) }
    requires none_back { IfSome (P.returned door) (λ told. told ≡ []) }
    ensures out { (P.out result.1 ≡ 0) × (P.bots_out result.1 ≡ 0) }
    ensures sink_never_falls { K.faults sink.old ≤ K.faults sink.new }
    ensures ended { EndsBy result.0 sessions (P.faults door) (P.left door) (P.shut result.1) (P.faults result.1) (P.given result.1) (K.faults sink.old) (K.faults sink.new) }
    ensures served { (pasts : List Calls) × AreServed may_refuse seed places pasts (λ s. Unit {0}) (P.returned result.1) }
    ensures kept { Leave D.is_told D.seen D.may_leave D.moment D.left_since D.faults (starts_at rooms.items) (vec_len rooms)
        (λ pasts histories. AreServed may_refuse seed places pasts (StandsIn histories) (P.returned result.1)) result.0 result.2.items }
{
    serve_hosted::<Brand, D, P, W, K, R, C>(
        rt, alloc, rooms, places, readies, idle, outside, sessions, door, sink, seed,
    )
}

/// The same, where `O` says from where the rooms came.
fn serve_hosted<
    O: Origin<D> + Send,
    D: Disk + Drop + Send,
    P: Door + Send,
    W: Ready<P::L> + Send,
    K: Sink,
    R: Threads + Wait + Sync,
    C: Outside + Send,
>(
    rt: &R,
    alloc: Global,
    rooms: Vec<OpenedRoom<D>>,
    places: u16,
    readies: Vec<W>,
    idle: u32,
    outside: C,
    sessions: u64,
    door: P,
    sink: &mut K,
    seed: [u8; 32],
) -> (ServeEnd, P, Vec<ClosedRoom<D>>)
where
    P::L: Send,
    requires opened { AreOpened D.is_told D.seen D.may_leave D.moment D.left_since D.faults (places + 2) (vec_len rooms) rooms.items }
    requires starts { All (λ r. O.start (room_of r) ≡ Some r.start.value) rooms.items }
    requires rooms { (0 < vec_len rooms) × (vec_len rooms ≤ 64) }
    requires places { (0 < places) × (places ≤ 4096) }
    requires some { 0 < vec_len readies }
    requires enough { vec_len readies ≤ places }
    requires fresh { (P.given door ≡ 0) × (P.out door ≡ 0) × (P.bots_out door ≡ 0) × (P.shut door ≡ false) }
    requires none_back { IfSome (P.returned door) (λ told. told ≡ []) }
    ensures out { (P.out result.1 ≡ 0) × (P.bots_out result.1 ≡ 0) }
    ensures sink_never_falls { K.faults sink.old ≤ K.faults sink.new }
    ensures ended { EndsBy result.0 sessions (P.faults door) (P.left door) (P.shut result.1) (P.faults result.1) (P.given result.1) (K.faults sink.old) (K.faults sink.new) }
    ensures served { (pasts : List Calls) × AreServed may_refuse seed places pasts (λ s. Unit {0}) (P.returned result.1) }
    ensures kept { Leave D.is_told D.seen D.may_leave D.moment D.left_since D.faults O.start (vec_len rooms)
        (λ pasts histories. AreServed may_refuse seed places pasts (StandsIn histories) (P.returned result.1)) result.0 result.2.items }
{
    let Ok(closed) = Vec::with_capacity(alloc, rooms.len()) else {
        drop(rooms);
        drop(readies);
        drop(outside);
        return (ServeEnd::NoMemory, door, Vec::new(alloc));
    };
    match watch_all::<O, D, C>(alloc, rooms, u32::from(places) + 2, idle, outside) {
        Ok((hosted, keeper)) => {
            let (end, door, hosted) = serve_rooms(
                rt, alloc, hosted, places, readies, None, keeper, sessions, door, sink, seed,
            );
            let closed = close_all(closed, hosted);
            (end, door, closed)
        }
        Err(NoMemory) => {
            drop(readies);
            (ServeEnd::NoMemory, door, closed)
        }
    }
}

/// The rooms as a server hosts them, each with a gauge, and a keeper of their matches, if so many minutes are said.
fn watch_all<O: Origin<D>, D: Disk + Drop, C: Outside>(
    alloc: Global,
    rooms: Vec<OpenedRoom<D>>,
    passes: u32,
    minutes: u32,
    outside: C,
) -> Result<
    (
        Vec<GaugedRoom<AnyGame, HostedKept<O, D>>>,
        Option<HallKeeper<C>>,
    ),
    NoMemory,
>
    requires opened { AreOpened D.is_told D.seen D.may_leave D.moment D.left_since D.faults passes (vec_len rooms) rooms.items }
    requires starts { All (λ r. O.start (room_of r) ≡ Some r.start.value) rooms.items }
    ensures many { IfOk result (λ r. vec_len r.0 ≡ vec_len rooms) }
    ensures numbered { IfOk result (λ r. map (λ b. ⟦<GaugedRoom<AnyGame, HostedKept<O, D>> as Object>⟧.number b) r.0.items ≡ numbers 0 (vec_len rooms)) }
    ensures stand { IfOk result (λ r. All (λ b. (past : Calls) × ⟦<GaugedRoom<AnyGame, HostedKept<O, D>> as Object>⟧.stands_for b past) r.0.items) }
    ensures nobody { IfOk result (λ r. All (λ b. (past : Calls) → ⟦<GaugedRoom<AnyGame, HostedKept<O, D>> as Object>⟧.stands_for b past
        → NobodyIn any_rules passes (⟦<GaugedRoom<AnyGame, HostedKept<O, D>> as Object>⟧.number b) past) r.0.items) }
{
    let hosted = host_all::<O, D>(alloc, rooms, passes)?;
    watch_rooms(alloc, hosted, minutes, outside)
}

/// The rooms as a server hosts them.
fn host_all<O: Origin<D>, D: Disk + Drop>(
    alloc: Global,
    rooms: Vec<OpenedRoom<D>>,
    passes: u32,
) -> Result<Vec<HostedKept<O, D>>, NoMemory>
    requires opened { AreOpened D.is_told D.seen D.may_leave D.moment D.left_since D.faults passes (vec_len rooms) rooms.items }
    requires starts { All (λ r. O.start (room_of r) ≡ Some r.start.value) rooms.items }
    ensures many { IfOk result (λ r. vec_len r ≡ vec_len rooms) }
    ensures numbered { IfOk result (λ r. map (λ b. ⟦<HostedKept<O, D> as Object>⟧.number b) r.items ≡ numbers 0 (vec_len rooms)) }
    ensures stand { IfOk result (λ r. All (λ b. (past : Calls) × ⟦<HostedKept<O, D> as Object>⟧.stands_for b past) r.items) }
    ensures nobody { IfOk result (λ r. All (λ b. (past : Calls) → ⟦<HostedKept<O, D> as Object>⟧.stands_for b past → NobodyIn any_rules passes (⟦<HostedKept<O, D> as Object>⟧.number b) past) r.items) }
{
    let mut hosted = Vec::with_capacity(alloc, rooms.len())?;
    for opened in rooms {
        let OpenedRoom { room, start } = opened;
        drop(start);
        hosted.push_reserved(HostedKept::new(room));
    }
    Ok(hosted)
}

/// Closes rooms, for all of which there is room in an empty list.
fn close_all<O: Origin<D>, D: Disk + Drop>(
    closed: Vec<ClosedRoom<D>>,
    rooms: Vec<GaugedRoom<AnyGame, HostedKept<O, D>>>,
) -> Vec<ClosedRoom<D>>
    requires none { closed.items ≡ [] }
    requires space { vec_len rooms ≤ vec_capacity closed }
    ensures { result.items ≡ map (λ b. left_of b.room.room) rooms.items }
{
    let mut closed = closed;
    for room in rooms {
        let (disk, stopped) = room.into_room().close();
        closed.push_reserved(ClosedRoom { disk, stopped });
    }
    closed
}
