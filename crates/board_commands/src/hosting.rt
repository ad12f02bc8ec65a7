//! Serves matches in rooms whose changes are kept, as the words of `serve` ask for.

ghost use Rattle.std.specs.Prelude.{◌≡◌, ◌≤◌, ◌<◌, ◌⊎◌, ◌++◌, List, [], IfSome, None, Option, Some, false, map, option_map, string_bytes, vec_len};
ghost use Rattle.command_words.specs.Serve.{serve_from};
ghost use Rattle.command_words.specs.declared.serve.ServeWords.{ServeWords as Asked};
ghost use Rattle.kept_room.specs.Asides.{may_refuse};
ghost use Rattle.kept_room.specs.Journal.{Calls};
ghost use Rattle.line_runner.specs.declared.exit.Exit.TheVariants.{Usage};
ghost use Rattle.session_pool.specs.Sittings.{AreServed};
ghost use Rattle.session_pool.specs.Watched.{StandsIn};
ghost use Rattle.board_commands.specs.Hosting.{Hosts, exit_after, exit_of_opening, exit_of_stop, first_stop};
ghost use Rattle.board_commands.specs.Playing.{IsRefused};

use board_links::{Door, Sink};
use command_words::{ServeWords, WordsNo, serve_words};
use door_serve::ServeEnd;
use kept_serve::{ClosedRoom, Shelf, open_rooms, serve_opened};
use line_runner::Exit;
use link_rounds::Ready;
use object_journal::{OpenNo, Stop};
use room_disk::Disk;
use room_keeper::Outside;
use std::alloc::Global;
use std::sync::Wait;
use std::thread::Threads;

/// Serves as `serve` does, without bots, in rooms whose changes are kept on the disks of a shelf. All rooms that the words ask for are opened first,
/// before a link is taken. A match to which no session was attached for as many minutes as the words say, by the clock outside, is
/// cleared.
///
/// There is one of `readies` for each worker that the words ask for. The door has given no link, hasn't answered that it is shut, and tells of none
/// that came back; no link is out when it comes back. `Usage` comes exactly where the words are in no form, and then nothing was asked of the door or
/// the shelf, and nothing was printed. `hosts` says of each other end where it comes, and what the disk of each room has, which comes back in
/// the order of the rooms, or none where there was no memory for them; and that the links were served by the very histories of which it speaks, by
/// sessions that began having seen what the rooms stood for when serving began, as `serve_opened` says. Where a room can't be opened, no link is taken,
/// and the end says why: for one of the causes that `open_rooms` names.
/// Where a room has stopped, the end is why the first one did, unless the door, the sink or memory failed.
pub fn serve_kept<
    S: Shelf,
    P: Door + Send,
    W: Ready<P::L> + Send,
    K: Sink,
    R: Threads + Wait + Sync,
    C: Outside + Send,
>(
    rt: &R,
    alloc: Global,
    words: &[String],
    shelf: &mut S,
    readies: Vec<W>,
    door: P,
    sink: &mut K,
    seed: [u8; 32],
    outside: C,
) -> (Exit, P, Vec<ClosedRoom<S::D>>)
where
    S::D: Send,
    P::L: Send,
    requires workers { (asked : Asked) → serve_from (map string_bytes words.now) ≡ Some asked → vec_len readies ≡ asked.workers }
    requires fresh { (P.given door ≡ 0) × (P.out door ≡ 0) × (P.bots_out door ≡ 0) × (P.shut door ≡ false) }
    requires none_back { IfSome (P.returned door) (λ told. told ≡ []) }
    ensures out { (P.out result.1 ≡ 0) × (P.bots_out result.1 ≡ 0) }
    ensures sink_never_falls { K.faults sink.old ≤ K.faults sink.new }
    ensures shelf_never_falls { S.faults shelf.old ≤ S.faults shelf.new }
    ensures usage { result.0 ≡ Usage → serve_from (map string_bytes words.now) ≡ None }
    ensures refused { serve_from (map string_bytes words.now) ≡ None → IsRefused result.0 × (result.2.items ≡ []) }
    ensures untouched_door { serve_from (map string_bytes words.now) ≡ None → result.1 ≡ door }
    ensures untouched_sink { serve_from (map string_bytes words.now) ≡ None → sink.new ≡ sink.old }
    ensures untouched_shelf { serve_from (map string_bytes words.now) ≡ None → shelf.new ≡ shelf.old }
    ensures served { (asked : Asked) → serve_from (map string_bytes words.now) ≡ Some asked
        → (pasts : List Calls) × AreServed may_refuse seed asked.links pasts (λ s. Unit {0}) (P.returned result.1) }
    ensures hosts { (asked : Asked) → serve_from (map string_bytes words.now) ≡ Some asked
        → Hosts S.D.is_told S.D.seen S.D.may_leave S.D.moment S.D.left_since S.D.faults asked
        (λ pasts histories. AreServed may_refuse seed asked.links pasts (StandsIn histories) (P.returned result.1)) result.0 result.2.items (S.given shelf.old) (S.given shelf.new)
        (S.faults shelf.old) (S.faults shelf.new) (P.faults door) (P.left door) (P.shut result.1) (P.faults result.1) (P.given result.1) (K.faults sink.old) (K.faults sink.new) }
{
    match serve_words(alloc, words) {
        Ok(asked) => host_asked(rt, alloc, asked, shelf, readies, door, sink, seed, outside),
        Err(WordsNo::Usage) => {
            drop(readies);
            drop(outside);
            (Exit::Usage, door, Vec::new(alloc))
        }
        Err(WordsNo::NoMemory) => {
            drop(readies);
            drop(outside);
            (Exit::NoMemory, door, Vec::new(alloc))
        }
    }
}

/// Opens the rooms, and serves as was asked for.
fn host_asked<
    S: Shelf,
    P: Door + Send,
    W: Ready<P::L> + Send,
    K: Sink,
    R: Threads + Wait + Sync,
    C: Outside + Send,
>(
    rt: &R,
    alloc: Global,
    asked: ServeWords,
    shelf: &mut S,
    readies: Vec<W>,
    door: P,
    sink: &mut K,
    seed: [u8; 32],
    outside: C,
) -> (Exit, P, Vec<ClosedRoom<S::D>>)
where
    S::D: Send,
    P::L: Send,
    requires rooms { (0 < asked.rooms) × (asked.rooms ≤ 64) }
    requires workers { (0 < asked.workers) × (asked.workers ≤ asked.links) × (asked.links ≤ 4096) }
    requires readies { vec_len readies ≡ asked.workers }
    requires fresh { (P.given door ≡ 0) × (P.out door ≡ 0) × (P.bots_out door ≡ 0) × (P.shut door ≡ false) }
    requires none_back { IfSome (P.returned door) (λ told. told ≡ []) }
    ensures out { (P.out result.1 ≡ 0) × (P.bots_out result.1 ≡ 0) }
    ensures sink_never_falls { K.faults sink.old ≤ K.faults sink.new }
    ensures shelf_never_falls { S.faults shelf.old ≤ S.faults shelf.new }
    ensures served { (pasts : List Calls) × AreServed may_refuse seed asked.links pasts (λ s. Unit {0}) (P.returned result.1) }
    ensures hosts { Hosts S.D.is_told S.D.seen S.D.may_leave S.D.moment S.D.left_since S.D.faults asked
        (λ pasts histories. AreServed may_refuse seed asked.links pasts (StandsIn histories) (P.returned result.1)) result.0 result.2.items (S.given shelf.old) (S.given shelf.new)
        (S.faults shelf.old) (S.faults shelf.new) (P.faults door) (P.left door) (P.shut result.1) (P.faults result.1) (P.given result.1) (K.faults sink.old) (K.faults sink.new) }
{
    let rooms = asked.rooms;
    let links = asked.links;
    let sessions = asked.sessions;
    let idle = asked.idle;
    drop(asked);
    match open_rooms(rt, alloc, shelf, rooms, u32::from(links) + 2) {
        Ok(opened) => {
            let (end, door, closed) = serve_opened(
                rt, alloc, opened, links, readies, idle, outside, sessions, door, sink, seed,
            );
            let exit = exit_after(end, closed.as_slice());
            (exit, door, closed)
        }
        Err(why) => {
            drop(readies);
            drop(outside);
            (exit_of_opening(why), door, Vec::new(alloc))
        }
    }
}

/// The end where a room wasn't opened.
fn exit_of_opening(why: OpenNo) -> Exit
    ensures { result ≡ exit_of_opening why }
{
    match why {
        OpenNo::DiskFault => Exit::StoreFault,
        OpenNo::Long => Exit::LongJournal,
        OpenNo::Damaged { place } => Exit::BadRecord { place },
        OpenNo::NoMemory => Exit::NoMemory,
    }
}

/// The end of a run that served these rooms.
fn exit_after<D: Disk + Drop>(end: ServeEnd, closed: &[ClosedRoom<D>]) -> Exit
    ensures { result ≡ exit_after end closed.now }
{
    match end {
        ServeEnd::Done => exit_of_stop(first_stop(closed)),
        ServeEnd::DoorFault => Exit::DoorFault,
        ServeEnd::WriteFault => Exit::WriteFault,
        ServeEnd::NoMemory => Exit::NoMemory,
    }
}

/// Why the first of these rooms that has stopped did.
fn first_stop<D: Disk + Drop>(closed: &[ClosedRoom<D>]) -> Option<Stop>
    ensures { result ≡ first_stop closed.now }
{
    let [room, rest @ ..] = closed else {
        return None;
    };
    match room.stopped {
        Some(why) => Some(why),
        None => first_stop(rest),
    }
}

/// The end by why a room has stopped, if one has.
fn exit_of_stop(stop: Option<Stop>) -> Exit
    ensures { result ≡ exit_of_stop stop }
{
    match stop {
        None => Exit::Done,
        Some(Stop::NoMemory) => Exit::NoMemory,
        Some(Stop::Full { .. }) => Exit::LongJournal,
        Some(Stop::NotKept { .. }) => Exit::StoreFault,
    }
}
