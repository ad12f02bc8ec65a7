//! Serves matches, as the words of `serve` ask for, with bots or without.

ghost use Rattle.std.specs.Prelude.{◌≡◌, ◌≤◌, ◌<◌, ◌+◌, ℕ, All, IfOk, IfSome, IsSome, None, Some, [], false, map, string_bytes, vec_len};
ghost use Rattle.any_game.specs.AnyRules.{any_rules};
ghost use Rattle.board_links.specs.Faults.{HasRisen};
ghost use Rattle.command_words.specs.Serve.{serve_from};
ghost use Rattle.command_words.specs.declared.serve.ServeWords.{ServeWords as Asked};
ghost use Rattle.link_play.specs.Ends.{IsComplete};
ghost use Rattle.door_serve.specs.Rooms.{Calls, Stand, hosted};
ghost use Rattle.hosted_room.specs.Calls.{NobodyIn};
ghost use Rattle.session_pool.specs.Rooms.{numbers};
ghost use Rattle.session_pool.specs.Sittings.{AreServed};
ghost use Rattle.match_master.specs.Held.{may_starve};
ghost use Rattle.line_runner.specs.declared.exit.Exit.TheVariants.{Usage};
ghost use Rattle.board_commands.specs.Playing.{IsRefused};
ghost use Rattle.board_commands.specs.Serving.{AreNew, ServedIn, Serves, exit_of, gauged, seats_asked};

use crate::seating::serve_seated;
use any_game::AnyGame;
use board_bots::{Bot, Rest};
use board_links::{Door, Sink};
use command_words::{ServeWords, WordsNo, serve_words};
use door_serve::{ServeEnd, serve_rooms};
use game_sheet::NoMemory;
use hosted_room::HostedRoom;
use line_runner::Exit;
use link_rounds::Ready;
use match_master::Book;
use room_keeper::{GaugedRoom, HallKeeper, Keeper, Outside, watch_rooms};
use room_object::Object;
use session_pool::plain_rooms;
use std::alloc::Global;
use std::sync::Wait;
use std::thread::Threads;

/// Serves the links of a door with the rooms, the workers, the links at once and the sessions that the words ask for, until the door is shut, has
/// given so many sessions, or fails; then closes the rooms and prints the report. The first word is `serve`. The rooms keep nothing, whatever the
/// words say of a folder. A match to which no session was attached for as many minutes as the words say, by the clock outside, is cleared.
///
/// There is one of `readies` for each worker that the words ask for; each says whose turn it is at its worker. The door has given no link, hasn't
/// answered that it is shut, and tells of none that came back; no link is out when it comes back. `Usage` comes exactly where the words are in
/// no form, and then nothing was asked of the door and nothing was printed. `serves` says of each other end where it comes and what was printed,
/// which is a function of the count of links and of the books that are handed back, in the order of the rooms, or none where there was no memory
/// to set the rooms up; `completes`, that a door and a sink without a fault give `Done`, or there was no memory. Place p, one for
/// each link at once, draws its words from stream p of the seed, one session after another; a door that tells what came back tells only links
/// that were served so, where no bots were asked for, each by a session whose passes had seen beginnings of the books' histories in the end, and
/// before its first turn at least what the new books stood for, which comes to nothing.
///
/// There are as many of `bots`, and of `rests`, as the words ask for seats, and none where they ask for no bots. The bots sit at the seats of the
/// first match of room 0, in order, as players over links of their own, which come before those of the door and count as sessions as they do. The
/// match is made before any link is taken, with words 0 to 7 of stream 32 of the seed. The door has no bots' links of its own. The pace that the
/// words ask for says when bots get their turns, and no clause speaks of it.
pub fn serve<
    D: Door + Send,
    W: Ready<D::L> + Send,
    K: Sink,
    R: Threads + Wait + Sync,
    Z: Rest + Send,
    C: Outside + Send,
>(
    rt: &R,
    alloc: Global,
    words: &[String],
    readies: Vec<W>,
    door: D,
    sink: &mut K,
    seed: [u8; 32],
    bots: Vec<Box<dyn Bot + Send>>,
    rests: Vec<Z>,
    outside: C,
) -> (Exit, D, Vec<GaugedRoom<AnyGame, Book<AnyGame>>>)
where
    D::L: Send,
    requires plain { D.has_bots ≡ false }
    requires bots { (asked : Asked) → serve_from (map string_bytes words.now) ≡ Some asked → vec_len bots ≡ seats_asked asked.bots }
    requires rests { (asked : Asked) → serve_from (map string_bytes words.now) ≡ Some asked → vec_len rests ≡ seats_asked asked.bots }
    requires workers { (asked : Asked) → serve_from (map string_bytes words.now) ≡ Some asked → vec_len readies ≡ asked.workers }
    requires fresh { (D.given door ≡ 0) × (D.out door ≡ 0) × (D.bots_out door ≡ 0) × (D.shut door ≡ false) }
    requires none_back { IfSome (D.returned door) (λ told. told ≡ []) }
    ensures out { (D.out result.1 ≡ 0) × (D.bots_out result.1 ≡ 0) }
    ensures sink_never_falls { K.faults sink.old ≤ K.faults sink.new }
    ensures usage { result.0 ≡ Usage → serve_from (map string_bytes words.now) ≡ None }
    ensures refused { serve_from (map string_bytes words.now) ≡ None → IsRefused result.0 × (result.2.items ≡ []) }
    ensures untouched_door { serve_from (map string_bytes words.now) ≡ None → result.1 ≡ door }
    ensures untouched_sink { serve_from (map string_bytes words.now) ≡ None → sink.new ≡ sink.old }
    ensures serves { (asked : Asked) → serve_from (map string_bytes words.now) ≡ Some asked
        → Serves gauged asked result.0 result.2.items (D.faults door) (D.left door) (D.shut result.1) (D.faults result.1) (D.given result.1)
        (K.faults sink.old) (K.faults sink.new) (K.held sink.old) (K.held sink.new) }
    ensures served { (asked : Asked) → serve_from (map string_bytes words.now) ≡ Some asked → asked.bots ≡ None
        → ServedIn gauged AreNew (λ pasts knows. AreServed may_starve seed asked.links pasts knows (D.returned result.1)) result.2.items }
    ensures completes { (asked : Asked) → serve_from (map string_bytes words.now) ≡ Some asked
        → (HasRisen (D.faults door) (D.faults result.1) → ⊥) → (HasRisen (K.faults sink.old) (K.faults sink.new) → ⊥) → IsComplete result.0 }
{
    match serve_words(alloc, words) {
        Ok(asked) => serve_plain(
            rt, alloc, asked, readies, door, sink, seed, bots, rests, outside,
        ),
        Err(WordsNo::Usage) => {
            drop(readies);
            drop(bots);
            drop(rests);
            drop(outside);
            (Exit::Usage, door, Vec::new(alloc))
        }
        Err(WordsNo::NoMemory) => {
            drop(readies);
            drop(bots);
            drop(rests);
            drop(outside);
            (Exit::NoMemory, door, Vec::new(alloc))
        }
    }
}

/// Serves as was asked for, with rooms that keep nothing.
fn serve_plain<
    D: Door + Send,
    W: Ready<D::L> + Send,
    K: Sink,
    R: Threads + Wait + Sync,
    Z: Rest + Send,
    C: Outside + Send,
>(
    rt: &R,
    alloc: Global,
    asked: ServeWords,
    readies: Vec<W>,
    door: D,
    sink: &mut K,
    seed: [u8; 32],
    bots: Vec<Box<dyn Bot + Send>>,
    rests: Vec<Z>,
    outside: C,
) -> (Exit, D, Vec<GaugedRoom<AnyGame, Book<AnyGame>>>)
where
    D::L: Send,
    requires rooms { (0 < asked.rooms) × (asked.rooms ≤ 64) }
    requires workers { (0 < asked.workers) × (asked.workers ≤ asked.links) × (asked.links ≤ 4096) }
    requires readies { vec_len readies ≡ asked.workers }
    requires plain { D.has_bots ≡ false }
    requires bots { (vec_len bots ≡ seats_asked asked.bots) × (vec_len rests ≡ seats_asked asked.bots) }
    requires fresh { (D.given door ≡ 0) × (D.out door ≡ 0) × (D.bots_out door ≡ 0) × (D.shut door ≡ false) }
    requires none_back { IfSome (D.returned door) (λ told. told ≡ []) }
    ensures out { (D.out result.1 ≡ 0) × (D.bots_out result.1 ≡ 0) }
    ensures sink_never_falls { K.faults sink.old ≤ K.faults sink.new }
    ensures served { asked.bots ≡ None
        → ServedIn gauged AreNew (λ pasts knows. AreServed may_starve seed asked.links pasts knows (D.returned result.1)) result.2.items }
    ensures serves { Serves gauged asked result.0 result.2.items (D.faults door) (D.left door) (D.shut result.1) (D.faults result.1) (D.given result.1)
        (K.faults sink.old) (K.faults sink.new) (K.held sink.old) (K.held sink.new) }
{
    match watched_rooms(alloc, asked.rooms, asked.idle, outside) {
        Ok((rooms, keeper)) => serve_asked(
            rt, alloc, asked, rooms, readies, door, sink, seed, bots, rests, keeper,
        ),
        Err(NoMemory) => {
            drop(asked);
            drop(readies);
            drop(bots);
            drop(rests);
            (Exit::NoMemory, door, Vec::new(alloc))
        }
    }
}

/// So many rooms that keep nothing, each with a gauge; and a keeper that names their matches, each once nobody was attached for so many minutes, or
/// none where they are 0, and that answers who asks from outside.
fn watched_rooms<C: Outside>(
    alloc: Global,
    rooms: u8,
    minutes: u32,
    outside: C,
) -> Result<
    (
        Vec<GaugedRoom<AnyGame, Book<AnyGame>>>,
        Option<HallKeeper<C>>,
    ),
    NoMemory,
>
    requires rooms { rooms ≤ 64 }
    ensures count { IfOk result (λ r. vec_len r.0 ≡ rooms) }
    ensures numbered { IfOk result (λ r. map (λ b. ⟦<GaugedRoom<AnyGame, Book<AnyGame>> as Object>⟧.number b) r.0.items ≡ numbers 0 (vec_len r.0)) }
    ensures fresh { IfOk result (λ r. All (λ b. ⟦<GaugedRoom<AnyGame, Book<AnyGame>> as Object>⟧.stands_for b []) r.0.items) }
    ensures stand { IfOk result (λ r. All (λ b. (past : Calls) × ⟦<GaugedRoom<AnyGame, Book<AnyGame>> as Object>⟧.stands_for b past) r.0.items) }
    ensures nobody { (places : ℕ) → IfOk result (λ r. All (λ b. (past : Calls) → ⟦<GaugedRoom<AnyGame, Book<AnyGame>> as Object>⟧.stands_for b past
        → NobodyIn any_rules places (⟦<GaugedRoom<AnyGame, Book<AnyGame>> as Object>⟧.number b) past) r.0.items) }
{
    let rooms = plain_rooms(alloc, rooms)?;
    watch_rooms(alloc, rooms, minutes, outside)
}

/// Serves as was asked for, with these rooms.
fn serve_asked<
    B: HostedRoom<AnyGame> + Send,
    D: Door + Send,
    W: Ready<D::L> + Send,
    K: Sink,
    R: Threads + Wait + Sync,
    Z: Rest + Send,
    Q: Keeper + Send,
>(
    rt: &R,
    alloc: Global,
    asked: ServeWords,
    rooms: Vec<B>,
    readies: Vec<W>,
    door: D,
    sink: &mut K,
    seed: [u8; 32],
    bots: Vec<Box<dyn Bot + Send>>,
    rests: Vec<Z>,
    keeper: Option<Q>,
) -> (Exit, D, Vec<B>)
where
    D::L: Send,
    requires many { vec_len rooms ≡ asked.rooms }
    requires rooms { (0 < asked.rooms) × (asked.rooms ≤ 64) }
    requires numbered { map (λ b. B.number b) rooms.items ≡ numbers 0 (vec_len rooms) }
    requires stand { All (λ b. (past : Calls) × B.stands_for b past) rooms.items }
    requires nobody { All (λ b. (past : Calls) → B.stands_for b past → NobodyIn any_rules (asked.links + 2) (B.number b) past) rooms.items }
    requires workers { (0 < asked.workers) × (asked.workers ≤ asked.links) × (asked.links ≤ 4096) }
    requires readies { vec_len readies ≡ asked.workers }
    requires plain { D.has_bots ≡ false }
    requires bots { (vec_len bots ≡ seats_asked asked.bots) × (vec_len rests ≡ seats_asked asked.bots) }
    requires fresh { (D.given door ≡ 0) × (D.out door ≡ 0) × (D.bots_out door ≡ 0) × (D.shut door ≡ false) }
    requires none_back { IfSome (D.returned door) (λ told. told ≡ []) }
    ensures out { (D.out result.1 ≡ 0) × (D.bots_out result.1 ≡ 0) }
    ensures sink_never_falls { K.faults sink.old ≤ K.faults sink.new }
    ensures served { asked.bots ≡ None
        → ServedIn (hosted B.number B.stands_for B.has_stopped) (Stand B.stands_for rooms.items)
        (λ pasts knows. AreServed B.may_starve seed asked.links pasts knows (D.returned result.1)) result.2.items }
    ensures serves { Serves (hosted B.number B.stands_for B.has_stopped) asked result.0 result.2.items (D.faults door) (D.left door) (D.shut result.1)
        (D.faults result.1) (D.given result.1) (K.faults sink.old) (K.faults sink.new) (K.held sink.old) (K.held sink.new) }
{
    let ServeWords {
        listen,
        rooms: _,
        workers: _,
        links,
        sessions,
        silence: _,
        idle: _,
        origin,
        page,
        keep,
        status,
        ws: _,
        bots: table,
        pace,
    } = asked;
    drop(listen);
    drop(origin);
    drop(page);
    drop(keep);
    drop(status);
    match table {
        None => {
            drop(bots);
            drop(rests);
            let (end, door, rooms) = serve_rooms(
                rt, alloc, rooms, links, readies, None, keeper, sessions, door, sink, seed,
            );
            (exit_of(end), door, rooms)
        }
        Some((game, seats)) => {
            let (end, door, rooms) = serve_seated(
                rt, alloc, rooms, links, readies, game, seats, pace, bots, rests, keeper, sessions,
                door, sink, seed,
            );
            (exit_of(end), door, rooms)
        }
    }
}

/// The end of a run that served.
fn exit_of(end: ServeEnd) -> Exit
    ensures { result ≡ exit_of end }
{
    match end {
        ServeEnd::Done => Exit::Done,
        ServeEnd::DoorFault => Exit::DoorFault,
        ServeEnd::WriteFault => Exit::WriteFault,
        ServeEnd::NoMemory => Exit::NoMemory,
    }
}
