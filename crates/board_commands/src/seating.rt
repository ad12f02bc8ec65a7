//! Serves rooms with bots at the seats of the first match.

ghost use Rattle.std.specs.Prelude.{◌≡◌, ◌≤◌, ◌<◌, ◌+◌, All, IfOk, None, Some, false, map, option_map, vec_len};
ghost use Rattle.any_game.specs.AnyRules.{any_rules};
ghost use Rattle.board_links.specs.Doors.{IsFresh};
ghost use Rattle.door_serve.specs.Rooms.{Calls, hosted};
ghost use Rattle.hosted_room.specs.Calls.{NobodyIn};
ghost use Rattle.session_pool.specs.Rooms.{numbers};
ghost use Rattle.board_commands.specs.Serving.{ServesSeats, seats_asked};

use any_game::AnyGame;
use bench_door::{Bench, BenchLink, BenchReady, Pace, Seats};
use board_bots::{Bot, BotLink, Rest};
use board_links::{Door, Link, Sink};
use door_serve::{ServeEnd, serve_rooms};
use game_sheet::{MatchName, NoMemory};
use hosted_room::HostedRoom;
use link_rounds::Ready;
use room_keeper::Keeper;
use std::alloc::Global;
use std::marker::Brand;
use std::sync::{Arc, Wait};
use std::thread::Threads;

/// How many bots are asked for.
pub fn seats_of(bots: &Option<(AnyGame, u8)>) -> u8
    ensures { result ≡ seats_asked bots.now }
{
    match bots {
        Some((_, seats)) => *seats,
        None => 0,
    }
}

/// The links of these bots, which are to sit at the seats of the first match of room 0, in order, each with its rest.
fn links_for<Z: Rest>(
    alloc: Global,
    game: &AnyGame,
    seats: u8,
    bots: Vec<Box<dyn Bot + Send>>,
    rests: Vec<Z>,
) -> Result<Vec<BotLink<Z>>, NoMemory>
    requires bots { vec_len bots ≡ seats }
    requires rests { vec_len rests ≡ seats }
    ensures many { IfOk result (λ l. vec_len l ≡ seats) }
    ensures fresh { IfOk result (λ l. All (λ x. IsFresh 0 x.finished (Some x.answers) (Some x.sitter.sent)) l.items) }
{
    let mut bots = bots;
    let mut rests = rests;
    bots.reverse();
    rests.reverse();
    let mut links = Vec::with_capacity(alloc, usize::from(seats))?;
    for seat in 0..seats {
        let Some(bot) = bots.pop() else {
            unreachable!()
        };
        let Some(rest) = rests.pop() else {
            unreachable!()
        };
        let own = game.copy_game(alloc)?;
        let link = BotLink::new(alloc, own, MatchName::new(0, 1), seat, bot, rest)?;
        links.push_reserved(link);
    }
    Ok(links)
}

/// What tells each worker whose turn it is, for so many bots among all its links, which play in room 0 at this pace.
fn readies_for<W: Drop>(
    alloc: Global,
    readies: Vec<W>,
    seats: u8,
    pace: u8,
) -> Result<Vec<BenchReady<W>>, NoMemory>
    ensures { IfOk result (λ r. vec_len r ≡ vec_len readies) }
{
    let pace = Arc::new(alloc, Pace::new(pace, 0))?;
    let mut seated = Vec::with_capacity(alloc, readies.len())?;
    for ready in readies {
        let pace = Arc::try_clone(&pace)?;
        seated.push(BenchReady::new(alloc, ready, seats, pace)?)?;
    }
    Ok(seated)
}

/// Serves the links of these bots, which are to sit at the seats of the first match of room 0, a match of this game, and to play at this pace, and
/// those of a door.
pub(crate) fn serve_seated<
    B: HostedRoom<AnyGame> + Send,
    D: Door + Send,
    W: Ready<D::L> + Send,
    K: Sink,
    R: Threads + Wait + Sync,
    Z: Rest + Send,
    Q: Keeper + Send,
>(
    rt: &R,
    alloc: Global,
    rooms: Vec<B>,
    places: u16,
    readies: Vec<W>,
    game: AnyGame,
    seats: u8,
    pace: u8,
    bots: Vec<Box<dyn Bot + Send>>,
    rests: Vec<Z>,
    keeper: Option<Q>,
    sessions: u64,
    door: D,
    sink: &mut K,
    seed: [u8; 32],
) -> (ServeEnd, D, Vec<B>)
where
    D::L: Send,
    requires rooms { (0 < vec_len rooms) × (vec_len rooms ≤ 64) }
    requires numbered { map (λ b. B.number b) rooms.items ≡ numbers 0 (vec_len rooms) }
    requires stand { All (λ b. (past : Calls) × B.stands_for b past) rooms.items }
    requires nobody { All (λ b. (past : Calls) → B.stands_for b past → NobodyIn any_rules (places + 2) (B.number b) past) rooms.items }
    requires places { (0 < places) × (places ≤ 4096) }
    requires some { 0 < vec_len readies }
    requires enough { vec_len readies ≤ places }
    requires plain { D.has_bots ≡ false }
    requires fresh { (D.given door ≡ 0) × (D.out door ≡ 0) × (D.bots_out door ≡ 0) × (D.shut door ≡ false) }
    requires bots { vec_len bots ≡ seats }
    requires rests { vec_len rests ≡ seats }
    ensures out { (D.out result.1 ≡ 0) × (D.bots_out result.1 ≡ 0) }
    ensures sink_never_falls { K.faults sink.old ≤ K.faults sink.new }
    ensures serves { ServesSeats (hosted B.number B.stands_for B.has_stopped) result.0 (vec_len rooms) sessions seats result.2.items
        (D.faults door) (option_map (λ n. n + seats) (D.left door)) (D.shut result.1) (D.faults result.1) (D.given result.1)
        (K.faults sink.old) (K.faults sink.new) (K.held sink.old) (K.held sink.new) }
{
    let Ok(links) = links_for(alloc, &game, seats, bots, rests) else {
        drop(rooms);
        drop(game);
        drop(readies);
        drop(keeper);
        return (ServeEnd::NoMemory, door, Vec::new(alloc));
    };
    let Ok(readies) = readies_for(alloc, readies, seats, pace) else {
        drop(rooms);
        drop(game);
        drop(links);
        drop(keeper);
        return (ServeEnd::NoMemory, door, Vec::new(alloc));
    };
    serve_bench::<B, D, BotLink<Z>, BenchReady<W>, K, R, Brand, Q>(
        rt, alloc, rooms, places, readies, game, seats, links, keeper, sessions, door, sink, seed,
    )
}

/// Serves these links first, and then those of a door, where so many bots are to sit. `N` has their number too.
fn serve_bench<
    B: HostedRoom<AnyGame> + Send,
    D: Door + Send,
    L: Link + Send,
    W: Ready<BenchLink<D::L, L>> + Send,
    K: Sink,
    R: Threads + Wait + Sync,
    N: Seats + Send,
    Q: Keeper + Send,
>(
    rt: &R,
    alloc: Global,
    rooms: Vec<B>,
    places: u16,
    readies: Vec<W>,
    game: AnyGame,
    seats: u8,
    links: Vec<L>,
    keeper: Option<Q>,
    sessions: u64,
    door: D,
    sink: &mut K,
    seed: [u8; 32],
) -> (ServeEnd, D, Vec<B>)
where
    D::L: Send,
    requires named { N.seats ≡ seats }
    requires rooms { (0 < vec_len rooms) × (vec_len rooms ≤ 64) }
    requires numbered { map (λ b. B.number b) rooms.items ≡ numbers 0 (vec_len rooms) }
    requires stand { All (λ b. (past : Calls) × B.stands_for b past) rooms.items }
    requires nobody { All (λ b. (past : Calls) → B.stands_for b past → NobodyIn any_rules (places + 2) (B.number b) past) rooms.items }
    requires places { (0 < places) × (places ≤ 4096) }
    requires some { 0 < vec_len readies }
    requires enough { vec_len readies ≤ places }
    requires plain { D.has_bots ≡ false }
    requires fresh { (D.given door ≡ 0) × (D.out door ≡ 0) × (D.bots_out door ≡ 0) × (D.shut door ≡ false) }
    requires links { vec_len links ≡ seats }
    requires fresh_links { All (λ l. IsFresh (L.faults l) (L.finished l) (L.answers l) (L.sent l)) links.items }
    ensures out { (D.out result.1 ≡ 0) × (D.bots_out result.1 ≡ 0) }
    ensures sink_never_falls { K.faults sink.old ≤ K.faults sink.new }
    ensures serves { ServesSeats (hosted B.number B.stands_for B.has_stopped) result.0 (vec_len rooms) sessions seats result.2.items
        (D.faults door) (option_map (λ n. n + seats) (D.left door)) (D.shut result.1) (D.faults result.1) (D.given result.1)
        (K.faults sink.old) (K.faults sink.new) (K.held sink.old) (K.held sink.new) }
{
    let bench: Bench<D, L, N> = Bench::new(door, links);
    let table = Some((game, seats));
    let (end, bench, rooms) = serve_rooms(
        rt, alloc, rooms, places, readies, table, keeper, sessions, bench, sink, seed,
    );
    (end, bench.into_door(), rooms)
}
