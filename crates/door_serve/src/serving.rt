//! Makes the match of bots, serves the links of a door beside a keeper, closes the rooms, and reports.

ghost use Rattle.std.specs.Prelude.{◌≡◌, ◌≤◌, ◌<◌, ◌+◌, ◌++◌, ◌∷◌, ℕ, List, [], All, IfOk, IfSome, IsSome, None, false, length, map, vec_capacity, vec_len};
ghost use Rattle.any_game.specs.AnyRules.{any_rules};
ghost use Rattle.board_links.specs.Pieces.{told_bytes};
ghost use Rattle.hosted_room.specs.Calls.{NobodyIn};
ghost use Rattle.session_pool.specs.Passes.{Belong, number_of, unseen};
ghost use Rattle.session_pool.specs.Placed.{AttachedBy};
ghost use Rattle.session_pool.specs.Rooms.{numbers, rows_from};
ghost use Rattle.session_pool.specs.Sittings.{AreServed};
ghost use Rattle.session_pool.specs.Watched.{AllBegin, StandsIn, seen_of};
ghost use Rattle.door_serve.specs.Ends.{AreBack, AreGiven, EndsBy, Reports, end_of};
ghost use Rattle.door_serve.specs.Rooms.{Calls, Stand, desks_of, hosted};

use crate::closing::close_all;
use crate::keeping::serve_with_keeper;
use crate::opening::open_match;
use crate::reporting::print_report;
use any_game::AnyGame;
use bench_wishes::Wishes;
use board_links::{Door, Put, Sink};
use game_sheet::NoMemory;
use hosted_room::HostedRoom;
use link_rounds::{DoorEnd, Ready};
use room_desk::{Desk, Pass};
use room_keeper::Keeper;
use session_pool::set_up_rooms;
use std::alloc::Global;
use std::sync::Wait;
use std::thread::Threads;

/// How the serving of rooms ends.
#[derive(Clone, Copy)]
pub enum ServeEnd {
    /// The door is shut, or gave its last session, and the report was printed.
    Done,
    /// The door failed, and the report was printed.
    DoorFault,
    /// The sink failed.
    WriteFault,
    /// There was no memory.
    NoMemory,
}

/// What it takes to close rooms, taken before they are served: a list for the passes of each room, of which there are two more than there are places;
/// one for the passes of all places, of the keeper and of the watch; and one for the rooms.
#[derive(Drop)]
struct Spare<B: HostedRoom<AnyGame>> {
    rooms: u8,
    places: u16,
    lists: Vec<Vec<Pass<B>>>,
    all: Vec<Vec<Pass<B>>>,
    back: Vec<B>,
    ghost many: { vec_len lists ≡ rooms },
    ghost empty: { All (λ v. (v.items ≡ []) × (places + 2 ≤ vec_capacity v)) lists.items },
    ghost all_empty: { all.items ≡ [] },
    ghost all_room: { places + 2 ≤ vec_capacity all },
    ghost none: { back.items ≡ [] },
    ghost room: { rooms ≤ vec_capacity back },
}

/// Lists that are empty, each with room for so many passes.
fn lists_for<B: HostedRoom<AnyGame>>(
    alloc: Global,
    rooms: u8,
    passes: usize,
) -> Result<Vec<Vec<Pass<B>>>, NoMemory>
    ensures many { IfOk result (λ s. vec_len s ≡ rooms) }
    ensures empty { IfOk result (λ s. All (λ v. (v.items ≡ []) × (passes ≤ vec_capacity v)) s.items) }
{
    let mut lists = Vec::with_capacity(alloc, rooms as usize)?;
    for _room in 0..rooms {
        let list = Vec::with_capacity(alloc, passes)?;
        lists.push_reserved(list);
    }
    Ok(lists)
}

/// What it takes to close so many rooms, of a pass for each of so many places, one for the keeper and one for the watch.
fn spare_for<B: HostedRoom<AnyGame>>(
    alloc: Global,
    rooms: u8,
    places: u16,
) -> Result<Spare<B>, NoMemory>
    ensures rooms { IfOk result (λ s. s.rooms ≡ rooms) }
    ensures places { IfOk result (λ s. s.places ≡ places) }
{
    let passes = usize::from(places) + 2;
    let lists = lists_for(alloc, rooms, passes)?;
    let all = Vec::with_capacity(alloc, passes)?;
    let back = Vec::with_capacity(alloc, rooms as usize)?;
    Ok(Spare {
        rooms,
        places,
        lists,
        all,
        back,
    })
}

/// Takes the watch's passes, those of the last number, and the keeper's, those of the number before, out of the rows of all passes of these desks.
fn split_own<B: HostedRoom<AnyGame>>(
    desks: &Vec<Desk<B>>,
    mut rows: Vec<Vec<Pass<B>>>,
    places: u32,
) -> (Vec<Vec<Pass<B>>>, Vec<Pass<B>>, Vec<Pass<B>>)
    requires some { 0 < length desks.now.items }
    requires rows { map (λ v. map unseen v.items) rows.items ≡ rows_from desks.now.items 0 (places + 2) }
    requires free { All (λ p. AttachedBy p.items None) rows.items }
    ensures many { vec_len result.0 ≡ places }
    ensures belong { All (λ p. Belong desks.now.items (number_of p.items) p.items) result.0.items }
    ensures free { All (λ p. AttachedBy p.items None) result.0.items }
    ensures within { All (λ p. number_of p.items < places) result.0.items }
    ensures own { desks_of result.1.items ≡ map (λ d. d.desk) desks.now.items }
    ensures watch { desks_of result.2.items ≡ map (λ d. d.desk) desks.now.items }
    ensures seen { (pasts : List Calls) → All (λ p. seen_of p.items ≡ pasts) rows.items
        → All (λ p. seen_of p.items ≡ pasts) result.0.items × (seen_of result.2.items ≡ pasts) }
{
    let Some(watch) = rows.pop() else {
        unreachable!()
    };
    let Some(own) = rows.pop() else {
        unreachable!()
    };
    (rows, own, watch)
}

/// The rows of all places, then the keeper's passes and then the watch's, in a list that has room for them.
fn put_back<B: HostedRoom<AnyGame>>(
    mut rows: Vec<Vec<Pass<B>>>,
    own: Vec<Pass<B>>,
    watch: Vec<Pass<B>>,
    mut all: Vec<Vec<Pass<B>>>,
) -> Vec<Vec<Pass<B>>>
    requires empty { all.items ≡ [] }
    requires room { vec_len rows + 2 ≤ vec_capacity all }
    ensures { result.items ≡ rows.items ++ own ∷ watch ∷ [] }
{
    match all.append(&mut rows) {
        Ok(()) => {}
        Err(_) => unreachable!(),
    }
    drop(rows);
    all.push_reserved(own);
    all.push_reserved(watch);
    all
}

/// How the serving ends, by how the door's serving did and what came of the report.
fn end_of(end: DoorEnd, printed: Put) -> ServeEnd
    ensures { result ≡ end_of end printed }
{
    match printed {
        Put::Failed => ServeEnd::WriteFault,
        Put::Done => match end {
            DoorEnd::Done => ServeEnd::Done,
            DoorEnd::DoorFault => ServeEnd::DoorFault,
            DoorEnd::NoMemory => ServeEnd::NoMemory,
        },
    }
}

/// Serves the links of a door with 1 to 64 rooms, at 1 to 4,096 places, which are dealt over as many workers as there are of `readies`; until the
/// door is shut, has given so many sessions, or fails. Then closes the rooms, and reports. The rooms come back in their order, or none where there
/// was no memory to set them up: they are dropped then.
///
/// The rooms are numbered from 0. Each may have had calls before; at their end no pass of these places is attached, nor the two passes after them. Each
/// room that comes back stands for one history. What each session whose link came back was told came from calls that are in these histories: its passes
/// had seen beginnings of them. Before its first turn they had seen all that the rooms stood for when they were handed in, so what it and others called
/// since then comes later. The report says of a room that hasn't stopped what its calls came to, and of one that has that it has stopped.
///
/// A keeper, if there is one, runs in a thread of its own from the first link on until serving is over. Each match that it names is cleared by the
/// first pass after those of the places, if it stands then: an ordinary call of its room. When that is no clause says. The keeper ends within a second
/// or two of what it names last. The second pass after those of the places is shown where each session ended.
///
/// A match of `table` is made first, if there is one: of this game, with so many seats, in room 0, by the first place's pass, with words 0 to 7 of
/// stream 32 of the seed. Without memory for it no link is asked for; after any other reply the serving goes on.
///
/// There is a worker or more, and a place for each. The door has given no link, hasn't answered that it is shut, and tells of none that came back.
/// Place p draws its words from stream p of the seed, one session after another. No link is out when it returns; a door that tells what came back
/// tells only links that were served at these places.
pub fn serve_rooms<
    B: HostedRoom<AnyGame> + Send,
    D: Door + Send,
    W: Ready<D::L> + Send,
    K: Sink,
    Q: Keeper + Send,
    R: Threads + Wait + Sync,
>(
    rt: &R,
    alloc: Global,
    rooms: Vec<B>,
    places: u16,
    readies: Vec<W>,
    table: Option<(AnyGame, u8)>,
    keeper: Option<Q>,
    sessions: u64,
    door: D,
    sink: &mut K,
    seed: [u8; 32],
) -> (ServeEnd, D, Vec<B>)
where
    D::L: Send,
    requires rooms { (0 < vec_len rooms) × (vec_len rooms ≤ 64) }
    requires numbered { map (λ b. B.number b) rooms.items ≡ numbers 0 (vec_len rooms) }
    requires stand { All (λ b. (past : Calls) × B.stands_for b past) rooms.items }
    requires nobody { All (λ b. (past : Calls) → B.stands_for b past → NobodyIn any_rules (places + 2) (B.number b) past) rooms.items }
    requires places { (0 < places) × (places ≤ 4096) }
    requires some { 0 < vec_len readies }
    requires enough { vec_len readies ≤ places }
    requires fresh { (D.given door ≡ 0) × (D.out door ≡ 0) × (D.bots_out door ≡ 0) × (D.shut door ≡ false) }
    requires none_back { IfSome (D.returned door) (λ told. told ≡ []) }
    ensures out { (D.out result.1 ≡ 0) × (D.bots_out result.1 ≡ 0) }
    ensures served { (pasts : List Calls) × Stand B.stands_for rooms.items pasts × AreServed B.may_starve seed places pasts (λ s. Unit {0}) (D.returned result.1) }
    ensures sink_never_falls { K.faults sink.old ≤ K.faults sink.new }
    ensures ended { EndsBy result.0 sessions (D.faults door) (D.left door) (D.shut result.1) (D.faults result.1) (D.given result.1) (K.faults sink.old) (K.faults sink.new) }
    ensures closed { AreGiven (hosted B.number B.stands_for B.has_stopped) (vec_len rooms) result.0 rooms.items result.2.items
        (λ pasts histories. AreServed B.may_starve seed places pasts (StandsIn histories) (D.returned result.1)) }
    ensures reports { let known = hosted B.number B.stands_for B.has_stopped in IsSome (K.held sink.old)
        → Reports known (vec_len rooms) (D.given result.1) result.2.items result.0 (told_bytes (K.held sink.old)) (K.held sink.new) }
{
    match spare_for(alloc, rooms.len() as u8, places) {
        Ok(spare) => serve_with(
            rt, alloc, rooms, places, readies, spare, table, keeper, sessions, door, sink, seed,
        ),
        Err(NoMemory) => {
            drop(rooms);
            drop(readies);
            drop(table);
            drop(keeper);
            (ServeEnd::NoMemory, door, Vec::new(alloc))
        }
    }
}

/// The desk of the bench, and a pass for each place.
fn set_up_bench(alloc: Global, places: u16) -> Result<(Desk<Wishes>, Vec<Pass<Wishes>>), NoMemory>
    requires places { (0 < places) × (places ≤ 4096) }
    ensures many { IfOk result (λ r. vec_len r.1 ≡ places) }
    ensures own { IfOk result (λ r. All (λ p. p.desk ≡ r.0.desk) r.1.items) }
{
    let (bench, passes) = Desk::set_up(alloc, Wishes::new(alloc), u32::from(places))?;
    Ok((bench, passes))
}

/// Sets the bench and the rooms up, and serves.
fn serve_with<
    B: HostedRoom<AnyGame> + Send,
    D: Door + Send,
    W: Ready<D::L> + Send,
    K: Sink,
    Q: Keeper + Send,
    R: Threads + Wait + Sync,
>(
    rt: &R,
    alloc: Global,
    rooms: Vec<B>,
    places: u16,
    readies: Vec<W>,
    spare: Spare<B>,
    table: Option<(AnyGame, u8)>,
    keeper: Option<Q>,
    sessions: u64,
    door: D,
    sink: &mut K,
    seed: [u8; 32],
) -> (ServeEnd, D, Vec<B>)
where
    D::L: Send,
    requires rooms { (0 < vec_len rooms) × (vec_len rooms ≤ 64) }
    requires numbered { map (λ b. B.number b) rooms.items ≡ numbers 0 (vec_len rooms) }
    requires stand { All (λ b. (past : Calls) × B.stands_for b past) rooms.items }
    requires nobody { All (λ b. (past : Calls) → B.stands_for b past → NobodyIn any_rules (places + 2) (B.number b) past) rooms.items }
    requires places { (0 < places) × (places ≤ 4096) }
    requires some { 0 < vec_len readies }
    requires enough { vec_len readies ≤ places }
    requires spare { (spare.rooms ≡ vec_len rooms) × (spare.places ≡ places) }
    requires fresh { (D.given door ≡ 0) × (D.out door ≡ 0) × (D.bots_out door ≡ 0) × (D.shut door ≡ false) }
    requires none_back { IfSome (D.returned door) (λ told. told ≡ []) }
    ensures out { (D.out result.1 ≡ 0) × (D.bots_out result.1 ≡ 0) }
    ensures served { (pasts : List Calls) × Stand B.stands_for rooms.items pasts × AreServed B.may_starve seed places pasts (λ s. Unit {0}) (D.returned result.1) }
    ensures sink_never_falls { K.faults sink.old ≤ K.faults sink.new }
    ensures ended { EndsBy result.0 sessions (D.faults door) (D.left door) (D.shut result.1) (D.faults result.1) (D.given result.1) (K.faults sink.old) (K.faults sink.new) }
    ensures closed { AreGiven (hosted B.number B.stands_for B.has_stopped) (vec_len rooms) result.0 rooms.items result.2.items
        (λ pasts histories. AreServed B.may_starve seed places pasts (StandsIn histories) (D.returned result.1)) }
    ensures reports { let known = hosted B.number B.stands_for B.has_stopped in IsSome (K.held sink.old)
        → Reports known (vec_len rooms) (D.given result.1) result.2.items result.0 (told_bytes (K.held sink.old)) (K.held sink.new) }
{
    let Ok((bench, bench_passes)) = set_up_bench(alloc, places) else {
        drop(rooms);
        drop(spare);
        drop(readies);
        drop(table);
        drop(keeper);
        return (ServeEnd::NoMemory, door, Vec::new(alloc));
    };
    match set_up_rooms(alloc, rooms, u32::from(places) + 2) {
        Ok((desks, rows)) => {
            let (rows, own, watch) = split_own(&desks, rows, u32::from(places));
            serve_table(
                rt,
                alloc,
                desks,
                rows,
                own,
                bench,
                bench_passes,
                watch,
                readies,
                spare,
                table,
                keeper,
                sessions,
                door,
                sink,
                seed,
            )
        }
        Err(NoMemory) => {
            drop(bench_passes);
            drop(bench);
            drop(spare);
            drop(readies);
            drop(table);
            drop(keeper);
            (ServeEnd::NoMemory, door, Vec::new(alloc))
        }
    }
}

/// Makes the match at which bots are to sit, if there is to be one, and serves rooms that were set up.
fn serve_table<
    B: HostedRoom<AnyGame> + Send,
    D: Door + Send,
    W: Ready<D::L> + Send,
    K: Sink,
    Q: Keeper + Send,
    R: Threads + Wait + Sync,
>(
    rt: &R,
    alloc: Global,
    desks: Vec<Desk<B>>,
    rows: Vec<Vec<Pass<B>>>,
    own: Vec<Pass<B>>,
    bench: Desk<Wishes>,
    bench_passes: Vec<Pass<Wishes>>,
    watch: Vec<Pass<B>>,
    readies: Vec<W>,
    spare: Spare<B>,
    table: Option<(AnyGame, u8)>,
    keeper: Option<Q>,
    sessions: u64,
    door: D,
    sink: &mut K,
    seed: [u8; 32],
) -> (ServeEnd, D, Vec<B>)
where
    D::L: Send,
    requires rooms { (0 < spare.rooms) × (spare.rooms ≤ 64) }
    requires some { 0 < vec_len readies }
    requires enough { (vec_len readies ≤ spare.places) × (spare.places ≤ 4096) }
    requires many { (vec_len desks ≡ spare.rooms) × (vec_len rows ≡ spare.places) }
    requires objects { map (λ d. d.desk.object) desks.items ≡ numbers 0 spare.rooms }
    requires counts { All (λ d. d.passes ≡ spare.places + 2) desks.items }
    requires belong { All (λ p. Belong desks.items (number_of p.items) p.items) rows.items }
    requires free { All (λ p. AttachedBy p.items None) rows.items }
    requires within { All (λ p. number_of p.items < spare.places) rows.items }
    requires began { All (λ p. AllBegin (seen_of p.items) (seen_of watch.items)) rows.items }
    requires own { desks_of own.items ≡ map (λ d. d.desk) desks.items }
    requires bench { (vec_len bench_passes ≡ spare.places) × All (λ p. p.desk ≡ bench.desk) bench_passes.items }
    requires watch { desks_of watch.items ≡ map (λ d. d.desk) desks.items }
    requires fresh { (D.given door ≡ 0) × (D.out door ≡ 0) × (D.bots_out door ≡ 0) × (D.shut door ≡ false) }
    requires none_back { IfSome (D.returned door) (λ told. told ≡ []) }
    ensures out { (D.out result.1 ≡ 0) × (D.bots_out result.1 ≡ 0) }
    ensures served { AreServed B.may_starve seed spare.places (seen_of watch.items) (λ s. Unit {0}) (D.returned result.1) }
    ensures sink_never_falls { K.faults sink.old ≤ K.faults sink.new }
    ensures ended { EndsBy result.0 sessions (D.faults door) (D.left door) (D.shut result.1) (D.faults result.1) (D.given result.1) (K.faults sink.old) (K.faults sink.new) }
    ensures closed { AreBack (hosted B.number B.stands_for B.has_stopped) spare.rooms result.0 result.2.items
        (λ histories. AreServed B.may_starve seed spare.places (seen_of watch.items) (StandsIn histories) (D.returned result.1)) }
    ensures reports { let known = hosted B.number B.stands_for B.has_stopped in IsSome (K.held sink.old)
        → Reports known spare.rooms (D.given result.1) result.2.items result.0 (told_bytes (K.held sink.old)) (K.held sink.new) }
{
    let mut rows = rows;
    if open_match(rt, desks.as_slice(), &mut rows, table, seed) {
        serve_hall(
            rt,
            alloc,
            desks,
            rows,
            own,
            bench,
            bench_passes,
            watch,
            readies,
            spare,
            keeper,
            sessions,
            door,
            sink,
            seed,
        )
    } else {
        drop(rows);
        drop(own);
        drop(watch);
        drop(desks);
        drop(bench_passes);
        drop(bench);
        drop(spare);
        drop(readies);
        drop(keeper);
        (ServeEnd::NoMemory, door, Vec::new(alloc))
    }
}

/// Serves rooms that were set up, with a bench.
fn serve_hall<
    B: HostedRoom<AnyGame> + Send,
    D: Door + Send,
    W: Ready<D::L> + Send,
    K: Sink,
    Q: Keeper + Send,
    R: Threads + Wait + Sync,
>(
    rt: &R,
    alloc: Global,
    desks: Vec<Desk<B>>,
    rows: Vec<Vec<Pass<B>>>,
    own: Vec<Pass<B>>,
    bench: Desk<Wishes>,
    bench_passes: Vec<Pass<Wishes>>,
    watch: Vec<Pass<B>>,
    readies: Vec<W>,
    spare: Spare<B>,
    keeper: Option<Q>,
    sessions: u64,
    door: D,
    sink: &mut K,
    seed: [u8; 32],
) -> (ServeEnd, D, Vec<B>)
where
    D::L: Send,
    requires rooms { (0 < spare.rooms) × (spare.rooms ≤ 64) }
    requires some { 0 < vec_len readies }
    requires enough { (vec_len readies ≤ spare.places) × (spare.places ≤ 4096) }
    requires many { (vec_len desks ≡ spare.rooms) × (vec_len rows ≡ spare.places) }
    requires objects { map (λ d. d.desk.object) desks.items ≡ numbers 0 spare.rooms }
    requires counts { All (λ d. d.passes ≡ spare.places + 2) desks.items }
    requires belong { All (λ p. Belong desks.items (number_of p.items) p.items) rows.items }
    requires free { All (λ p. AttachedBy p.items None) rows.items }
    requires within { All (λ p. number_of p.items < spare.places) rows.items }
    requires began { All (λ p. AllBegin (seen_of p.items) (seen_of watch.items)) rows.items }
    requires own { desks_of own.items ≡ map (λ d. d.desk) desks.items }
    requires bench { (vec_len bench_passes ≡ spare.places) × All (λ p. p.desk ≡ bench.desk) bench_passes.items }
    requires watch { desks_of watch.items ≡ map (λ d. d.desk) desks.items }
    requires fresh { (D.given door ≡ 0) × (D.out door ≡ 0) × (D.bots_out door ≡ 0) × (D.shut door ≡ false) }
    requires none_back { IfSome (D.returned door) (λ told. told ≡ []) }
    ensures out { (D.out result.1 ≡ 0) × (D.bots_out result.1 ≡ 0) }
    ensures served { AreServed B.may_starve seed spare.places (seen_of watch.items) (λ s. Unit {0}) (D.returned result.1) }
    ensures sink_never_falls { K.faults sink.old ≤ K.faults sink.new }
    ensures ended { EndsBy result.0 sessions (D.faults door) (D.left door) (D.shut result.1) (D.faults result.1) (D.given result.1) (K.faults sink.old) (K.faults sink.new) }
    ensures closed { AreBack (hosted B.number B.stands_for B.has_stopped) spare.rooms result.0 result.2.items
        (λ histories. AreServed B.may_starve seed spare.places (seen_of watch.items) (StandsIn histories) (D.returned result.1)) }
    ensures reports { let known = hosted B.number B.stands_for B.has_stopped in IsSome (K.held sink.old)
        → Reports known spare.rooms (D.given result.1) result.2.items result.0 (told_bytes (K.held sink.old)) (K.held sink.new) }
{
    let mut desks = desks;
    let Spare {
        rooms: _,
        places: _,
        mut lists,
        all,
        mut back,
    } = spare;
    let (served, own) = serve_with_keeper(
        rt,
        alloc,
        &desks,
        rows,
        own,
        keeper,
        &bench,
        bench_passes,
        watch,
        readies,
        seed,
        door,
        sessions,
    );
    let (end, count, rows, bench_passes, watch, door) = served;
    drop(bench_passes);
    drop(bench);
    let mut rows = put_back(rows, own, watch, all);
    close_all(&mut desks, rows.as_mut_slice(), &mut lists, &mut back);
    drop(desks);
    drop(rows);
    drop(lists);
    let printed = print_report(sink, count, back.as_slice());
    (end_of(end, printed), door, back)
}
