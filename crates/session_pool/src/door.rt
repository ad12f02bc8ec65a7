//! Places of sessions, dealt over workers in threads, which serve the links of one door.

ghost use Rattle.std.specs.Prelude.{◌≡◌, ◌+◌, ◌<◌, ◌≤◌, [], All, IfErr, IfOk, IfSome, None, Some, false, length, map, vec_capacity, vec_len};
ghost use Rattle.link_rounds.specs.Gate.{Ended};
ghost use Rattle.session_pool.specs.Passes.{Belong, number_of, unseen};
ghost use Rattle.session_pool.specs.Placed.{AttachedBy};
ghost use Rattle.session_pool.specs.Sittings.{AreServed, Fits, Rests};
ghost use Rattle.session_pool.specs.Watched.{AllBegin, AllKnow, StandsIn, desk_at, seen_of};

use crate::sitting::{Hall, Seeded, Sitting};
use crate::watch::{set_out, take_back};
use any_game::AnyGame;
use bench_wishes::Wishes;
use board_links::Door;
use game_sheet::NoMemory;
use hosted_room::HostedRoom;
use link_rounds::{DoorEnd, Ready, serve_places};
use room_desk::{Desk, Pass};
use std::alloc::Global;
use std::marker::{Brand, PhantomData};
use std::sync::Wait;
use std::thread::Threads;

/// A place without a session, of these passes, and of this one at the bench.
fn rise<'a, B: HostedRoom<AnyGame>, K: Seeded>(
    desks: &'a [Desk<B>],
    passes: Vec<Pass<B>>,
    bench: &'a Desk<Wishes>,
    bench_pass: Pass<Wishes>,
    seed: [u8; 32],
) -> Sitting<'a, B, K>
    requires rooms { (0 < length desks.now) × (length desks.now ≤ 64) }
    requires belong { Belong desks.now (number_of passes.items) passes.items }
    requires free { AttachedBy passes.items None }
    requires within { number_of passes.items < K.places }
    requires began { AllBegin (seen_of passes.items) K.pasts }
    requires bench { bench_pass.desk ≡ bench.now.desk }
    requires seed { K.seed ≡ seed }
    ensures fit { Fits desks.now bench.now.desk K.seed K.places K.pasts result }
    ensures rest { Rests K.seed K.places K.pasts result }
    ensures passes { result.passes ≡ passes.items }
{
    Sitting::new(passes, bench_pass, desks.len() as u8, seed)
}

/// A place for each list of passes, with the bench pass of its place in the list. An Err is for want of memory, and hands both lists back.
fn raise<'a, B: HostedRoom<AnyGame>, K: Seeded>(
    alloc: Global,
    desks: &'a [Desk<B>],
    passes: Vec<Vec<Pass<B>>>,
    bench: &'a Desk<Wishes>,
    bench_passes: Vec<Pass<Wishes>>,
    seed: [u8; 32],
) -> Result<Vec<Sitting<'a, B, K>>, (Vec<Vec<Pass<B>>>, Vec<Pass<Wishes>>)>
    requires rooms { (0 < length desks.now) × (length desks.now ≤ 64) }
    requires belong { All (λ p. Belong desks.now (number_of p.items) p.items) passes.items }
    requires free { All (λ p. AttachedBy p.items None) passes.items }
    requires within { All (λ p. number_of p.items < K.places) passes.items }
    requires began { All (λ p. AllBegin (seen_of p.items) K.pasts) passes.items }
    requires bench { (vec_len bench_passes ≡ vec_len passes) × All (λ p. p.desk ≡ bench.now.desk) bench_passes.items }
    requires seed { K.seed ≡ seed }
    ensures many { IfOk result (λ s. vec_len s ≡ vec_len passes) }
    ensures fit { IfOk result (λ s. All (Fits desks.now bench.now.desk K.seed K.places K.pasts) s.items) }
    ensures rest { IfOk result (λ s. All (Rests K.seed K.places K.pasts) s.items) }
    ensures passes { IfOk result (λ s. map (λ x. x.passes) s.items ≡ map (λ p. p.items) passes.items) }
    ensures err { IfErr result (λ p. (p.0.items ≡ passes.items) × (p.1.items ≡ bench_passes.items)) }
{
    let Ok(mut sittings) = Vec::with_capacity(alloc, passes.len()) else {
        return Err((passes, bench_passes));
    };
    let mut at_bench = bench_passes;
    at_bench.reverse();
    for passes in passes {
        let Some(bench_pass) = at_bench.pop() else {
            unreachable!()
        };
        sittings.push_reserved(rise::<B, K>(desks, passes, bench, bench_pass, seed));
    }
    drop(at_bench);
    Ok(sittings)
}

/// Empty lists with room for the passes of so many places, for those at the bench, and for those of a watch over so many rooms, both as it goes out
/// and as it comes back.
fn lists_for<B: HostedRoom<AnyGame>>(
    alloc: Global,
    places: usize,
    rooms: usize,
) -> Result<
    (
        Vec<Vec<Pass<B>>>,
        Vec<Pass<Wishes>>,
        Vec<Option<Pass<B>>>,
        Vec<Pass<B>>,
    ),
    NoMemory,
>
    ensures room { IfOk result (λ r. (places ≤ vec_capacity r.0) × (places ≤ vec_capacity r.1) × (rooms ≤ vec_capacity r.2) × (rooms ≤ vec_capacity r.3)) }
    ensures empty { IfOk result (λ r. (r.0.items ≡ []) × (r.1.items ≡ []) × (r.2.items ≡ []) × (r.3.items ≡ [])) }
{
    let back = Vec::with_capacity(alloc, places)?;
    let bench_back = Vec::with_capacity(alloc, places)?;
    let out = Vec::with_capacity(alloc, rooms)?;
    let watch_back = Vec::with_capacity(alloc, rooms)?;
    Ok((back, bench_back, out, watch_back))
}

/// The places' passes, and those at the bench, in order.
fn dismiss<'a, B: HostedRoom<AnyGame>, K: Seeded>(
    sittings: Vec<Sitting<'a, B, K>>,
    back: &mut Vec<Vec<Pass<B>>>,
    bench_back: &mut Vec<Pass<Wishes>>,
)
    requires room { (vec_len sittings ≤ vec_capacity back.old) × (vec_len sittings ≤ vec_capacity bench_back.old) }
    requires empty { (back.old.items ≡ []) × (bench_back.old.items ≡ []) }
    ensures back { map (λ p. p.items) back.new.items ≡ map (λ s. s.passes) sittings.entry.items }
    ensures bench_back { map (λ p. p.desk) bench_back.new.items ≡ map (λ s. s.bench.desk) sittings.entry.items }
{
    for sitting in sittings {
        let (passes, bench_pass) = sitting.into_passes();
        back.push_reserved(passes);
        bench_back.push_reserved(bench_pass);
    }
}

/// Serves the door at these places, and hands their passes back.
fn serve_at<
    'a,
    B: HostedRoom<AnyGame> + Send,
    K: Seeded + Send + Sync,
    D: Door + Send,
    W: Ready<D::L> + Send,
    R: Threads + Wait + Sync,
>(
    rt: &R,
    alloc: Global,
    desks: &'a [Desk<B>],
    bench: &'a Desk<Wishes>,
    sittings: Vec<Sitting<'a, B, K>>,
    watch: Vec<Option<Pass<B>>>,
    readies: Vec<W>,
    door: D,
    sessions: u64,
    mut back: Vec<Vec<Pass<B>>>,
    mut bench_back: Vec<Pass<Wishes>>,
    mut watch_back: Vec<Pass<B>>,
) -> (
    DoorEnd,
    u64,
    Vec<Vec<Pass<B>>>,
    Vec<Pass<Wishes>>,
    Vec<Pass<B>>,
    D,
)
where
    D::L: Send,
    requires some { 0 < vec_len readies }
    requires enough { vec_len readies ≤ vec_len sittings }
    requires few { vec_len sittings < 4294967296 }
    requires fit { All (Fits desks.now bench.now.desk K.seed K.places K.pasts) sittings.items }
    requires rest { All (Rests K.seed K.places K.pasts) sittings.items }
    requires fresh { (D.given door ≡ 0) × (D.out door ≡ 0) × (D.bots_out door ≡ 0) × (D.shut door ≡ false) }
    requires named { map (λ d. d.desk) desks.now ≡ K.desks }
    requires watch { map desk_at watch.items ≡ map Some K.desks }
    requires served { AreServed B.may_starve K.seed K.places K.pasts (λ s. AllKnow watch.items s.passes) (D.returned door) }
    requires room { (vec_len sittings ≤ vec_capacity back) × (vec_len sittings ≤ vec_capacity bench_back) × (vec_len watch ≤ vec_capacity watch_back) }
    requires empty { (back.items ≡ []) × (bench_back.items ≡ []) × (watch_back.items ≡ []) }
    ensures out { (D.out result.5 ≡ 0) × (D.bots_out result.5 ≡ 0) }
    ensures given { D.given result.5 ≡ result.1 }
    ensures ended { Ended sessions (D.faults door) (D.left door) (D.shut result.5) (D.faults result.5) result.1 (Some result.0) }
    ensures served { AreServed B.may_starve K.seed K.places K.pasts (StandsIn (seen_of result.4.items)) (D.returned result.5) }
    ensures handed { map (λ p. map unseen p.items) result.2.items ≡ map (λ s. map unseen s.passes) sittings.entry.items }
    ensures free { All (λ p. AttachedBy p.items None) result.2.items }
    ensures watch { map (λ p. p.desk) result.4.items ≡ map (λ d. d.desk) desks.now }
    ensures benched { (vec_len result.3 ≡ vec_len sittings.entry) × All (λ p. p.desk ≡ bench.now.desk) result.3.items }
{
    let hall = Hall {
        alloc,
        desks,
        bench,
        of: PhantomData,
    };
    let (end, count, sittings, watch, door) = serve_places(
        rt, alloc, &hall, sittings, watch, readies, door, sessions,
    );
    drop(hall);
    dismiss(sittings, &mut back, &mut bench_back);
    take_back(watch, &mut watch_back);
    (end, count, back, bench_back, watch_back, door)
}

/// Serves the door at places of these passes, whose seed `K` has too.
fn run<
    B: HostedRoom<AnyGame> + Send,
    K: Seeded + Send + Sync,
    D: Door + Send,
    W: Ready<D::L> + Send,
    R: Threads + Wait + Sync,
>(
    rt: &R,
    alloc: Global,
    desks: &[Desk<B>],
    passes: Vec<Vec<Pass<B>>>,
    bench: &Desk<Wishes>,
    bench_passes: Vec<Pass<Wishes>>,
    watch: Vec<Pass<B>>,
    readies: Vec<W>,
    seed: [u8; 32],
    door: D,
    sessions: u64,
) -> (
    DoorEnd,
    u64,
    Vec<Vec<Pass<B>>>,
    Vec<Pass<Wishes>>,
    Vec<Pass<B>>,
    D,
)
where
    D::L: Send,
    requires seeded { (K.seed ≡ seed) × (K.places ≡ vec_len passes) × (K.desks ≡ map (λ d. d.desk) desks.now) × (K.pasts ≡ seen_of watch.items) }
    requires rooms { (0 < length desks.now) × (length desks.now ≤ 64) }
    requires some { 0 < vec_len readies }
    requires enough { vec_len readies ≤ vec_len passes }
    requires few { vec_len passes < 4294967296 }
    requires belong { All (λ p. Belong desks.now (number_of p.items) p.items) passes.items }
    requires free { All (λ p. AttachedBy p.items None) passes.items }
    requires within { All (λ p. number_of p.items < vec_len passes) passes.items }
    requires began { All (λ p. AllBegin (seen_of p.items) (seen_of watch.items)) passes.items }
    requires bench { (vec_len bench_passes ≡ vec_len passes) × All (λ p. p.desk ≡ bench.now.desk) bench_passes.items }
    requires watch { map (λ p. p.desk) watch.items ≡ map (λ d. d.desk) desks.now }
    requires fresh { (D.given door ≡ 0) × (D.out door ≡ 0) × (D.bots_out door ≡ 0) × (D.shut door ≡ false) }
    requires none_back { IfSome (D.returned door) (λ told. told ≡ []) }
    ensures out { (D.out result.5 ≡ 0) × (D.bots_out result.5 ≡ 0) }
    ensures given { D.given result.5 ≡ result.1 }
    ensures ended { Ended sessions (D.faults door) (D.left door) (D.shut result.5) (D.faults result.5) result.1 (Some result.0) }
    ensures served { AreServed B.may_starve seed (vec_len passes) (seen_of watch.items) (StandsIn (seen_of result.4.items)) (D.returned result.5) }
    ensures handed { map (λ p. map unseen p.items) result.2.items ≡ map (λ p. map unseen p.items) passes.items }
    ensures free { All (λ p. AttachedBy p.items None) result.2.items }
    ensures watch { map (λ p. p.desk) result.4.items ≡ map (λ d. d.desk) desks.now }
    ensures benched { (vec_len result.3 ≡ vec_len bench_passes) × All (λ p. p.desk ≡ bench.now.desk) result.3.items }
{
    let Ok((back, bench_back, mut out, watch_back)) = lists_for(alloc, passes.len(), watch.len())
    else {
        drop(readies);
        return (DoorEnd::NoMemory, 0, passes, bench_passes, watch, door);
    };
    match raise::<B, K>(alloc, desks, passes, bench, bench_passes, seed) {
        Ok(sittings) => {
            set_out(watch, &mut out);
            serve_at(
                rt, alloc, desks, bench, sittings, out, readies, door, sessions, back, bench_back,
                watch_back,
            )
        }
        Err((passes, bench_passes)) => {
            drop(readies);
            (DoorEnd::NoMemory, 0, passes, bench_passes, watch, door)
        }
    }
}

/// Serves the links of a door at as many places as there are lists of passes, dealt over as many workers, each in a thread, as there are of
/// `readies`, which say whose turn it is; until the door is shut, has given so many sessions, or fails. No link is out then, and the passes are
/// handed back in their order.
///
/// There are 1 to 64 desks, at least one worker, and a place or more for each. A list of passes has one for each desk, in their order, all with one
/// number below the count of lists, and none is attached; so they are afterwards. They have seen all that the watch's passes have. There is a pass at
/// the bench for each list; the place of a list has the bench pass at the list's index, and these passes are handed back too. A watch has a pass of
/// each desk, in their order. The door has given no link, hasn't answered that it is shut, and tells of no link that came back. The place of number p
/// draws its words from stream p of the seed, one session after another. With every end comes the count of the links that the door gave.
///
/// A door that tells what came back tells only links that were served. The passes of each session had seen, before its first turn, all that the
/// watch's had when they were handed in; in the end they had seen no more than the watch's, which are handed back before the door, have: that is how
/// their histories begin.
pub fn serve_door<
    B: HostedRoom<AnyGame> + Send,
    D: Door + Send,
    W: Ready<D::L> + Send,
    R: Threads + Wait + Sync,
>(
    rt: &R,
    alloc: Global,
    desks: &[Desk<B>],
    passes: Vec<Vec<Pass<B>>>,
    bench: &Desk<Wishes>,
    bench_passes: Vec<Pass<Wishes>>,
    watch: Vec<Pass<B>>,
    readies: Vec<W>,
    seed: [u8; 32],
    door: D,
    sessions: u64,
) -> (
    DoorEnd,
    u64,
    Vec<Vec<Pass<B>>>,
    Vec<Pass<Wishes>>,
    Vec<Pass<B>>,
    D,
)
where
    D::L: Send,
    requires rooms { (0 < length desks.now) × (length desks.now ≤ 64) }
    requires some { 0 < vec_len readies }
    requires enough { vec_len readies ≤ vec_len passes }
    requires few { vec_len passes < 4294967296 }
    requires belong { All (λ p. Belong desks.now (number_of p.items) p.items) passes.items }
    requires free { All (λ p. AttachedBy p.items None) passes.items }
    requires within { All (λ p. number_of p.items < vec_len passes) passes.items }
    requires began { All (λ p. AllBegin (seen_of p.items) (seen_of watch.items)) passes.items }
    requires bench { (vec_len bench_passes ≡ vec_len passes) × All (λ p. p.desk ≡ bench.now.desk) bench_passes.items }
    requires watch { map (λ p. p.desk) watch.items ≡ map (λ d. d.desk) desks.now }
    requires fresh { (D.given door ≡ 0) × (D.out door ≡ 0) × (D.bots_out door ≡ 0) × (D.shut door ≡ false) }
    requires none_back { IfSome (D.returned door) (λ told. told ≡ []) }
    ensures out { (D.out result.5 ≡ 0) × (D.bots_out result.5 ≡ 0) }
    ensures given { D.given result.5 ≡ result.1 }
    ensures ended { Ended sessions (D.faults door) (D.left door) (D.shut result.5) (D.faults result.5) result.1 (Some result.0) }
    ensures served { AreServed B.may_starve seed (vec_len passes) (seen_of watch.items) (StandsIn (seen_of result.4.items)) (D.returned result.5) }
    ensures handed { map (λ p. map unseen p.items) result.2.items ≡ map (λ p. map unseen p.items) passes.items }
    ensures free { All (λ p. AttachedBy p.items None) result.2.items }
    ensures watch { map (λ p. p.desk) result.4.items ≡ map (λ d. d.desk) desks.now }
    ensures benched { (vec_len result.3 ≡ vec_len bench_passes) × All (λ p. p.desk ≡ bench.now.desk) result.3.items }
{
    run::<B, Brand, D, W, R>(
        rt,
        alloc,
        desks,
        passes,
        bench,
        bench_passes,
        watch,
        readies,
        seed,
        door,
        sessions,
    )
}
