//! Runs a keeper's errands beside the sessions, until serving is over.

ghost use Rattle.std.specs.Prelude.{◌≡◌, ◌<◌, ◌≤◌, [], All, IfSome, None, Some, false, length, map, vec_len};
ghost use Rattle.link_rounds.specs.Gate.{Ended};
ghost use Rattle.session_pool.specs.Passes.{Belong, number_of, unseen};
ghost use Rattle.session_pool.specs.Placed.{AttachedBy};
ghost use Rattle.session_pool.specs.Sittings.{AreServed};
ghost use Rattle.session_pool.specs.Watched.{AllBegin, StandsIn, seen_of};
ghost use Rattle.door_serve.specs.Rooms.{desks_of};

use any_game::AnyGame;
use bench_wishes::Wishes;
use board_links::Door;
use hosted_room::HostedRoom;
use link_rounds::{DoorEnd, Ready};
use room_desk::{Desk, Pass};
use room_history::{RoomCall, RoomReply};
use room_keeper::{Errand, Keeper};
use session_pool::serve_door;
use std::alloc::Global;
use std::sync::Wait;
use std::sync::atomic::{AtomicU64, Ordering};
use std::thread;
use std::thread::Threads;
use std::time::Duration;

/// Makes the call of an errand by the pass of its room. The reply is `NoMatch` where there is no such room.
fn run_errand<B: HostedRoom<AnyGame>, R: Wait>(
    rt: &R,
    desks: &[Desk<B>],
    passes: &mut [Pass<B>],
    errand: Errand,
) -> RoomReply
    requires own { desks_of passes.old ≡ map (λ d. d.desk) desks.now }
    ensures own { desks_of passes.new ≡ desks_of passes.old }
{
    let (room, call) = match errand {
        Errand::Clear { room, serial } => (room, RoomCall::Clear { serial }),
        Errand::Look { room, serial } => (
            room,
            RoomCall::Look {
                serial: Some(serial),
            },
        ),
    };
    let place = usize::from(room);
    if place < desks.len() {
        desks[place].call(rt, &mut passes[place], call)
    } else {
        drop(call);
        RoomReply::NoMatch
    }
}

/// A value that is lent. What is shared with a thread is reached through it where the value's own type may not be a closure's.
trait Lends<T> {
    ghost use Rattle.std.specs.Prelude.{◌≡◌};

    /// The value.
    ghost lent: { Self → T };

    /// Lends it.
    fn lend(&self) -> &T
        ensures { result.now ≡ lent self.now };
}

/// A value that is lent by who has a reference to it.
#[derive(Clone, Copy)]
struct Lent<'a, T> {
    of: &'a T,
}

impl<'a, T> Lends<T> for Lent<'a, T> {
    ghost lent = { λ l. l.of.now };

    fn lend(&self) -> &T {
        self.of
    }
}

/// Makes the keeper's calls by these passes, one for each desk, until it is told that serving is over.
fn keep<B: HostedRoom<AnyGame>, H: Lends<Vec<Desk<B>>>, Q: Keeper, R: Wait>(
    rt: &R,
    desks: &H,
    mut passes: Vec<Pass<B>>,
    mut keeper: Q,
    over: &AtomicU64,
) -> Vec<Pass<B>>
    requires own { desks_of passes.items ≡ map (λ d. d.desk) (H.lent desks.now).items }
    ensures own { desks_of result.items ≡ desks_of passes.items }
{
    let desks = desks.lend();
    for _ in rt.forever() {
        if over.load(Ordering::SeqCst) != 0 {
            drop(keeper);
            return passes;
        }
        match keeper.next() {
            Some(errand) => {
                let reply = run_errand(rt, desks.as_slice(), passes.as_mut_slice(), errand);
                keeper.told(reply);
            }
            None => over.park_timeout(rt, 0, Duration::from_millis(100)),
        }
    }
    unreachable!()
}

/// Serves the links of a door, and then tells the keeper that serving is over.
fn serve_until_over<
    B: HostedRoom<AnyGame> + Send,
    H: Lends<Vec<Desk<B>>>,
    D: Door + Send,
    W: Ready<D::L> + Send,
    R: Threads + Wait + Sync,
>(
    rt: &R,
    alloc: Global,
    desks: &H,
    passes: Vec<Vec<Pass<B>>>,
    bench: &Desk<Wishes>,
    bench_passes: Vec<Pass<Wishes>>,
    watch: Vec<Pass<B>>,
    readies: Vec<W>,
    seed: [u8; 32],
    door: D,
    sessions: u64,
    over: &AtomicU64,
) -> (
    DoorEnd,
    u64,
    Vec<Vec<Pass<B>>>,
    Vec<Pass<Wishes>>,
    Vec<Pass<B>>,
    D,
)
where
    D::L: Send,
    requires rooms { (0 < length (H.lent desks.now).items) × (length (H.lent desks.now).items ≤ 64) }
    requires some { 0 < vec_len readies }
    requires enough { vec_len readies ≤ vec_len passes }
    requires few { vec_len passes < 4294967296 }
    requires belong { All (λ p. Belong (H.lent desks.now).items (number_of p.items) p.items) passes.items }
    requires free { All (λ p. AttachedBy p.items None) passes.items }
    requires within { All (λ p. number_of p.items < vec_len passes) passes.items }
    requires began { All (λ p. AllBegin (seen_of p.items) (seen_of watch.items)) passes.items }
    requires bench { (vec_len bench_passes ≡ vec_len passes) × All (λ p. p.desk ≡ bench.now.desk) bench_passes.items }
    requires watch { desks_of watch.items ≡ map (λ d. d.desk) (H.lent desks.now).items }
    requires fresh { (D.given door ≡ 0) × (D.out door ≡ 0) × (D.bots_out door ≡ 0) × (D.shut door ≡ false) }
    requires none_back { IfSome (D.returned door) (λ told. told ≡ []) }
    ensures out { (D.out result.5 ≡ 0) × (D.bots_out result.5 ≡ 0) }
    ensures given { D.given result.5 ≡ result.1 }
    ensures ended { Ended sessions (D.faults door) (D.left door) (D.shut result.5) (D.faults result.5) result.1 (Some result.0) }
    ensures watch { desks_of result.4.items ≡ map (λ d. d.desk) (H.lent desks.now).items }
    ensures served { AreServed B.may_starve seed (vec_len passes) (seen_of watch.items) (StandsIn (seen_of result.4.items)) (D.returned result.5) }
    ensures handed { map (λ p. map unseen p.items) result.2.items ≡ map (λ p. map unseen p.items) passes.items }
{
    let served = serve_door(
        rt,
        alloc,
        desks.lend().as_slice(),
        passes,
        bench,
        bench_passes,
        watch,
        readies,
        seed,
        door,
        sessions,
    );
    over.store(1, Ordering::SeqCst);
    over.wake_all();
    served
}

/// Serves the links of a door as `serve_door` does, beside a keeper that makes its calls in a thread of its own.
fn serve_beside<
    B: HostedRoom<AnyGame> + Send,
    H: Lends<Vec<Desk<B>>> + Sync,
    D: Door + Send,
    W: Ready<D::L> + Send,
    Q: Keeper + Send,
    R: Threads + Wait + Sync,
>(
    rt: &R,
    alloc: Global,
    desks: &H,
    passes: Vec<Vec<Pass<B>>>,
    own: Vec<Pass<B>>,
    keeper: Q,
    bench: &Desk<Wishes>,
    bench_passes: Vec<Pass<Wishes>>,
    watch: Vec<Pass<B>>,
    readies: Vec<W>,
    seed: [u8; 32],
    door: D,
    sessions: u64,
) -> (
    (
        DoorEnd,
        u64,
        Vec<Vec<Pass<B>>>,
        Vec<Pass<Wishes>>,
        Vec<Pass<B>>,
        D,
    ),
    Vec<Pass<B>>,
)
where
    D::L: Send,
    requires rooms { (0 < length (H.lent desks.now).items) × (length (H.lent desks.now).items ≤ 64) }
    requires some { 0 < vec_len readies }
    requires enough { vec_len readies ≤ vec_len passes }
    requires few { vec_len passes < 4294967296 }
    requires belong { All (λ p. Belong (H.lent desks.now).items (number_of p.items) p.items) passes.items }
    requires free { All (λ p. AttachedBy p.items None) passes.items }
    requires within { All (λ p. number_of p.items < vec_len passes) passes.items }
    requires began { All (λ p. AllBegin (seen_of p.items) (seen_of watch.items)) passes.items }
    requires own { desks_of own.items ≡ map (λ d. d.desk) (H.lent desks.now).items }
    requires bench { (vec_len bench_passes ≡ vec_len passes) × All (λ p. p.desk ≡ bench.now.desk) bench_passes.items }
    requires watch { desks_of watch.items ≡ map (λ d. d.desk) (H.lent desks.now).items }
    requires fresh { (D.given door ≡ 0) × (D.out door ≡ 0) × (D.bots_out door ≡ 0) × (D.shut door ≡ false) }
    requires none_back { IfSome (D.returned door) (λ told. told ≡ []) }
    ensures out { (D.out result.0.5 ≡ 0) × (D.bots_out result.0.5 ≡ 0) }
    ensures given { D.given result.0.5 ≡ result.0.1 }
    ensures ended { Ended sessions (D.faults door) (D.left door) (D.shut result.0.5) (D.faults result.0.5) result.0.1 (Some result.0.0) }
    ensures watch { desks_of result.0.4.items ≡ map (λ d. d.desk) (H.lent desks.now).items }
    ensures served { AreServed B.may_starve seed (vec_len passes) (seen_of watch.items) (StandsIn (seen_of result.0.4.items)) (D.returned result.0.5) }
    ensures handed { map (λ p. map unseen p.items) result.0.2.items ≡ map (λ p. map unseen p.items) passes.items }
    ensures own { desks_of result.1.items ≡ desks_of own.items }
{
    let over = AtomicU64::new(0);
    let over = &over;
    let (own, served) = thread::join(
        rt,
        move || -> Vec<Pass<B>>
            requires own { desks_of own.items ≡ map (λ d. d.desk) (H.lent desks.now).items }
        { keep(rt, desks, own, keeper, over) },
        move || -> (
            DoorEnd,
            u64,
            Vec<Vec<Pass<B>>>,
            Vec<Pass<Wishes>>,
            Vec<Pass<B>>,
            D,
        )
            requires rooms { (0 < length (H.lent desks.now).items) × (length (H.lent desks.now).items ≤ 64) }
            requires some { 0 < vec_len readies }
            requires enough { vec_len readies ≤ vec_len passes }
            requires few { vec_len passes < 4294967296 }
            requires belong { All (λ p. Belong (H.lent desks.now).items (number_of p.items) p.items) passes.items }
            requires free { All (λ p. AttachedBy p.items None) passes.items }
            requires within { All (λ p. number_of p.items < vec_len passes) passes.items }
            requires began { All (λ p. AllBegin (seen_of p.items) (seen_of watch.items)) passes.items }
            requires bench { (vec_len bench_passes ≡ vec_len passes) × All (λ p. p.desk ≡ bench.now.desk) bench_passes.items }
            requires watch { desks_of watch.items ≡ map (λ d. d.desk) (H.lent desks.now).items }
            requires fresh { (D.given door ≡ 0) × (D.out door ≡ 0) × (D.bots_out door ≡ 0) × (D.shut door ≡ false) }
            requires none_back { IfSome (D.returned door) (λ told. told ≡ []) }
            ensures out { (D.out result.5 ≡ 0) × (D.bots_out result.5 ≡ 0) }
            ensures given { D.given result.5 ≡ result.1 }
            ensures ended { Ended sessions (D.faults door) (D.left door) (D.shut result.5) (D.faults result.5) result.1 (Some result.0) }
            ensures watch { desks_of result.4.items ≡ map (λ d. d.desk) (H.lent desks.entry.now).items }
            ensures served { AreServed B.may_starve seed (vec_len passes) (seen_of watch.items) (StandsIn (seen_of result.4.items)) (D.returned result.5) }
            ensures handed { map (λ p. map unseen p.items) result.2.items ≡ map (λ p. map unseen p.items) passes.items }
        {
            serve_until_over(
                rt,
                alloc,
                desks,
                passes,
                bench,
                bench_passes,
                watch,
                readies,
                seed,
                door,
                sessions,
                over,
            )
        },
    );
    (served, own)
}

/// Serves the links of a door as `serve_door` does, with a watch. If there is a keeper, it makes its calls by these passes of its own, one for each
/// desk, in a thread beside; they are handed back last.
pub(crate) fn serve_with_keeper<
    B: HostedRoom<AnyGame> + Send,
    D: Door + Send,
    W: Ready<D::L> + Send,
    Q: Keeper + Send,
    R: Threads + Wait + Sync,
>(
    rt: &R,
    alloc: Global,
    desks: &Vec<Desk<B>>,
    passes: Vec<Vec<Pass<B>>>,
    own: Vec<Pass<B>>,
    keeper: Option<Q>,
    bench: &Desk<Wishes>,
    bench_passes: Vec<Pass<Wishes>>,
    watch: Vec<Pass<B>>,
    readies: Vec<W>,
    seed: [u8; 32],
    door: D,
    sessions: u64,
) -> (
    (
        DoorEnd,
        u64,
        Vec<Vec<Pass<B>>>,
        Vec<Pass<Wishes>>,
        Vec<Pass<B>>,
        D,
    ),
    Vec<Pass<B>>,
)
where
    D::L: Send,
    requires rooms { (0 < length desks.now.items) × (length desks.now.items ≤ 64) }
    requires some { 0 < vec_len readies }
    requires enough { vec_len readies ≤ vec_len passes }
    requires few { vec_len passes < 4294967296 }
    requires belong { All (λ p. Belong desks.now.items (number_of p.items) p.items) passes.items }
    requires free { All (λ p. AttachedBy p.items None) passes.items }
    requires within { All (λ p. number_of p.items < vec_len passes) passes.items }
    requires began { All (λ p. AllBegin (seen_of p.items) (seen_of watch.items)) passes.items }
    requires own { desks_of own.items ≡ map (λ d. d.desk) desks.now.items }
    requires bench { (vec_len bench_passes ≡ vec_len passes) × All (λ p. p.desk ≡ bench.now.desk) bench_passes.items }
    requires watch { desks_of watch.items ≡ map (λ d. d.desk) desks.now.items }
    requires fresh { (D.given door ≡ 0) × (D.out door ≡ 0) × (D.bots_out door ≡ 0) × (D.shut door ≡ false) }
    requires none_back { IfSome (D.returned door) (λ told. told ≡ []) }
    ensures out { (D.out result.0.5 ≡ 0) × (D.bots_out result.0.5 ≡ 0) }
    ensures given { D.given result.0.5 ≡ result.0.1 }
    ensures ended { Ended sessions (D.faults door) (D.left door) (D.shut result.0.5) (D.faults result.0.5) result.0.1 (Some result.0.0) }
    ensures watch { desks_of result.0.4.items ≡ map (λ d. d.desk) desks.now.items }
    ensures served { AreServed B.may_starve seed (vec_len passes) (seen_of watch.items) (StandsIn (seen_of result.0.4.items)) (D.returned result.0.5) }
    ensures handed { map (λ p. map unseen p.items) result.0.2.items ≡ map (λ p. map unseen p.items) passes.items }
    ensures own { desks_of result.1.items ≡ desks_of own.items }
{
    match keeper {
        Some(keeper) => serve_beside(
            rt,
            alloc,
            &Lent { of: desks },
            passes,
            own,
            keeper,
            bench,
            bench_passes,
            watch,
            readies,
            seed,
            door,
            sessions,
        ),
        None => {
            let served = serve_door(
                rt,
                alloc,
                desks.as_slice(),
                passes,
                bench,
                bench_passes,
                watch,
                readies,
                seed,
                door,
                sessions,
            );
            (served, own)
        }
    }
}
