//! Workers in threads, each with its bench, which serve the links of one door.

ghost use Rattle.std.specs.Prelude.{◌≡◌, ◌+◌, ◌<◌, ◌≤◌, [], All, IfErr, IfOk, Some, false, is_some, length, map, vec_capacity, vec_len};
ghost use Rattle.link_rounds.specs.Gate.{Ended, WereServed};
ghost use Rattle.link_rounds.specs.Places.{Sits, about, seated_bots, seated_others};

use crate::bench::{Bench, work};
use crate::gate::{DoorEnd, Gate, Shift};
use crate::ready::Ready;
use crate::service::Service;
use board_links::{Door, Link};
use std::alloc::Global;
use std::marker::Brand;
use std::sync::ledger::{Blank, Ledger, Share};
use std::sync::{Mutex, Wait};
use std::thread;
use std::thread::Threads;

/// A worker: its bench, and its part of what is known of the door, of bots' links and of others.
#[derive(Drop)]
pub struct Worker<S: Service, L: Link, W: Ready<L>, J: Shift, B: Ledger> {
    bench: Bench<S, L, W>,
    share: Share<J>,
    bots: Share<B>,
}

/// The workers run in threads, until none of them has a link and none will come.
pub fn run_all<
    S: Service + Send,
    D: Door + Send,
    W: Ready<D::L> + Send,
    J: Shift + Send + Sync,
    B: Ledger + Send + Sync,
    R: Threads + Wait + Sync,
>(rt: &R, hall: &S::Hall, gate: &Mutex<Gate<S, D, J, B>>, workers: &mut [Worker<S, D::L, W, J, B>])
where
    D::L: Send,
    S::Hall: Sync,
    S::Witness: Send,
    requires some { 0 < length workers.old }
    requires fit { All (λ w. All (λ p. S.fits hall.now p.service) w.bench.places.items) workers.old }
    requires sit { All (λ w. All (Sits S.turn S.leave (about D.L.Link.answers D.L.Link.sent D.L.Link.faults D.L.Link.stage D.L.Link.clear D.L.Link.is_bot) S.rests) w.bench.places.items) workers.old }
    requires parts { All (λ w. (w.share.parts ≡ 1) × (w.bots.parts ≡ 1)) workers.old }
    requires others { All (λ w. w.share.amount ≡ seated_others D.has_bots D.L.Link.is_bot w.bench.places.items) workers.old }
    requires bots { All (λ w. w.bots.amount ≡ seated_bots D.has_bots D.L.Link.is_bot w.bench.places.items) workers.old }
    ensures many { length workers.new ≡ length workers.old }
    ensures fit { All (λ w. All (λ p. S.fits hall.now p.service) w.bench.places.items) workers.new }
    ensures sit { All (λ w. All (Sits S.turn S.leave (about D.L.Link.answers D.L.Link.sent D.L.Link.faults D.L.Link.stage D.L.Link.clear D.L.Link.is_bot) S.rests) w.bench.places.items) workers.new }
    ensures numbers { map (λ w. map (λ p. S.number p.service) w.bench.places.items) workers.new ≡ map (λ w. map (λ p. S.number p.service) w.bench.places.items) workers.old }
    ensures parts { All (λ w. (w.share.parts ≡ 1) × (w.bots.parts ≡ 1)) workers.new }
    ensures free { All (λ w. All (λ p. is_some p.link ≡ false) w.bench.places.items) workers.new }
    ensures none_out { All (λ w. (w.share.amount ≡ 0) × (w.bots.amount ≡ 0)) workers.new }
{
    let threads = workers.len();
    thread::for_each_mut(
        rt,
        workers,
        threads,
        &|_, worker: &mut Worker<S, D::L, W, J, B>|
            requires { All (λ p. S.fits hall.now p.service) worker.old.bench.places.items × All (Sits S.turn S.leave (about D.L.Link.answers D.L.Link.sent D.L.Link.faults D.L.Link.stage D.L.Link.clear D.L.Link.is_bot) S.rests) worker.old.bench.places.items × (worker.old.share.parts ≡ 1) × (worker.old.bots.parts ≡ 1)
                × (worker.old.share.amount ≡ seated_others D.has_bots D.L.Link.is_bot worker.old.bench.places.items) × (worker.old.bots.amount ≡ seated_bots D.has_bots D.L.Link.is_bot worker.old.bench.places.items) }
            ensures { All (λ p. S.fits hall.entry.now p.service) worker.new.bench.places.items × All (Sits S.turn S.leave (about D.L.Link.answers D.L.Link.sent D.L.Link.faults D.L.Link.stage D.L.Link.clear D.L.Link.is_bot) S.rests) worker.new.bench.places.items × (worker.new.share.parts ≡ 1) × (worker.new.bots.parts ≡ 1)
                × (map (λ p. S.number p.service) worker.new.bench.places.items ≡ map (λ p. S.number p.service) worker.old.bench.places.items)
                × All (λ p. is_some p.link ≡ false) worker.new.bench.places.items
                × (worker.new.share.amount ≡ 0) × (worker.new.bots.amount ≡ 0) }
        {
            let Worker { bench, share, bots } = worker;
            work(rt, hall, gate, bench, share, bots)
        },
    );
}

/// A worker for each bench, with a part each of what is known of the door.
fn hire<S: Service, L: Link, W: Ready<L>, J: Shift, B: Ledger>(
    alloc: Global,
    benches: Vec<Bench<S, L, W>>,
    all: &mut Share<J>,
    all_bots: &mut Share<B>,
) -> Result<Vec<Worker<S, L, W, J, B>>, Vec<Bench<S, L, W>>>
    requires parts { (all.old.parts ≡ vec_len benches) × (all_bots.old.parts ≡ vec_len benches) }
    requires none_out { (all.old.amount ≡ 0) × (all_bots.old.amount ≡ 0) }
    ensures parts { IfOk result (λ w. All (λ x. (x.share.parts ≡ 1) × (x.bots.parts ≡ 1)) w.items) }
    ensures none_out { IfOk result (λ w. All (λ x. (x.share.amount ≡ 0) × (x.bots.amount ≡ 0)) w.items) }
    ensures benches { IfOk result (λ w. map (λ x. x.bench) w.items ≡ benches.items) }
    ensures left { IfOk result (λ w. (all.new.parts ≡ 0) × (all.new.amount ≡ 0)) }
    ensures bots_left { IfOk result (λ w. (all_bots.new.parts ≡ 0) × (all_bots.new.amount ≡ 0)) }
    ensures err { IfErr result (λ b. b.items ≡ benches.items) }
{
    let Ok(mut workers) = Vec::with_capacity(alloc, benches.len()) else {
        return Err(benches);
    };
    for bench in benches {
        let share = all.split_off(1, 0);
        let bots = all_bots.split_off(1, 0);
        workers.push_reserved(Worker { bench, share, bots });
    }
    Ok(workers)
}

/// The workers' benches, in order, and their parts put together.
fn dismiss<S: Service, L: Link, W: Ready<L>, J: Shift, B: Ledger>(
    workers: Vec<Worker<S, L, W, J, B>>,
    all: &mut Share<J>,
    all_bots: &mut Share<B>,
    back: &mut Vec<Bench<S, L, W>>,
)
    requires room { vec_len back.old + vec_len workers ≤ vec_capacity back.old }
    requires empty { back.old.items ≡ [] }
    requires parts { All (λ w. (w.share.parts ≡ 1) × (w.bots.parts ≡ 1)) workers.items }
    requires none_out { All (λ w. (w.share.amount ≡ 0) × (w.bots.amount ≡ 0)) workers.items }
    ensures back { back.new.items ≡ map (λ w. w.bench) workers.items }
    ensures parts { all.new.parts ≡ all.old.parts + vec_len workers }
    ensures bots_parts { all_bots.new.parts ≡ all_bots.old.parts + vec_len workers }
    ensures none_out { (all.new.amount ≡ all.old.amount) × (all_bots.new.amount ≡ all_bots.old.amount) }
{
    for worker in workers {
        let Worker { bench, share, bots } = worker;
        all.merge(share);
        all_bots.merge(bots);
        back.push_reserved(bench);
    }
}

/// Serves the door with workers who have a part each of all that is known of it, and hands their benches back.
fn serve_by<
    S: Service + Send,
    D: Door + Send,
    W: Ready<D::L> + Send,
    J: Shift + Send + Sync,
    B: Ledger + Send + Sync,
    R: Threads + Wait + Sync,
>(
    rt: &R,
    hall: &S::Hall,
    mut workers: Vec<Worker<S, D::L, W, J, B>>,
    gate: Gate<S, D, J, B>,
    mut all: Share<J>,
    mut all_bots: Share<B>,
    mut back: Vec<Bench<S, D::L, W>>,
) -> (DoorEnd, u64, Vec<Bench<S, D::L, W>>, S::Witness, D)
where
    D::L: Send,
    S::Hall: Sync,
    S::Witness: Send,
    requires some { 0 < vec_len workers }
    requires fit { All (λ w. All (λ p. S.fits hall.now p.service) w.bench.places.items) workers.items }
    requires sit { All (λ w. All (Sits S.turn S.leave (about D.L.Link.answers D.L.Link.sent D.L.Link.faults D.L.Link.stage D.L.Link.clear D.L.Link.is_bot) S.rests) w.bench.places.items) workers.items }
    requires parts { All (λ w. (w.share.parts ≡ 1) × (w.bots.parts ≡ 1)) workers.items }
    requires others { All (λ w. w.share.amount ≡ seated_others D.has_bots D.L.Link.is_bot w.bench.places.items) workers.items }
    requires bots { All (λ w. w.bots.amount ≡ seated_bots D.has_bots D.L.Link.is_bot w.bench.places.items) workers.items }
    requires whole { (all.parts + vec_len workers ≡ J.parts) × (all_bots.parts + vec_len workers ≡ B.parts) }
    requires none_left { (all.amount ≡ 0) × (all_bots.amount ≡ 0) }
    requires room { vec_len workers ≤ vec_capacity back }
    requires empty { back.items ≡ [] }
    ensures out { (D.out result.4 ≡ 0) × (D.bots_out result.4 ≡ 0) }
    ensures given { D.given result.4 ≡ result.1 }
    ensures ended { Ended J.sessions J.faults J.held (D.shut result.4) (D.faults result.4) result.1 (Some result.0) }
    ensures attends { S.attends result.3 }
    ensures served { WereServed S.turn S.leave S.rests (S.knows result.3) (D.returned result.4) }
    ensures fit { All (λ b. All (λ p. S.fits hall.now p.service) b.places.items) result.2.items }
    ensures sit { All (λ b. All (Sits S.turn S.leave (about D.L.Link.answers D.L.Link.sent D.L.Link.faults D.L.Link.stage D.L.Link.clear D.L.Link.is_bot) S.rests) b.places.items) result.2.items }
    ensures numbers { map (λ b. map (λ p. S.number p.service) b.places.items) result.2.items ≡ map (λ w. map (λ p. S.number p.service) w.bench.places.items) workers.items }
    ensures free { All (λ b. All (λ p. is_some p.link ≡ false) b.places.items) result.2.items }
{
    let gate = Mutex::new(gate);
    run_all(rt, hall, &gate, workers.as_mut_slice());
    dismiss(workers, &mut all, &mut all_bots, &mut back);
    let (end, count, witness, door) = gate.into_inner().close(&mut all, &mut all_bots);
    drop(all);
    drop(all_bots);
    (end, count, back, witness, door)
}

/// Serves the door at these benches, as `J` has it too, which names what the lock has to know of this call.
fn run<
    S: Service + Send,
    D: Door + Send,
    W: Ready<D::L> + Send,
    J: Shift + Send + Sync,
    B: Ledger + Send + Sync,
    R: Threads + Wait + Sync,
>(
    rt: &R,
    alloc: Global,
    hall: &S::Hall,
    benches: Vec<Bench<S, D::L, W>>,
    witness: S::Witness,
    door: D,
    sessions: u64,
    blank: Blank,
    bots_blank: Blank,
) -> (DoorEnd, u64, Vec<Bench<S, D::L, W>>, S::Witness, D)
where
    D::L: Send,
    S::Hall: Sync,
    S::Witness: Send,
    requires name { (blank.name ≡ J.name) × (bots_blank.name ≡ B.name) }
    requires parts { (blank.parts ≡ J.parts) × (blank.parts ≡ vec_len benches) }
    requires bots_parts { (bots_blank.parts ≡ B.parts) × (bots_blank.parts ≡ vec_len benches) }
    requires shift { (J.sessions ≡ sessions) × (J.faults ≡ D.faults door) × (J.held ≡ D.left door) }
    requires some { 0 < vec_len benches }
    requires fit { All (λ b. All (λ p. S.fits hall.now p.service) b.places.items) benches.items }
    requires sit { All (λ b. All (Sits S.turn S.leave (about D.L.Link.answers D.L.Link.sent D.L.Link.faults D.L.Link.stage D.L.Link.clear D.L.Link.is_bot) S.rests) b.places.items) benches.items }
    requires free { All (λ b. All (λ p. is_some p.link ≡ false) b.places.items) benches.items }
    requires fresh { (D.given door ≡ 0) × (D.out door ≡ 0) × (D.bots_out door ≡ 0) × (D.shut door ≡ false) }
    requires attends { S.attends witness }
    requires served { WereServed S.turn S.leave S.rests (S.knows witness) (D.returned door) }
    ensures out { (D.out result.4 ≡ 0) × (D.bots_out result.4 ≡ 0) }
    ensures given { D.given result.4 ≡ result.1 }
    ensures ended { Ended sessions (D.faults door) (D.left door) (D.shut result.4) (D.faults result.4) result.1 (Some result.0) }
    ensures attends { S.attends result.3 }
    ensures served { WereServed S.turn S.leave S.rests (S.knows result.3) (D.returned result.4) }
    ensures fit { All (λ b. All (λ p. S.fits hall.now p.service) b.places.items) result.2.items }
    ensures sit { All (λ b. All (Sits S.turn S.leave (about D.L.Link.answers D.L.Link.sent D.L.Link.faults D.L.Link.stage D.L.Link.clear D.L.Link.is_bot) S.rests) b.places.items) result.2.items }
    ensures numbers { map (λ b. map (λ p. S.number p.service) b.places.items) result.2.items ≡ map (λ b. map (λ p. S.number p.service) b.places.items) benches.items }
    ensures free { All (λ b. All (λ p. is_some p.link ≡ false) b.places.items) result.2.items }
{
    let Ok(back) = Vec::with_capacity(alloc, benches.len()) else {
        return (DoorEnd::NoMemory, 0, benches, witness, door);
    };
    let (book, mut all) = blank.open::<J>();
    let (bots, mut all_bots) = bots_blank.open::<B>();
    match hire(alloc, benches, &mut all, &mut all_bots) {
        Ok(workers) => {
            let gate = Gate::new(witness, door, book, bots, sessions);
            serve_by(rt, hall, workers, gate, all, all_bots, back)
        }
        Err(benches) => (DoorEnd::NoMemory, 0, benches, witness, door),
    }
}

/// Serves the links of a door at these benches, each worked at by a thread, until the door is shut, has given so many sessions, or fails. No
/// link is out then, and the benches come back in their order.
///
/// There is at least one bench, and no place has a link; so they are afterwards. The door has given no link, and hasn't answered that it is shut.
/// With every end comes the count of the links that the door gave. The benches have the same services, by their numbers. A door that tells what
/// came back tells only links that were served, and the witness was shown where each of their sessions ended.
pub fn serve_door<
    S: Service + Send,
    D: Door + Send,
    W: Ready<D::L> + Send,
    R: Threads + Wait + Sync,
>(
    rt: &R,
    alloc: Global,
    hall: &S::Hall,
    benches: Vec<Bench<S, D::L, W>>,
    witness: S::Witness,
    door: D,
    sessions: u64,
) -> (DoorEnd, u64, Vec<Bench<S, D::L, W>>, S::Witness, D)
where
    D::L: Send,
    S::Hall: Sync,
    S::Witness: Send,
    requires some { 0 < vec_len benches }
    requires fit { All (λ b. All (λ p. S.fits hall.now p.service) b.places.items) benches.items }
    requires sit { All (λ b. All (Sits S.turn S.leave (about D.L.Link.answers D.L.Link.sent D.L.Link.faults D.L.Link.stage D.L.Link.clear D.L.Link.is_bot) S.rests) b.places.items) benches.items }
    requires free { All (λ b. All (λ p. is_some p.link ≡ false) b.places.items) benches.items }
    requires fresh { (D.given door ≡ 0) × (D.out door ≡ 0) × (D.bots_out door ≡ 0) × (D.shut door ≡ false) }
    requires attends { S.attends witness }
    requires served { WereServed S.turn S.leave S.rests (S.knows witness) (D.returned door) }
    ensures out { (D.out result.4 ≡ 0) × (D.bots_out result.4 ≡ 0) }
    ensures given { D.given result.4 ≡ result.1 }
    ensures ended { Ended sessions (D.faults door) (D.left door) (D.shut result.4) (D.faults result.4) result.1 (Some result.0) }
    ensures attends { S.attends result.3 }
    ensures served { WereServed S.turn S.leave S.rests (S.knows result.3) (D.returned result.4) }
    ensures fit { All (λ b. All (λ p. S.fits hall.now p.service) b.places.items) result.2.items }
    ensures sit { All (λ b. All (Sits S.turn S.leave (about D.L.Link.answers D.L.Link.sent D.L.Link.faults D.L.Link.stage D.L.Link.clear D.L.Link.is_bot) S.rests) b.places.items) result.2.items }
    ensures numbers { map (λ b. map (λ p. S.number p.service) b.places.items) result.2.items ≡ map (λ b. map (λ p. S.number p.service) b.places.items) benches.items }
    ensures free { All (λ b. All (λ p. is_some p.link ≡ false) b.places.items) result.2.items }
{
    let parts = benches.len() as u64;
    run::<S, D, W, Brand, Brand, R>(
        rt,
        alloc,
        hall,
        benches,
        witness,
        door,
        sessions,
        Blank::new(parts),
        Blank::new(parts),
    )
}
