//! Services that are dealt out to workers, serve the links of a door, and come back.

ghost use Rattle.std.specs.Prelude.{◌≡◌, ◌+◌, ◌<◌, ◌≤◌, ◌++◌, [], All, IfNone, IfSome, Some, false, is_some, length, map, true, vec_capacity, vec_len};
ghost use Rattle.link_rounds.specs.Dealing.{dealt};
ghost use Rattle.link_rounds.specs.Gate.{Ended, WereServed};
ghost use Rattle.link_rounds.specs.Places.{Sits, about};

use crate::bench::Bench;
use crate::gate::DoorEnd;
use crate::ready::Ready;
use crate::service::Service;
use crate::serving::serve_door;
use board_links::{Door, Link};
use std::alloc::Global;
use std::sync::Wait;
use std::thread::Threads;

/// A bench for the services from the place `kept` on. Where there is no memory, the services are as they were.
fn seat_from<S: Service, L: Link, W: Ready<L>>(
    alloc: Global,
    hall: &S::Hall,
    services: &mut Vec<S>,
    kept: usize,
    ready: W,
) -> Option<Bench<S, L, W>>
    requires kept { kept ≤ vec_len services.old }
    requires few { vec_len services.old < 4294967296 }
    requires fit { All (S.fits hall.now) services.old.items }
    requires rest { All S.rests services.old.items }
    ensures seated { IfSome result (λ b. services.new.items ++ map (λ p. p.service) b.places.items ≡ services.old.items) }
    ensures len { IfSome result (λ b. vec_len services.new ≡ kept) }
    ensures free { IfSome result (λ b. All (λ p. is_some p.link ≡ false) b.places.items) }
    ensures fit { IfSome result (λ b. All (λ p. S.fits hall.now p.service) b.places.items) }
    ensures sit { IfSome result (λ b. All (Sits S.turn S.leave (about L.answers L.sent L.faults L.stage L.clear L.is_bot) S.rests) b.places.items) }
    ensures none { IfNone result (services.new.items ≡ services.old.items) }
    ensures capacity { vec_capacity services.old ≤ vec_capacity services.new }
{
    let Ok(own) = services.split_off(kept) else {
        return None;
    };
    match Bench::new(alloc, hall, own, ready) {
        Ok(bench) => Some(bench),
        Err(own) => {
            let mut own = own;
            // There is room, since they stood there.
            let _joined = services.append(&mut own);
            None
        }
    }
}

/// How many of these services the last of so many workers gets: the others, who come before it, get what can't be divided.
fn last_part(services: usize, workers: usize) -> usize
    requires { 0 < workers }
    ensures within { result ≤ services }
    ensures whole { workers ≡ 1 → result ≡ services }
{
    services / workers
}

/// A bench for each of these workers, from the last to the first, with the services dealt out as evenly as can be; false where there is no memory.
fn deal<S: Service, L: Link, W: Ready<L>>(
    alloc: Global,
    hall: &S::Hall,
    services: &mut Vec<S>,
    mut readies: Vec<W>,
    benches: &mut Vec<Bench<S, L, W>>,
) -> bool
    requires some { 0 < vec_len readies }
    requires few { vec_len services.old < 4294967296 }
    requires fit { All (S.fits hall.now) services.old.items }
    requires rest { All S.rests services.old.items }
    requires empty { benches.old.items ≡ [] }
    requires room { vec_len readies ≤ vec_capacity benches.old }
    ensures all { result ≡ true → services.new.items ≡ [] }
    ensures some { result ≡ true → 0 < vec_len benches.new }
    ensures dealt { services.new.items ++ dealt (map (λ b. map (λ p. p.service) b.places.items) benches.new.items) ≡ services.old.items }
    ensures free { All (λ b. All (λ p. is_some p.link ≡ false) b.places.items) benches.new.items }
    ensures fit { All (λ b. All (λ p. S.fits hall.now p.service) b.places.items) benches.new.items }
    ensures sit { All (λ b. All (Sits S.turn S.leave (about L.answers L.sent L.faults L.stage L.clear L.is_bot) S.rests) b.places.items) benches.new.items }
    ensures capacity { vec_capacity services.old ≤ vec_capacity services.new }
{
    while let Some(ready) = readies.pop() {
        let part = last_part(services.len(), readies.len() + 1);
        let kept = services.len() - part;
        let Some(bench) = seat_from(alloc, hall, services, kept, ready) else {
            return false;
        };
        benches.push_reserved(bench);
    }
    true
}

/// Takes benches apart that were dealt from the last to the first, and puts their services behind those of the list.
fn gather<S: Service, L: Link, W: Ready<L>>(mut benches: Vec<Bench<S, L, W>>, services: &mut Vec<S>)
    requires room { vec_len services.old + length (dealt (map (λ b. map (λ p. p.service) b.places.items) benches.items)) ≤ vec_capacity services.old }
    ensures { services.new.items ≡ services.old.items ++ dealt (map (λ b. map (λ p. p.service) b.places.items) benches.items) }
{
    while let Some(bench) = benches.pop() {
        bench.give_up(services);
    }
}

/// Serves the links of a door with these services, each at a place of its own, until the door is shut, has given so many sessions, or fails. No
/// link is out then, and the services come back in their order.
///
/// There is a worker, a thread, for each of `readies`, and at least one. The services are dealt out to the workers in order, as evenly as can
/// be: the first workers get one more. The door has given no link, and hasn't answered that it is shut. With every end comes the count of the
/// links that the door gave. A door that tells what came back tells only links that were served, and the witness was shown where each of their
/// sessions ended. Without memory for the workers the end is `NoMemory`, and no link was asked for.
pub fn serve_places<
    S: Service + Send,
    D: Door + Send,
    W: Ready<D::L> + Send,
    R: Threads + Wait + Sync,
>(
    rt: &R,
    alloc: Global,
    hall: &S::Hall,
    mut services: Vec<S>,
    witness: S::Witness,
    readies: Vec<W>,
    door: D,
    sessions: u64,
) -> (DoorEnd, u64, Vec<S>, S::Witness, D)
where
    D::L: Send,
    S::Hall: Sync,
    S::Witness: Send,
    requires some { 0 < vec_len readies }
    requires enough { vec_len readies ≤ vec_len services }
    requires few { vec_len services < 4294967296 }
    requires fit { All (S.fits hall.now) services.items }
    requires rest { All S.rests services.items }
    requires fresh { (D.given door ≡ 0) × (D.out door ≡ 0) × (D.bots_out door ≡ 0) × (D.shut door ≡ false) }
    requires attends { S.attends witness }
    requires served { WereServed S.turn S.leave S.rests (S.knows witness) (D.returned door) }
    ensures out { (D.out result.4 ≡ 0) × (D.bots_out result.4 ≡ 0) }
    ensures given { D.given result.4 ≡ result.1 }
    ensures ended { Ended sessions (D.faults door) (D.left door) (D.shut result.4) (D.faults result.4) result.1 (Some result.0) }
    ensures attends { S.attends result.3 }
    ensures served { WereServed S.turn S.leave S.rests (S.knows result.3) (D.returned result.4) }
    ensures fit { All (S.fits hall.now) result.2.items }
    ensures rest { All S.rests result.2.items }
    ensures numbers { map S.number result.2.items ≡ map S.number services.items }
{
    let Ok(mut benches) = Vec::with_capacity(alloc, readies.len()) else {
        return (DoorEnd::NoMemory, 0, services, witness, door);
    };
    if !deal(alloc, hall, &mut services, readies, &mut benches) {
        gather(benches, &mut services);
        return (DoorEnd::NoMemory, 0, services, witness, door);
    }
    let (end, count, benches, witness, door) = serve_door(
        rt, alloc, hall, benches, witness, door, sessions,
    );
    gather(benches, &mut services);
    (end, count, services, witness, door)
}
