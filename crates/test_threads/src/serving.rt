//! Two workers that serve a door.

ghost use Rattle.std.specs.Prelude.{◌≡◌, ◌≤◌, ◌<◌, ◌∷◌, [], All, IfOk, IfSome, None, false, vec_len};

use crate::echo::{Echo, Unmoved};
use board_links::Door;
use game_sheet::NoMemory;
use link_rounds::{Bench, DoorEnd, Ready, Service, serve_door};
use std::alloc::Global;
use std::sync::Wait;
use std::thread::Threads;

/// So many services that send back what they are said.
fn echoes(alloc: Global, places: u32) -> Result<Vec<Echo>, NoMemory>
    ensures { IfOk result (λ s. vec_len s ≤ 4294967295) }
{
    let mut services = Vec::with_capacity(alloc, places as usize)?;
    for _ in 0..places {
        services.push(Echo::new(alloc))?;
    }
    if services.len() > 4_294_967_295 {
        drop(services);
        return Err(NoMemory);
    }
    Ok(services)
}

/// These two, in a list.
fn pair<B: Drop>(alloc: Global, first: B, second: B) -> Option<Vec<B>>
    ensures { IfSome result (λ both. both.items ≡ first ∷ second ∷ []) }
{
    let mut both = Vec::with_capacity(alloc, 2).ok()?;
    both.push_reserved(first);
    both.push_reserved(second);
    Some(both)
}

/// Serves a door at two benches with these services, for so many sessions.
#[tactic(auto, using(crate::proofs::Pairs::both))]
fn serve_by<S: Service + Send, D: Door + Send, W: Ready<D::L> + Send, R: Threads + Wait + Sync>(
    rt: &R,
    alloc: Global,
    hall: &S::Hall,
    services: (Vec<S>, Vec<S>),
    witness: S::Witness,
    readies: (W, W),
    door: D,
    sessions: u64,
) -> Option<(DoorEnd, u64)>
where
    D::L: Send,
    S::Hall: Sync,
    S::Witness: Send,
    requires few { (vec_len services.0 < 4294967296) × (vec_len services.1 < 4294967296) }
    requires fit { All (S.fits hall.now) services.0.items × All (S.fits hall.now) services.1.items }
    requires rest { All S.rests services.0.items × All S.rests services.1.items }
    requires attends { S.attends witness }
    requires fresh { (D.given door ≡ 0) × (D.out door ≡ 0) × (D.bots_out door ≡ 0) × (D.shut door ≡ false) }
    requires returned { D.returned door ≡ None }
{
    let Ok(first) = Bench::new(alloc, hall, services.0, readies.0) else {
        return None;
    };
    let Ok(second) = Bench::new(alloc, hall, services.1, readies.1) else {
        return None;
    };
    let Some(benches) = pair(alloc, first, second) else {
        return None;
    };
    let (end, count, benches, witness, door) = serve_door(
        rt, alloc, hall, benches, witness, door, sessions,
    );
    drop(benches);
    drop(witness);
    drop(door);
    Some((end, count))
}

/// Serves a door with two workers, of so many places each, which send back what they are said; for so many sessions.
pub fn serve<D: Door + Send, W: Ready<D::L> + Send, R: Threads + Wait + Sync>(
    rt: &R,
    alloc: Global,
    mut readies: Vec<W>,
    door: D,
    places: u32,
    sessions: u64,
) -> Option<(DoorEnd, u64)>
where
    D::L: Send,
    requires fresh { (D.given door ≡ 0) × (D.out door ≡ 0) × (D.bots_out door ≡ 0) × (D.shut door ≡ false) }
    requires returned { D.returned door ≡ None }
{
    let services = (echoes(alloc, places).ok()?, echoes(alloc, places).ok()?);
    let both = (readies.pop()?, readies.pop()?);
    drop(readies);
    serve_by(rt, alloc, &(), services, Unmoved, both, door, sessions)
}
