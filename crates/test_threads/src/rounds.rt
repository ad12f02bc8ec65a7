//! Links in memory that are served at a bench of two places.

ghost use Rattle.std.specs.Prelude.{◌≡◌, ◌<◌, ◌≤◌, [], All, Some, IfOk, false, vec_len};
ghost use Rattle.board_links.specs.Doors.{IsFresh};

use crate::echo::{Echo, Unmoved};
use board_links::{AtEnd, Door, Link, MemoryDoor, MemoryLink, Scripted, SessionEnd};
use game_sheet::{List, NoMemory};
use link_rounds::{Bench, DoorEnd, InTurn, Ready, Service, Stir, serve_door, serve_places};
use std::alloc::Global;
use std::sync::Wait;
use std::test::Fail;
use std::thread::Threads;

/// Names both places of its bench in turn, the second in bursts, and one beyond them.
#[derive(Drop)]
pub struct Everyone;

impl<L: Link> Ready<L> for Everyone {
    ghost use Rattle.std.specs.Prelude.{None};

    ghost named = { λ _. None };

    fn watch(&mut self, _number: u32, _link: &mut L) {}

    fn note(&mut self, _number: u32, _stir: Stir) {}

    fn wait<R: Wait>(&mut self, _rt: &R, numbers: &mut Vec<u32>) {
        numbers.clear();
        for number in [0, 1, 1, 2, 1] {
            let _named = numbers.push(number);
        }
    }
}

/// A link that says these lines, and ends.
pub fn link(alloc: Global, lines: &[&[u8]]) -> Result<MemoryLink, NoMemory>
    ensures { IfOk result (λ l. IsFresh l.faults l.finished (Some l.answers) (Some l.sent)) }
{
    let mut script = Vec::new(alloc);
    for line in lines {
        script.push(Scripted::Line(Vec::from_slice(alloc, line)?))?;
    }
    Ok(MemoryLink::new(alloc, script, AtEnd::Ended, 9, List::new(alloc)))
}

/// What the links of the door say, each in lines.
const SAID: [&[&[u8]]; 5] = [
    &[b"one", b"two"],
    &[],
    &[b"three", b"four", b"five"],
    &[b"six"],
    &[b"seven", b""],
];

/// What comes back from them, in the order in which they do: the last link comes first, and the second place is free first.
const ANSWERED: [&[u8]; 5] = [
    b"seven\n\n",
    b"six\n",
    b"",
    b"three\nfour\nfive\n",
    b"one\ntwo\n",
];

/// A door of links that say these lines, of which the last comes first.
fn door(alloc: Global, said: &[&[&[u8]]]) -> Result<MemoryDoor<MemoryLink>, NoMemory>
    ensures given { IfOk result (λ d. ⟦<MemoryDoor<MemoryLink> as Door>⟧.given d ≡ 0) }
    ensures out { IfOk result (λ d. ⟦<MemoryDoor<MemoryLink> as Door>⟧.out d ≡ 0) }
    ensures shut { IfOk result (λ d. ⟦<MemoryDoor<MemoryLink> as Door>⟧.shut d ≡ false) }
    ensures returned { IfOk result (λ d. ⟦<MemoryDoor<MemoryLink> as Door>⟧.returned d ≡ Some []) }
{
    let mut links = Vec::new(alloc);
    for lines in said {
        links.push(link(alloc, lines)?)?;
    }
    MemoryDoor::new(alloc, links, List::new(alloc))
}

/// Serves a door at one bench with these services.
pub fn serve<S: Service + Send, D: Door + Send, W: Ready<D::L> + Send, R: Threads + Wait + Sync>(
    rt: &R,
    alloc: Global,
    hall: &S::Hall,
    services: Vec<S>,
    witness: S::Witness,
    ready: W,
    door: D,
) -> Result<(DoorEnd, u64, D), NoMemory>
where
    D::L: Send,
    S::Hall: Sync,
    S::Witness: Send,
    requires few { vec_len services < 4294967296 }
    requires fit { All (S.fits hall.now) services.items }
    requires rest { All S.rests services.items }
    requires attends { S.attends witness }
    requires fresh { (D.given door ≡ 0) × (D.out door ≡ 0) × (D.bots_out door ≡ 0) × (D.shut door ≡ false) }
    requires returned { D.returned door ≡ Some [] }
{
    let mut benches = Vec::with_capacity(alloc, 1)?;
    match Bench::new(alloc, hall, services, ready) {
        Ok(bench) => benches.push_reserved(bench),
        Err(services) => {
            drop(services);
            drop(witness);
            drop(door);
            return Err(NoMemory);
        }
    }
    let (end, count, benches, witness, door) = serve_door(
        rt, alloc, hall, benches, witness, door, 1000,
    );
    drop(benches);
    drop(witness);
    Ok((end, count, door))
}

/// Two services that send back what they are said.
pub fn echoes(alloc: Global) -> Result<Vec<Echo>, NoMemory>
    ensures { IfOk result (λ s. vec_len s ≡ 2) }
{
    let mut services = Vec::new(alloc);
    services.push(Echo::new(alloc))?;
    services.push(Echo::new(alloc))?;
    Ok(services)
}

/// Whether the link at this place of those that came back ended with its peer, and was sent what it said.
fn is_answered(link: &MemoryLink, end: SessionEnd, place: usize) -> bool {
    match ANSWERED.get(place) {
        Some(want) => end == SessionEnd::Ended && link.sent() == *want,
        None => false,
    }
}

#[test]
fn links_are_served_turn_by_turn_and_come_back(rt: HostRuntime) -> Result<(), Fail> {
    let alloc = rt.alloc();
    let services = echoes(alloc)?;
    let door = door(alloc, &SAID)?;
    let (end, count, door) = serve(&rt, alloc, &(), services, Unmoved, Everyone, door)?;
    assert!(rt; end == DoorEnd::Done && count == 5);
    for (place, (link, end)) in door.ended().iter().enumerate() {
        assert!(rt; is_answered(link, *end, place), "link {place}");
    }
    assert_eq!(rt; door.ended().len(), 5);
    Ok(())
}

/// Serves a door with these services, dealt out to two workers, of whom the first has two places.
fn serve_dealt<S: Service + Send, D: Door + Send, R: Threads + Wait + Sync>(
    rt: &R,
    alloc: Global,
    hall: &S::Hall,
    services: Vec<S>,
    witness: S::Witness,
    door: D,
) -> Result<(DoorEnd, u64, Vec<S>, S::Witness, D), NoMemory>
where
    D::L: Send,
    S::Hall: Sync,
    S::Witness: Send,
    requires enough { 2 ≤ vec_len services }
    requires few { vec_len services < 4294967296 }
    requires fit { All (S.fits hall.now) services.items }
    requires rest { All S.rests services.items }
    requires attends { S.attends witness }
    requires fresh { (D.given door ≡ 0) × (D.out door ≡ 0) × (D.bots_out door ≡ 0) × (D.shut door ≡ false) }
    requires returned { D.returned door ≡ Some [] }
{
    let mut readies = Vec::with_capacity(alloc, 2)?;
    readies.push_reserved(InTurn::new(2));
    readies.push_reserved(InTurn::new(1));
    Ok(serve_places(rt, alloc, hall, services, witness, readies, door, 1000))
}

/// Whether a link that came back ended with its peer, and was sent what one of them said.
fn is_echoed(link: &MemoryLink, end: SessionEnd) -> bool {
    for want in ANSWERED {
        if link.sent() == want {
            return end == SessionEnd::Ended;
        }
    }
    false
}

#[test]
fn services_are_dealt_out_and_come_back(rt: HostRuntime) -> Result<(), Fail> {
    let alloc = rt.alloc();
    let mut services = echoes(alloc)?;
    services.push(Echo::new(alloc))?;
    let door = door(alloc, &SAID)?;
    let (end, count, services, witness, door) = serve_dealt(
        &rt,
        alloc,
        &(),
        services,
        Unmoved,
        door,
    )?;
    assert!(rt; end == DoorEnd::Done && count == 5);
    drop(witness);
    assert_eq!(rt; services.len(), 3);
    for (place, (link, end)) in door.ended().iter().enumerate() {
        assert!(rt; is_echoed(link, *end), "link {place}");
    }
    assert_eq!(rt; door.ended().len(), 5);
    Ok(())
}
