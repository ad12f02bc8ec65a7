//! A door in memory, by what it answers call by call.

ghost use Rattle.std.specs.Prelude.{Some};
ghost use Rattle.board_links.specs.Doors.{IsFresh};

use board_links::{AtEnd, Door, MemoryDoor, MemoryLink, Visit};
use game_sheet::{List, NoMemory};
use std::alloc::Global;
use std::sync::Wait;
use std::test::Fail;

/// A link that says nothing and ends.
fn silent(alloc: Global) -> MemoryLink
    ensures { IsFresh result.faults result.finished (Some result.answers) (Some result.sent) }
{
    MemoryLink::new(alloc, Vec::new(alloc), AtEnd::Ended, 4, List::new(alloc))
}

/// A door of two links, whose second call fails.
fn door(alloc: Global) -> Result<MemoryDoor<MemoryLink>, NoMemory> {
    let mut links = Vec::new(alloc);
    links.push(silent(alloc))?;
    links.push(silent(alloc))?;
    let failing = List::from_slice(alloc, &[2])?;
    MemoryDoor::new(alloc, links, failing)
}

/// The word of an answer.
fn word<L>(visit: &Visit<L>) -> &'static str {
    match visit {
        Visit::Came(_) => "came",
        Visit::Quiet => "quiet",
        Visit::Shut => "shut",
        Visit::Failed => "failed",
        Visit::NoMemory => "no memory",
    }
}

/// The words of four answers.
fn answers<D: Door, R: Wait>(rt: &R, door: D) -> [&'static str; 4] {
    let mut door = door;
    let mut words = [""; 4];
    for turn in 0..4 {
        let visit = door.accept(rt);
        words[turn] = word(&visit);
        drop(visit);
    }
    drop(door);
    words
}

#[test]
fn a_door_lets_its_links_in_and_is_then_shut(rt: HostRuntime) -> Result<(), Fail> {
    let words = answers(&rt, door(rt.alloc())?);
    assert!(rt; words == ["came", "failed", "came", "shut"]);
    Ok(())
}
