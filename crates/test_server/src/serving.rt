//! What servers in memory are given: the lines of players, a door of two links, and what names the places.

ghost use Rattle.std.specs.Prelude.{◌≡◌, [], IfOk, Some, false, vec_len};
ghost use Rattle.board_links.specs.Doors.{IsFresh};

use board_links::{AtEnd, Door, MemoryDoor, MemoryLink, Scripted};
use game_sheet::{List, NoMemory};
use link_rounds::InTurn;
use room_keeper::{Outside, RoomStatus};
use std::alloc::Global;

pub(crate) const CREATE: &[u8] = b"{\"game\":\"pig\",\"seats\":2,\"type\":\"create\"}";

/// A player who sits down. The key is the one that the first words of the seed of zeros give behind those of a match's seed.
pub(crate) const JOIN: &[u8] = b"{\"match\":\"0-1\",\"name\":\"ann\",\"seat\":0,\"type\":\"join\"}";

pub(crate) const LEAVE: &[u8] =
    b"{\"key\":\"da41597c5157488d7724e03fb8d84a37\",\"match\":\"0-1\",\"seat\":0,\"type\":\"leave\"}";

/// The player takes another name.
pub(crate) const RENAME: &[u8] =
    b"{\"key\":\"da41597c5157488d7724e03fb8d84a37\",\"match\":\"0-1\",\"name\":\"bob\",\"seat\":0,\"type\":\"rename\"}";

/// A clock that says nothing, and nobody who asks.
#[derive(Drop)]
pub(crate) struct NobodyOutside;

impl Outside for NobodyOutside {
    fn seconds(&mut self) -> Option<u64> {
        None
    }

    fn is_watched(&self) -> bool {
        false
    }

    fn asked(&mut self) -> bool {
        false
    }

    fn answer(&mut self, _rooms: Result<&[RoomStatus], NoMemory>) {}
}

/// A link that says these lines, and ends. Where a line is empty it says nothing once.
fn link(alloc: Global, lines: &[&[u8]]) -> Result<MemoryLink, NoMemory>
    ensures { IfOk result (λ l. IsFresh l.faults l.finished (Some l.answers) (Some l.sent)) }
{
    let mut script = Vec::new(alloc);
    for line in lines {
        if line.is_empty() {
            script.push(Scripted::Quiet)?;
        } else {
            script.push(Scripted::Line(Vec::from_slice(alloc, line)?))?;
        }
    }
    Ok(MemoryLink::new(alloc, script, AtEnd::Ended, 65_536, List::new(alloc)))
}

/// A door of two links, of which the last comes first. Its calls of these numbers fail.
pub(crate) fn door(
    alloc: Global,
    first: &[&[u8]],
    second: &[&[u8]],
    accepts: &[u64],
) -> Result<MemoryDoor<MemoryLink>, NoMemory>
    ensures given { IfOk result (λ d. ⟦<MemoryDoor<MemoryLink> as Door>⟧.given d ≡ 0) }
    ensures out { IfOk result (λ d. ⟦<MemoryDoor<MemoryLink> as Door>⟧.out d ≡ 0) }
    ensures shut { IfOk result (λ d. ⟦<MemoryDoor<MemoryLink> as Door>⟧.shut d ≡ false) }
    ensures returned { IfOk result (λ d. ⟦<MemoryDoor<MemoryLink> as Door>⟧.returned d ≡ Some []) }
{
    let failing = List::from_slice(alloc, accepts)?;
    let mut links = Vec::new(alloc);
    links.push(link(alloc, first)?)?;
    links.push(link(alloc, second)?)?;
    MemoryDoor::new(alloc, links, failing)
}

/// For one worker of one place, what names that in turn.
pub(crate) fn readies(alloc: Global) -> Result<Vec<InTurn>, NoMemory>
    ensures { IfOk result (λ r. vec_len r ≡ 1) }
{
    let mut readies = Vec::with_capacity(alloc, 1)?;
    readies.push_reserved(InTurn::new(1));
    Ok(readies)
}
