//! A link that keeps bytes back for ten rounds after each send.

ghost use Rattle.std.specs.Prelude.{◌≡◌, ◌==◌, [], Some, IfOk, false};
ghost use Rattle.board_links.specs.Doors.{IsFresh};

use crate::echo::{Echo, Unmoved};
use crate::rounds::{Everyone, echoes, link, serve};
use board_links::{Came, Door, Link, MemoryDoor, MemoryLink, Out, SessionEnd};
use game_sheet::{List, MatchName, NoMemory, Seat};
use link_rounds::DoorEnd;
use std::alloc::Global;
use std::sync::Wait;
use std::test::*;

/// A link that keeps back what it was sent, for so many looks after each send.
#[derive(Drop)]
struct Slow<L> {
    link: L,
    /// For how many looks it does.
    holds: u32,
    /// How many are left of them.
    left: u32,
    /// How often it was asked whether it is clear.
    looks: u32,
    /// Whether it was asked for a line while it kept bytes back.
    early: bool,
}

impl<L: Link> Link for Slow<L> {
    ghost use Rattle.std.specs.Prelude.{◌==◌};

    ghost answers = { λ l. L.answers l.link };

    ghost sent = { λ l. L.sent l.link };

    ghost faults = { λ l. L.faults l.link };

    ghost stage = { λ l. L.stage l.link };

    ghost limit = { λ l. L.limit l.link };

    ghost clear = { λ l. l.left == 0 };

    ghost finished = { λ l. L.finished l.link };

    ghost is_bot = { λ l. L.is_bot l.link };

    ghost bot_seat = { λ l. L.bot_seat l.link };

    ghost asked_out = { λ l. L.asked_out l.link };

    fn limit(&self) -> u32 {
        self.link.limit()
    }

    fn receive<R: Wait>(&mut self, rt: &R) -> Came {
        self.early = self.early || self.left > 0;
        self.link.receive(rt)
    }

    fn send<R: Wait>(&mut self, rt: &R, bytes: &[u8]) -> Out {
        self.left = self.holds;
        self.link.send(rt, bytes)
    }

    fn flush(&mut self) -> bool {
        self.looks = self.looks.saturating_add(1);
        self.left = self.left.saturating_sub(1);
        self.left == 0
    }

    fn finish(&mut self, end: SessionEnd) {
        self.link.finish(end);
    }

    fn bot_seat(&self) -> Option<(MatchName, Seat)> {
        self.link.bot_seat()
    }

    fn ask_out(&mut self) {
        self.link.ask_out();
    }
}

/// A link that says these lines, and keeps its answers back for so many looks each.
fn slowly(alloc: Global, lines: &[&[u8]], holds: u32) -> Result<Slow<MemoryLink>, NoMemory>
    ensures { IfOk result (λ l. IsFresh l.link.faults l.link.finished (Some l.link.answers) (Some l.link.sent)) }
{
    Ok(Slow {
        link: link(alloc, lines)?,
        holds,
        left: 0,
        looks: 0,
        early: false,
    })
}

/// A door of one link that keeps bytes back, and one that doesn't.
fn door(alloc: Global) -> Result<MemoryDoor<Slow<MemoryLink>>, NoMemory>
    ensures given { IfOk result (λ d. ⟦<MemoryDoor<Slow<MemoryLink>> as Door>⟧.given d ≡ 0) }
    ensures out { IfOk result (λ d. ⟦<MemoryDoor<Slow<MemoryLink>> as Door>⟧.out d ≡ 0) }
    ensures shut { IfOk result (λ d. ⟦<MemoryDoor<Slow<MemoryLink>> as Door>⟧.shut d ≡ false) }
    ensures returned { IfOk result (λ d. ⟦<MemoryDoor<Slow<MemoryLink>> as Door>⟧.returned d ≡ Some []) }
{
    let mut links = Vec::new(alloc);
    links.push(slowly(alloc, &[b"one", b"two", b"three"], 10)?)?;
    links.push(slowly(alloc, &[b"four", b"five"], 0)?)?;
    MemoryDoor::new(alloc, links, List::new(alloc))
}

/// Whether a link was sent what it said, and was asked for nothing while it kept bytes back.
fn is_served(link: &Slow<MemoryLink>, end: SessionEnd) -> bool {
    let sent = link.link.sent();
    let whole = if link.holds == 0 {
        sent == b"four\nfive\n".as_slice()
    } else {
        sent == b"one\ntwo\nthree\n".as_slice() && link.looks >= 30
    };
    end == SessionEnd::Ended && whole && !link.early
}

#[test]
fn a_link_that_keeps_bytes_back_gets_no_turn(rt: HostRuntime) -> Result<(), Fail> {
    let alloc = rt.alloc();
    let services: Vec<Echo> = echoes(alloc)?;
    let door = door(alloc)?;
    let (end, count, door) = serve(&rt, alloc, &(), services, Unmoved, Everyone, door)?;
    assert!(rt; end == DoorEnd::Done && count == 2);
    for (place, (link, end)) in door.ended().iter().enumerate() {
        assert!(rt; is_served(link, *end), "link {place}");
    }
    assert_eq!(rt; door.ended().len(), 2);
    Ok(())
}
