//! A door in memory, which holds its links and takes them back.

ghost use Rattle.std.specs.Prelude.{◌≡◌, ◌-◌, ◌+◌, ◌≤◌, [], IfOk, All, false, Some, vec_len, vec_capacity};
ghost use Rattle.board_links.specs.Doors.{IsFresh};

use crate::door::{Door, Visit};
use crate::link::{Link, SessionEnd};
use game_sheet::{List, NoMemory};
use std::alloc::Global;
use std::sync::Wait;

/// A door in memory. Its calls of some numbers fail, counted from 1; the others give its links, the last first.
#[derive(Drop)]
pub struct MemoryDoor<L: Link> {
    start: usize,
    links: Vec<L>,
    ended: Vec<(L, SessionEnd)>,
    shut: bool,
    calls: u64,
    failing: List<u64>,
    faults: u64,
    ghost given: { vec_len links ≤ start },
    ghost out: { vec_len ended + vec_len links ≤ start },
    ghost room: { start ≤ vec_capacity ended },
    ghost fresh: { All (λ l. IsFresh (L.faults l) (L.finished l) (L.answers l) (L.sent l)) links.items },
}

impl<L: Link> MemoryDoor<L> {
    /// A door with these links, of which the last comes first.
    pub fn new(alloc: Global, links: Vec<L>, failing: List<u64>) -> Result<MemoryDoor<L>, NoMemory>
        requires { All (λ l. IsFresh (L.faults l) (L.finished l) (L.answers l) (L.sent l)) links.items }
        ensures given { IfOk result (λ d. ⟦<MemoryDoor<L> as Door>⟧.given d ≡ 0) }
        ensures out { IfOk result (λ d. ⟦<MemoryDoor<L> as Door>⟧.out d ≡ 0) }
        ensures shut { IfOk result (λ d. ⟦<MemoryDoor<L> as Door>⟧.shut d ≡ false) }
        ensures faults { IfOk result (λ d. ⟦<MemoryDoor<L> as Door>⟧.faults d ≡ 0) }
        ensures left { IfOk result (λ d. ⟦<MemoryDoor<L> as Door>⟧.left d ≡ Some (vec_len links)) }
        ensures returned { IfOk result (λ d. ⟦<MemoryDoor<L> as Door>⟧.returned d ≡ Some []) }
    {
        let start = links.len();
        let ended = Vec::with_capacity(alloc, start)?;
        Ok(MemoryDoor {
            start,
            links,
            ended,
            shut: false,
            calls: 0,
            failing,
            faults: 0,
        })
    }

    /// The links that came back, in the order in which they did, and how each session ended.
    pub fn ended(&self) -> &[(L, SessionEnd)]
        ensures { result.now ≡ self.now.ended.items }
    {
        self.ended.as_slice()
    }
}

impl<L: Link> Door for MemoryDoor<L> {
    ghost use Rattle.std.specs.Prelude.{◌≡◌, ◌≤◌, ◌+◌, ◌-◌, ◌++◌, ◌||◌, map, Some, false, vec_len};
    ghost use Rattle.board_links.specs.Doors.{came_back, ComesFresh, Lets, VisitRaises, fails, gives, gives_bot, gives_other, links_in, shuts, starves};
    ghost use Rattle.board_links.specs.Memory.{is_failing, next_count};

    type L = L;

    ghost given = { λ d. d.start - vec_len d.links };

    ghost out = { λ d. d.start - vec_len d.links - vec_len d.ended };

    ghost shut = { λ d. d.shut };

    ghost faults = { λ d. d.faults };

    ghost left = { λ d. Some (vec_len d.links) };

    ghost returned = { λ d. Some (map (λ p. came_back p.1 (L.answers p.0) (L.sent p.0)) d.ended.items) };

    fn accept<R: Wait>(&mut self, _rt: &R) -> Visit<L>
        ensures given { self.new.start - vec_len self.new.links ≡ self.old.start - vec_len self.old.links + gives result }
        ensures out { self.new.start - vec_len self.new.links - vec_len self.new.ended
            ≡ self.old.start - vec_len self.old.links - vec_len self.old.ended + gives_other false L.is_bot result }
        ensures bots_out { 0 ≡ 0 + gives_bot false L.is_bot result }
        ensures shut { self.new.shut ≡ (self.old.shut || shuts result) }
        ensures never_falls { self.old.faults ≤ self.new.faults }
        ensures raises { VisitRaises result self.old.faults self.new.faults }
        ensures fresh { ComesFresh L.faults L.finished L.answers L.sent result }
        ensures ended { self.new.ended ≡ self.old.ended }
        ensures told { Lets result (vec_len self.old.links) (Some (vec_len self.new.links)) }
        ensures fails { fails result ≡ is_failing self.old.failing (next_count self.old.calls) }
        ensures memory { starves result ≡ false }
        ensures counts { (self.new.calls ≡ next_count self.old.calls) × (self.new.failing ≡ self.old.failing) }
        ensures links { self.old.links.items ≡ self.new.links.items ++ links_in result }
    {
        self.calls = self.calls.saturating_add(1);
        if self.failing.as_slice().contains(&self.calls) {
            self.faults = self.faults.saturating_add(1);
            return Visit::Failed;
        }
        match self.links.pop() {
            Some(link) => Visit::Came(link),
            None => {
                self.shut = true;
                Visit::Shut
            }
        }
    }

    fn is_bot(&self, _link: &L) -> bool {
        false
    }

    fn back<R: Wait>(&mut self, _rt: &R, link: L, end: SessionEnd) {
        self.ended.push_reserved((link, end));
    }
}
