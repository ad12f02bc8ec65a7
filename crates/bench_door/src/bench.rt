//! A door that gives bots' links, and then those of another door.

ghost use Rattle.std.specs.Prelude.{◌≡◌, ◌+◌, ◌-◌, ◌≤◌, ◌<◌, ◌||◌, All, IsSome, false, true, vec_len, option_map, unwrap_or, reverse};
ghost use Rattle.board_links.specs.Doors.{ComesFresh, IsFresh, Lets, VisitRaises, gives, gives_bot, gives_other, shuts};
ghost use Rattle.bench_door.specs.Benches.{Gives, by_link};

use crate::bench_link::BenchLink;
use board_links::{Door, Link, SessionEnd, Visit};
use std::marker::{Brand, PhantomData};
use std::sync::Wait;

/// How many bots' links a bench had at first, which proofs alone see.
pub trait Seats {
    ghost use Rattle.std.specs.Prelude.{ℕ};

    /// How many.
    ghost seats: { ℕ };
}

impl Seats for Brand {
    ghost seats = { 0 };
}

/// A door that gives bots' links, and then those of another door, which has none. It had as many bots' links as `N` says.
#[derive(Drop)]
pub struct Bench<D: Door, B: Link, N: Seats> {
    door: D,
    start: usize,
    links: Vec<B>,
    came_back: usize,
    seats: PhantomData<N>,
    ghost plain: { D.has_bots ≡ false },
    ghost began: { start ≡ N.seats },
    ghost first: { 0 < vec_len links → D.given door ≡ 0 },
    ghost none: { D.bots_out door ≡ 0 },
    ghost given: { vec_len links + came_back ≤ start },
    ghost fresh: { All (λ l. IsFresh (B.faults l) (B.finished l) (B.answers l) (B.sent l)) links.items },
}

impl<D: Door, B: Link, N: Seats> Bench<D, B, N> {
    /// The door, which has given no link, with these bots' links, which it gives in their order. It takes no memory.
    #[tactic(auto, using(crate::proofs::Reversed::all_reverse))]
    pub fn new(door: D, links: Vec<B>) -> Bench<D, B, N>
        requires plain { D.has_bots ≡ false }
        requires seats { N.seats ≡ vec_len links }
        requires first { D.given door ≡ 0 }
        requires none { D.bots_out door ≡ 0 }
        requires fresh { All (λ l. IsFresh (B.faults l) (B.finished l) (B.answers l) (B.sent l)) links.items }
        ensures door { result.door ≡ door }
        ensures links { result.links.items ≡ reverse links.items }
        ensures given { ⟦<Bench<D, B, N> as Door>⟧.given result ≡ D.given door }
        ensures out { ⟦<Bench<D, B, N> as Door>⟧.out result ≡ D.out door }
        ensures bots_out { ⟦<Bench<D, B, N> as Door>⟧.bots_out result ≡ 0 }
        ensures shut { ⟦<Bench<D, B, N> as Door>⟧.shut result ≡ D.shut door }
        ensures faults { ⟦<Bench<D, B, N> as Door>⟧.faults result ≡ D.faults door }
        ensures left { ⟦<Bench<D, B, N> as Door>⟧.left result ≡ option_map (λ n. n + vec_len links) (D.left door) }
    {
        let start = links.len();
        let mut links = links;
        links.reverse();
        Bench {
            door,
            start,
            links,
            came_back: 0,
            seats: PhantomData,
        }
    }

    /// The door back. Bots' links that it didn't give are dropped with their bots.
    pub fn into_door(self) -> D
        ensures { result ≡ self.door }
    {
        let Bench {
            door,
            start: _,
            links,
            came_back: _,
            seats: _,
        } = self;
        drop(links);
        door
    }
}

impl<D: Door, B: Link, N: Seats> Door for Bench<D, B, N> {
    ghost use Rattle.std.specs.Prelude.{◌+◌, ◌-◌, true, vec_len, option_map, None};

    type L = BenchLink<D::L, B>;

    ghost given = { λ d. d.start - vec_len d.links + D.given d.door };

    ghost has_bots = { true };

    ghost out = { λ d. D.out d.door };

    ghost bots_out = { λ d. d.start - vec_len d.links - d.came_back };

    ghost shut = { λ d. D.shut d.door };

    ghost faults = { λ d. D.faults d.door };

    ghost left = { λ d. option_map (λ n. n + vec_len d.links) (D.left d.door) };

    ghost returned = { λ _. None };

    fn accept<R: Wait>(&mut self, rt: &R) -> Visit<BenchLink<D::L, B>>
        ensures given { self.new.start - vec_len self.new.links + D.given self.new.door
            ≡ self.old.start - vec_len self.old.links + D.given self.old.door + gives result }
        ensures out { D.out self.new.door ≡ D.out self.old.door + gives_other true (by_link (λ _. true) (λ _. false)) result }
        ensures bots_out { self.new.start - vec_len self.new.links - self.new.came_back
            ≡ self.old.start - vec_len self.old.links - self.old.came_back + gives_bot true (by_link (λ _. true) (λ _. false)) result }
        ensures shut { D.shut self.new.door ≡ (D.shut self.old.door || shuts result) }
        ensures never_falls { D.faults self.old.door ≤ D.faults self.new.door }
        ensures raises { VisitRaises result (D.faults self.old.door) (D.faults self.new.door) }
        ensures fresh { ComesFresh (by_link B.faults D.L.Link.faults) (by_link B.finished D.L.Link.finished)
            (by_link B.answers D.L.Link.answers) (by_link B.sent D.L.Link.sent) result }
        ensures told { IsSome (option_map (λ n. n + vec_len self.old.links) (D.left self.old.door))
            → Lets result (unwrap_or (option_map (λ n. n + vec_len self.old.links) (D.left self.old.door)) 0)
            (option_map (λ n. n + vec_len self.new.links) (D.left self.new.door)) }
        ensures bots_first { Gives result self.old.links.items self.new.links.items self.old.door self.new.door }
    {
        if let Some(link) = self.links.pop() {
            return Visit::Came(BenchLink::Bot(link));
        }
        match self.door.accept(rt) {
            Visit::Came(link) => Visit::Came(BenchLink::Other(link)),
            Visit::Shut => Visit::Shut,
            Visit::Quiet => Visit::Quiet,
            Visit::Failed => Visit::Failed,
            Visit::NoMemory => Visit::NoMemory,
        }
    }

    fn is_bot(&self, link: &BenchLink<D::L, B>) -> bool {
        match link {
            BenchLink::Bot(_) => true,
            BenchLink::Other(_) => false,
        }
    }

    fn back<R: Wait>(&mut self, rt: &R, link: BenchLink<D::L, B>, end: SessionEnd) {
        match link {
            BenchLink::Bot(link) => {
                drop(link);
                self.came_back += 1;
            }
            BenchLink::Other(link) => self.door.back(rt, link, end),
        }
    }
}
