//! The door under its lock, with the count of the links that it gave, and of those that are out, bots' and others.

ghost use Rattle.std.specs.Prelude.{◌≡◌, ◌+◌, ◌<◌, ◌≤◌, None, Some, false, true, is_some};
ghost use Rattle.board_links.specs.Doors.{IsOut, Shows, one_bot, one_other, sort_of};
ghost use Rattle.link_rounds.specs.Gate.{Ended, GateState, IsOver, TakesFresh, WereServed, takes_bot, takes_other};
ghost use Rattle.link_rounds.specs.Places.{Served, about};

use crate::service::Service;
use board_links::{Door, SessionEnd, Visit};
use std::marker::{Brand, Model, PhantomData};
use std::sync::Wait;
use std::sync::ledger::{Book, Ledger, Share};

/// How the serving of a door ended.
#[derive(Clone, Copy, PartialEq, Eq)]
pub enum DoorEnd {
    /// The door is shut, or gave its last session.
    Done,
    /// The door failed.
    DoorFault,
    /// There was no memory.
    NoMemory,
}

/// What a worker that asks for a link is given.
#[derive(Drop)]
pub enum Next<L> {
    /// A link.
    Came(L),
    /// No link yet.
    Quiet,
    /// No link is taken any more.
    Over,
}

/// One serving of a door: how many sessions it is for, how many faults the door had before, and how many links it held.
pub trait Shift: Ledger {
    ghost use Rattle.std.specs.Prelude.{ℕ, Option};

    /// How many sessions it is for.
    ghost sessions: { ℕ };

    /// How many faults the door had before.
    ghost faults: { ℕ };

    /// How many links the door held, where it told them.
    ghost held: { Option ℕ };
}

impl Shift for Brand {
    ghost use Rattle.std.specs.Prelude.{None};

    ghost sessions = { 0 };

    ghost faults = { 0 };

    ghost held = { None };
}

/// A door, and what is known of it: each link that it was given back was served by a service of this kind, and the witness was shown where its
/// session ended. `J` is the ledger of the links that are out and count as no bot's, `B` that of bots' links.
#[derive(Drop)]
pub struct Gate<S: Service, D: Door, J: Shift, B: Ledger> {
    service: PhantomData<S>,
    witness: S::Witness,
    door: D,
    links: Book<J>,
    bots: Book<B>,
    count: u64,
    sessions: u64,
    end: Option<DoorEnd>,
}

impl<S: Service, D: Door, J: Shift, B: Ledger> Model for Gate<S, D, J, B> {
    ghost use Rattle.std.specs.Prelude.{◌≡◌};
    ghost use Rattle.link_rounds.specs.Gate.{GateState, Counted, WereServed};

    ghost Value = { GateState };

    ghost view = { λ g. record { total = g.links.total; bots = g.bots.total; count = g.count; end = g.end } };

    ghost invariant = { λ g. Counted J.sessions J.faults J.held (D.given g.door) (D.out g.door) (D.bots_out g.door) (D.shut g.door) (D.faults g.door) (D.left g.door) g.links.total g.bots.total g.count g.sessions g.end
        × S.attends g.witness × WereServed S.turn S.leave S.rests (S.knows g.witness) (D.returned g.door) };
}

impl<S: Service, D: Door, J: Shift, B: Ledger> Gate<S, D, J, B> {
    /// A door that has given no link.
    pub fn new(
        witness: S::Witness,
        door: D,
        links: Book<J>,
        bots: Book<B>,
        sessions: u64,
    ) -> Gate<S, D, J, B>
        requires sessions { J.sessions ≡ sessions }
        requires faults { J.faults ≡ D.faults door }
        requires held { J.held ≡ D.left door }
        requires attends { S.attends witness }
        requires served { WereServed S.turn S.leave S.rests (S.knows witness) (D.returned door) }
        requires none { (D.given door ≡ 0) × (D.out door ≡ 0) × (D.bots_out door ≡ 0) × (D.shut door ≡ false) × (links.total ≡ 0) × (bots.total ≡ 0) }
        ensures { result ≡ record { total = 0; bots = 0; count = 0; end = None } }
    {
        Gate {
            service: PhantomData,
            witness,
            door,
            links,
            bots,
            count: 0,
            sessions,
            end: None,
        }
    }

    /// The next link, unless none came yet or there is none to be taken any more.
    pub fn take<R: Wait>(&mut self, rt: &R, mine: &mut Share<J>, bots: &mut Share<B>) -> Next<D::L>
        requires parts { (0 < mine.old.parts) × (0 < bots.old.parts) }
        ensures parts { (mine.new.parts ≡ mine.old.parts) × (bots.new.parts ≡ bots.old.parts) }
        ensures others { mine.new.amount ≡ mine.old.amount + takes_other D.has_bots D.L.Link.is_bot result }
        ensures bots { bots.new.amount ≡ bots.old.amount + takes_bot D.has_bots D.L.Link.is_bot result }
        ensures fresh { TakesFresh D.L.Link.faults D.L.Link.finished D.L.Link.answers D.L.Link.sent result }
        ensures over { IsOver result self.new.end }
        ensures stays { is_some self.old.end ≡ true → self.new ≡ self.old }
    {
        if self.end.is_some() {
            return Next::Over;
        }
        if self.count >= self.sessions {
            self.end = Some(DoorEnd::Done);
            return Next::Over;
        }
        self.accept(rt, mine, bots)
    }

    /// The link that the door gives; if it will give none any more, its answer is the end.
    fn accept<R: Wait>(&mut self, rt: &R, mine: &mut Share<J>, bots: &mut Share<B>) -> Next<D::L>
        requires parts { (0 < mine.old.parts) × (0 < bots.old.parts) }
        requires open { self.old.end ≡ None }
        requires more { self.old.count < J.sessions }
        ensures parts { (mine.new.parts ≡ mine.old.parts) × (bots.new.parts ≡ bots.old.parts) }
        ensures others { mine.new.amount ≡ mine.old.amount + takes_other D.has_bots D.L.Link.is_bot result }
        ensures bots { bots.new.amount ≡ bots.old.amount + takes_bot D.has_bots D.L.Link.is_bot result }
        ensures fresh { TakesFresh D.L.Link.faults D.L.Link.finished D.L.Link.answers D.L.Link.sent result }
        ensures over { IsOver result self.new.end }
    {
        match self.door.accept(rt) {
            Visit::Came(link) => {
                if self.door.is_bot(&link) {
                    self.bots.add(bots, 1);
                } else {
                    self.links.add(mine, 1);
                }
                self.count += 1;
                return Next::Came(link);
            }
            Visit::Quiet => return Next::Quiet,
            Visit::Shut => self.end = Some(DoorEnd::Done),
            Visit::Failed => self.end = Some(DoorEnd::DoorFault),
            Visit::NoMemory => self.end = Some(DoorEnd::NoMemory),
        }
        Next::Over
    }

    /// Takes back a link that this service served, and that was finished with this end. The witness is shown where the service stands.
    pub fn back<R: Wait>(
        &mut self,
        rt: &R,
        hall: &S::Hall,
        service: &mut S,
        mine: &mut Share<J>,
        bots: &mut Share<B>,
        link: D::L,
        end: SessionEnd,
    )
        requires fits { S.fits hall.now service.old }
        requires out { IsOut (sort_of D.has_bots D.L.Link.is_bot link) bots.old.amount mine.old.amount }
        requires shows { Shows end (D.L.Link.stage link) (D.L.Link.faults link) (D.L.Link.sent link) }
        requires finished { D.L.Link.finished link ≡ Some end }
        requires served { Served S.turn S.leave (about D.L.Link.answers D.L.Link.sent D.L.Link.faults D.L.Link.stage D.L.Link.clear D.L.Link.is_bot) S.rests service.old end link }
        ensures same { service.new ≡ service.old }
        ensures parts { (mine.new.parts ≡ mine.old.parts) × (bots.new.parts ≡ bots.old.parts) }
        ensures others { mine.new.amount + one_other (sort_of D.has_bots D.L.Link.is_bot link) ≡ mine.old.amount }
        ensures bots { bots.new.amount + one_bot (sort_of D.has_bots D.L.Link.is_bot link) ≡ bots.old.amount }
    {
        if self.door.is_bot(&link) {
            self.bots.audit(bots);
            self.bots.sub(bots, 1);
        } else {
            self.links.audit(mine);
            self.links.sub(mine, 1);
        }
        service.show(hall, &mut self.witness);
        self.door.back(rt, link, end);
    }

    /// The witness, the door, how its serving ended, and how many links it gave. All of them have come back.
    pub fn close(self, all: &mut Share<J>, bots: &mut Share<B>) -> (DoorEnd, u64, S::Witness, D)
        requires whole { (all.old.parts ≡ J.parts) × (bots.old.parts ≡ B.parts) }
        requires none_out { (all.old.amount ≡ 0) × (bots.old.amount ≡ 0) }
        ensures out { (D.out result.3 ≡ 0) × (D.bots_out result.3 ≡ 0) }
        ensures attends { S.attends result.2 }
        ensures served { WereServed S.turn S.leave S.rests (S.knows result.2) (D.returned result.3) }
        ensures given { D.given result.3 ≡ result.1 }
        ensures never_falls { J.faults ≤ D.faults result.3 }
        ensures ended { Ended J.sessions J.faults J.held (D.shut result.3) (D.faults result.3) result.1 (Some result.0) }
    {
        let Gate {
            service: _,
            witness,
            door,
            mut links,
            bots: mut bots_book,
            count,
            sessions: _,
            end,
        } = self;
        links.audit(all);
        bots_book.audit(bots);
        // Each worker has left, so there is an end.
        let end = match end {
            Some(end) => end,
            None => DoorEnd::NoMemory,
        };
        (end, count, witness, door)
    }
}
