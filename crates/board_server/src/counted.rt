//! A door that says where it listens once it is asked for a link, says at once when it fails, and counts its links and what goes over them.

ghost use Rattle.std.specs.Prelude.{◌≡◌};

use crate::tally::Tally;
use board_links::{Came, Door, Link, Out, SessionEnd, Visit};
use game_sheet::{Bytes, MatchName, Seat};
use mio::Registry;
use poll_links::{Looks, Watched};
use std::net::SocketAddr;
use std::sync::Wait;

/// Where a server listens, as far as the system says it.
#[derive(Clone, Copy)]
pub struct Addresses {
    /// For the sessions.
    pub door: Option<SocketAddr>,
    /// For who asks for the status, if that may be asked for.
    pub status: Option<SocketAddr>,
}

/// Says on standard error where the server listens, unless that was said. A line that can't be written is lost.
fn announce(rt: &HostRuntime, unsaid: Option<Addresses>) {
    let Some(addresses) = unsaid else {
        return;
    };
    if let Some(addr) = addresses.door {
        let _said = eprintln!(rt; "listening on {addr}");
    }
    if let Some(addr) = addresses.status {
        let _said = eprintln!(rt; "status on {addr}");
    }
}

/// What is noted of a door: where it listens, and what is counted of its links, if that is counted.
#[derive(Clone, Copy)]
pub struct Notes<'a> {
    /// Where it listens.
    pub addresses: Addresses,
    /// What counts its links, if they are counted.
    pub tally: Option<&'a Tally>,
}

/// A door that says on standard error where it listens when it is first asked for a link, since the rooms are there then and the workers stand; says
/// there when it fails; and counts its links and what goes over them, where there is a tally. In all else it is the door within. The sessions that go
/// on when it fails may last for hours, and the program tells how it ended only then.
#[derive(Drop)]
pub struct CountedDoor<'a, D: Door> {
    rt: HostRuntime,
    door: D,
    /// Where it listens, until that is said.
    unsaid: Option<Addresses>,
    tally: Option<&'a Tally>,
}

impl<'a, D: Door> CountedDoor<'a, D> {
    /// Over this door, which has given no link.
    pub fn new(rt: HostRuntime, door: D, notes: Notes<'a>) -> CountedDoor<'a, D>
        ensures { result.door ≡ door }
    {
        CountedDoor {
            rt,
            door,
            unsaid: Some(notes.addresses),
            tally: notes.tally,
        }
    }
}

impl<'a, D: Door> Door for CountedDoor<'a, D> {
    type L = CountedLink<'a, D::L>;

    ghost given = { λ d. D.given d.door };

    ghost has_bots = { D.has_bots };

    ghost out = { λ d. D.out d.door };

    ghost bots_out = { λ d. D.bots_out d.door };

    ghost shut = { λ d. D.shut d.door };

    ghost faults = { λ d. D.faults d.door };

    ghost left = { λ d. D.left d.door };

    ghost returned = { λ d. D.returned d.door };

    fn accept<R: Wait>(&mut self, rt: &R) -> Visit<CountedLink<'a, D::L>> {
        announce(&self.rt, self.unsaid.take());
        match self.door.accept(rt) {
            Visit::Came(link) => {
                if let Some(tally) = self.tally {
                    tally.came();
                }
                Visit::Came(CountedLink {
                    link,
                    tally: self.tally,
                })
            }
            Visit::Quiet => Visit::Quiet,
            Visit::Shut => Visit::Shut,
            Visit::Failed => {
                if let Some(tally) = self.tally {
                    tally.closed();
                }
                // A line that can't be written is lost; the program's end says the same.
                let _said = eprintln!(self.rt; "no more connections are taken");
                Visit::Failed
            }
            Visit::NoMemory => Visit::NoMemory,
        }
    }

    fn is_bot(&self, link: &CountedLink<'a, D::L>) -> bool {
        self.door.is_bot(&link.link)
    }

    fn back<R: Wait>(&mut self, rt: &R, link: CountedLink<'a, D::L>, end: SessionEnd) {
        if let Some(tally) = self.tally {
            tally.went(end);
        }
        let CountedLink { link, tally: _ } = link;
        self.door.back(rt, link, end);
    }
}

/// A link over which bytes are counted, where there is a tally. In all else it is the link within.
#[derive(Drop)]
pub struct CountedLink<'a, L: Link> {
    link: L,
    tally: Option<&'a Tally>,
}

impl<'a, L: Link> Link for CountedLink<'a, L> {
    ghost answers = { λ l. L.answers l.link };

    ghost sent = { λ l. L.sent l.link };

    ghost faults = { λ l. L.faults l.link };

    ghost stage = { λ l. L.stage l.link };

    ghost limit = { λ l. L.limit l.link };

    ghost clear = { λ l. L.clear l.link };

    ghost finished = { λ l. L.finished l.link };

    ghost is_bot = { λ l. L.is_bot l.link };

    ghost bot_seat = { λ l. L.bot_seat l.link };

    ghost asked_out = { λ l. L.asked_out l.link };

    fn limit(&self) -> u32 {
        self.link.limit()
    }

    fn receive<R: Wait>(&mut self, rt: &R) -> Came {
        let came = self.link.receive(rt);
        if let (Some(tally), Came::Line(line)) = (self.tally, &came) {
            tally.received(length_of(line).saturating_add(1));
        }
        came
    }

    fn send<R: Wait>(&mut self, rt: &R, bytes: &[u8]) -> Out {
        let out = self.link.send(rt, bytes);
        if let (Some(tally), Out::Done) = (self.tally, out) {
            tally.sent(bytes.len() as u64);
        }
        out
    }

    fn flush(&mut self) -> bool {
        self.link.flush()
    }

    fn finish(&mut self, end: SessionEnd) {
        self.link.finish(end);
    }

    fn bot_seat(&self) -> Option<(MatchName, Seat)> {
        self.link.bot_seat()
    }

    fn ask_out(&mut self) {
        self.link.ask_out();
    }
}

/// How many bytes a line has. One that came over a socket stands in one slice; others don't count.
fn length_of(line: &Bytes) -> u64 {
    match line.whole() {
        Some(bytes) => bytes.len() as u64,
        None => 0,
    }
}

impl<'a, L: Watched> Watched for CountedLink<'a, L> {
    fn watch(&mut self, registry: &Registry, number: u32) {
        self.link.watch(registry, number);
    }

    fn looks(&self) -> Looks {
        self.link.looks()
    }
}
