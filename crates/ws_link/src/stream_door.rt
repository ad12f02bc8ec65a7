//! Where streams come in, and a door that gives each of them as a link.

ghost use Rattle.std.specs.Prelude.{◌≡◌, ◌+◌, ◌≤◌, ◌||◌, IsSome, unwrap_or};

use crate::ws_link::WsLink;
use board_links::{Door, SessionEnd, Visit};
use game_sheet::{NoMemory, Text};
use page_files::Pages;
use std::alloc::Global;
use std::io::{Read, Write};
use std::sync::{Arc, Wait};

/// Where streams come in.
pub trait StreamDoor: Drop {
    ghost use Rattle.std.specs.Prelude.{ℕ, Option, Bool};
    ghost use Rattle.board_links.specs.Doors.{gives, shuts, VisitRaises, Lets};

    /// What comes in.
    type T: Read + Write + Drop;

    /// How many streams it has given.
    ghost given: { Self → ℕ };

    /// Whether it has answered `Shut`.
    ghost shut: { Self → Bool };

    /// How many of its calls have failed.
    ghost faults: { Self → ℕ };

    /// How many streams are left, where the door tells it.
    ghost left: { Self → Option ℕ };

    /// The next stream.
    fn accept<R: Wait>(&mut self, rt: &R) -> Visit<Self::T>
        ensures given { given self.new ≡ given self.old + gives result }
        ensures shut { shut self.new ≡ (shut self.old || shuts result) }
        ensures never_falls { faults self.old ≤ faults self.new }
        ensures raises { VisitRaises result (faults self.old) (faults self.new) }
        ensures told { IsSome (left self.old) → Lets result (unwrap_or (left self.old) 0) (left self.new) };
}

/// A door that gives each stream as a link which makes the handshake in its first call.
#[derive(Drop)]
pub struct WsDoor<D> {
    alloc: Global,
    door: D,
    /// The only origin of a page that is taken, if there is one.
    origin: Option<Arc<Text, Global>>,
    /// The files that are handed out to browsers, if there are some.
    pages: Option<Arc<Pages, Global>>,
    out: u64,
}

impl<D: StreamDoor> WsDoor<D> {
    /// A door over this one, of which no link is out.
    pub fn new(alloc: Global, door: D) -> WsDoor<D>
        ensures given { ⟦<WsDoor<D> as Door>⟧.given result ≡ D.given door }
        ensures out { ⟦<WsDoor<D> as Door>⟧.out result ≡ 0 }
        ensures bots_out { ⟦<WsDoor<D> as Door>⟧.bots_out result ≡ 0 }
        ensures shut { ⟦<WsDoor<D> as Door>⟧.shut result ≡ D.shut door }
        ensures faults { ⟦<WsDoor<D> as Door>⟧.faults result ≡ D.faults door }
        ensures left { ⟦<WsDoor<D> as Door>⟧.left result ≡ D.left door }
    {
        WsDoor::from(alloc, door, None)
    }

    /// The same, where a peer that names the origin of a page has to name this one, if one is said.
    pub fn from(alloc: Global, door: D, origin: Option<Arc<Text, Global>>) -> WsDoor<D>
        ensures given { ⟦<WsDoor<D> as Door>⟧.given result ≡ D.given door }
        ensures out { ⟦<WsDoor<D> as Door>⟧.out result ≡ 0 }
        ensures bots_out { ⟦<WsDoor<D> as Door>⟧.bots_out result ≡ 0 }
        ensures shut { ⟦<WsDoor<D> as Door>⟧.shut result ≡ D.shut door }
        ensures faults { ⟦<WsDoor<D> as Door>⟧.faults result ≡ D.faults door }
        ensures left { ⟦<WsDoor<D> as Door>⟧.left result ≡ D.left door }
    {
        WsDoor::with_pages(alloc, door, origin, None)
    }

    /// The same, where a head that asks for no WebSocket is answered by these pages, if there are some.
    pub fn with_pages(
        alloc: Global,
        door: D,
        origin: Option<Arc<Text, Global>>,
        pages: Option<Arc<Pages, Global>>,
    ) -> WsDoor<D>
        ensures given { ⟦<WsDoor<D> as Door>⟧.given result ≡ D.given door }
        ensures out { ⟦<WsDoor<D> as Door>⟧.out result ≡ 0 }
        ensures bots_out { ⟦<WsDoor<D> as Door>⟧.bots_out result ≡ 0 }
        ensures shut { ⟦<WsDoor<D> as Door>⟧.shut result ≡ D.shut door }
        ensures faults { ⟦<WsDoor<D> as Door>⟧.faults result ≡ D.faults door }
        ensures left { ⟦<WsDoor<D> as Door>⟧.left result ≡ D.left door }
    {
        WsDoor {
            alloc,
            door,
            origin,
            pages,
            out: 0,
        }
    }

    /// The only origin that is taken, for one more link.
    fn origin(&self) -> Result<Option<Arc<Text, Global>>, NoMemory> {
        match &self.origin {
            Some(origin) => Ok(Some(Arc::try_clone(origin)?)),
            None => Ok(None),
        }
    }

    /// The files, for one more link.
    fn pages(&self) -> Result<Option<Arc<Pages, Global>>, NoMemory> {
        match &self.pages {
            Some(pages) => Ok(Some(Arc::try_clone(pages)?)),
            None => Ok(None),
        }
    }
}

impl<D: StreamDoor> Door for WsDoor<D> {
    ghost use Rattle.std.specs.Prelude.{None};

    type L = WsLink<D::T>;

    ghost given = { λ d. D.given d.door };

    ghost out = { λ d. d.out };

    ghost shut = { λ d. D.shut d.door };

    ghost faults = { λ d. D.faults d.door };

    ghost left = { λ d. D.left d.door };

    ghost returned = { λ _. None };

    fn accept<R: Wait>(&mut self, rt: &R) -> Visit<WsLink<D::T>> {
        if self.out == u64::MAX {
            return Visit::NoMemory;
        }
        let Ok(origin) = self.origin() else {
            return Visit::NoMemory;
        };
        let Ok(pages) = self.pages() else {
            return Visit::NoMemory;
        };
        match self.door.accept(rt) {
            Visit::Came(stream) => {
                self.out += 1;
                Visit::Came(WsLink::greet_with(self.alloc, stream, origin, pages))
            }
            Visit::Quiet => Visit::Quiet,
            Visit::Shut => Visit::Shut,
            Visit::Failed => Visit::Failed,
            Visit::NoMemory => Visit::NoMemory,
        }
    }

    fn is_bot(&self, _link: &WsLink<D::T>) -> bool {
        false
    }

    fn back<R: Wait>(&mut self, _rt: &R, _link: WsLink<D::T>, _end: SessionEnd) {
        self.out -= 1;
    }
}
