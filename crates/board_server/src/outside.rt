//! What the keeper of a server's rooms knows of the world: the system's clock, and who asks for the status.

use crate::asker::{Asker, Askers};
use crate::tally::Tally;
use game_sheet::NoMemory;
use room_keeper::{Outside, Request, RoomStatus, metrics_text, status_text};
use std::net::TcpListener;
use std::time::Instant;

/// Counts the seconds since it was made, by the clock that doesn't go back; and, where there is a listener, finds who asks there for the status.
#[derive(Drop)]
pub struct SystemOutside<'a> {
    rt: HostRuntime,
    begun: Option<Instant>,
    askers: Option<Askers>,
    tally: &'a Tally,
    bots: u8,
    /// Who was found asking, and for what.
    asker: Option<(Asker, Request)>,
}

/// The type of the status.
const JSON: &str = "application/json";

/// The type of the metrics.
const METRICS: &str = "text/plain; version=0.0.4";

impl<'a> SystemOutside<'a> {
    /// From now on, with this listener, which doesn't block. The status has what the tally counts, and so many bots.
    pub fn new(
        rt: HostRuntime,
        listener: Option<TcpListener>,
        tally: &'a Tally,
        bots: u8,
    ) -> SystemOutside<'a> {
        let begun = Instant::now(&rt).ok();
        let askers = match listener {
            Some(listener) => Some(Askers::new(rt, listener)),
            None => None,
        };
        SystemOutside {
            rt,
            begun,
            askers,
            tally,
            bots,
            asker: None,
        }
    }
}

impl<'a> Outside for SystemOutside<'a> {
    fn seconds(&mut self) -> Option<u64> {
        match (self.begun, Instant::now(&self.rt)) {
            (Some(begun), Ok(now)) => Some(now.duration_since(begun).as_secs()),
            _ => None,
        }
    }

    fn is_watched(&self) -> bool {
        self.askers.is_some()
    }

    fn asked(&mut self) -> bool {
        if let Some(askers) = &mut self.askers {
            self.asker = askers.next();
        }
        self.asker.is_some()
    }

    fn answer(&mut self, rooms: Result<&[RoomStatus], NoMemory>) {
        let Some((asker, request)) = self.asker.take() else {
            return;
        };
        let alloc = self.rt.alloc();
        let counts = self.tally.counts(self.bots);
        match (rooms, request) {
            (Ok(rooms), Request::Metrics) => {
                asker.tell(alloc, METRICS, metrics_text(alloc, rooms, counts));
            }
            (Ok(rooms), _) => asker.tell(alloc, JSON, status_text(alloc, rooms, counts)),
            (Err(NoMemory), _) => asker.tell(alloc, JSON, Err(NoMemory)),
        }
    }
}
