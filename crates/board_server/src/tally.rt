//! What is counted of a door's links.

use board_links::SessionEnd;
use game_sheet::Bye;
use room_keeper::{Counts, Ends};
use std::sync::atomic::{AtomicBool, AtomicU64, Ordering};

/// What is counted of a door's links. Each worker writes it, and the keeper reads it.
#[derive(Drop)]
pub struct Tally {
    closed: AtomicBool,
    links: AtomicU64,
    ended: AtomicU64,
    left: AtomicU64,
    lagging: AtomicU64,
    too_long: AtomicU64,
    faults: AtomicU64,
    starved: AtomicU64,
    lines: AtomicU64,
    received: AtomicU64,
    sent: AtomicU64,
}

impl Tally {
    /// Of a door that has given no link.
    pub fn new() -> Tally {
        Tally {
            closed: AtomicBool::new(false),
            links: AtomicU64::new(0),
            ended: AtomicU64::new(0),
            left: AtomicU64::new(0),
            lagging: AtomicU64::new(0),
            too_long: AtomicU64::new(0),
            faults: AtomicU64::new(0),
            starved: AtomicU64::new(0),
            lines: AtomicU64::new(0),
            received: AtomicU64::new(0),
            sent: AtomicU64::new(0),
        }
    }

    /// What was counted, beside so many bots. It is read one after another while workers go on.
    pub fn counts(&self, bots: u8) -> Counts {
        Counts {
            open: !self.closed.load(Ordering::SeqCst),
            links: self.links.load(Ordering::SeqCst),
            bots: u64::from(bots),
            ends: self.ends(),
            lines: self.lines.load(Ordering::SeqCst),
            received: self.received.load(Ordering::SeqCst),
            sent: self.sent.load(Ordering::SeqCst),
        }
    }

    /// How sessions have ended.
    fn ends(&self) -> Ends {
        Ends {
            ended: self.ended.load(Ordering::SeqCst),
            left: self.left.load(Ordering::SeqCst),
            lagging: self.lagging.load(Ordering::SeqCst),
            too_long: self.too_long.load(Ordering::SeqCst),
            faults: self.faults.load(Ordering::SeqCst),
            starved: self.starved.load(Ordering::SeqCst),
        }
    }

    /// No link is taken any more.
    pub fn closed(&self) {
        self.closed.store(true, Ordering::SeqCst);
    }

    /// A link came.
    pub fn came(&self) {
        self.links.fetch_add(1, Ordering::SeqCst);
    }

    /// A link went back, whose session ended so.
    pub fn went(&self, end: SessionEnd) {
        let count = match end {
            SessionEnd::Ended => &self.ended,
            SessionEnd::Bye(Bye::Left) => &self.left,
            SessionEnd::Bye(Bye::Lagging) => &self.lagging,
            SessionEnd::TooLong => &self.too_long,
            SessionEnd::LinkFault => &self.faults,
            SessionEnd::NoMemory => &self.starved,
        };
        count.fetch_add(1, Ordering::SeqCst);
        self.links.fetch_sub(1, Ordering::SeqCst);
    }

    /// A line came, of so many bytes with its newline.
    pub fn received(&self, bytes: u64) {
        self.lines.fetch_add(1, Ordering::SeqCst);
        self.received.fetch_add(bytes, Ordering::SeqCst);
    }

    /// So many bytes of lines were sent.
    pub fn sent(&self, bytes: u64) {
        self.sent.fetch_add(bytes, Ordering::SeqCst);
    }
}
