//! What a room shows of itself to whoever looks from outside, without a call. No clause speaks of it.

use game_sheet::Number;
use room_history::RoomReply;
use std::sync::atomic::{AtomicBool, AtomicU32, AtomicU64, Ordering};

/// What a room shows of itself. Its room alone writes it, and any thread may read it.
#[derive(Drop)]
pub struct Gauge {
    serial: AtomicU64,
    matches: AtomicU64,
    number: AtomicU32,
    stopped: AtomicBool,
    attached: AtomicU64,
    attaches: AtomicU64,
}

/// What a gauge showed.
#[derive(Clone, Copy)]
pub struct Seen {
    /// The serial of the match that stands, from 1; 0 where none does, or the room has stopped.
    pub serial: u64,
    /// How many matches the room has had.
    pub matches: u64,
    /// The state number of the match that stands; 0 where none does.
    pub number: Number,
    /// Whether the room has stopped for good.
    pub stopped: bool,
    /// How many sessions are attached.
    pub attached: u64,
    /// How many sessions were ever attached.
    pub attaches: u64,
}

impl Gauge {
    /// Of a room that has had no match, to which no session was ever attached.
    pub fn new() -> Gauge {
        Gauge {
            serial: AtomicU64::new(0),
            matches: AtomicU64::new(0),
            number: AtomicU32::new(0),
            stopped: AtomicBool::new(false),
            attached: AtomicU64::new(0),
            attaches: AtomicU64::new(0),
        }
    }

    /// What it shows. It is read one after another, so a call that is made meanwhile may show in a part of it alone.
    pub fn seen(&self) -> Seen {
        Seen {
            serial: self.serial(),
            matches: self.matches.load(Ordering::SeqCst),
            number: self.number.load(Ordering::SeqCst),
            stopped: self.stopped.load(Ordering::SeqCst),
            attached: self.attached(),
            attaches: self.attaches(),
        }
    }

    /// The serial of the match that stands, from 1; 0 where none does, or the room has stopped.
    pub fn serial(&self) -> u64 {
        self.serial.load(Ordering::SeqCst)
    }

    /// How many sessions are attached.
    pub fn attached(&self) -> u64 {
        self.attached.load(Ordering::SeqCst)
    }

    /// How many sessions were ever attached.
    pub fn attaches(&self) -> u64 {
        self.attaches.load(Ordering::SeqCst)
    }

    /// Shows what a reply of the room did to its sessions. It is for who makes the room's calls, one at a time.
    pub fn count(&self, reply: &RoomReply) {
        match reply {
            RoomReply::Attached => self.add_session(),
            RoomReply::Detached | RoomReply::Taken { end: Some(_), .. } => self.end_session(),
            _ => {}
        }
    }

    fn add_session(&self) {
        self.attached
            .store(self.attached().saturating_add(1), Ordering::SeqCst);
        self.attaches
            .store(self.attaches().saturating_add(1), Ordering::SeqCst);
    }

    fn end_session(&self) {
        self.attached
            .store(self.attached().saturating_sub(1), Ordering::SeqCst);
    }

    /// Shows how many matches there were and the state number of the one that stands, by the room's row after a call.
    pub fn show(&self, row: Option<(u64, Option<Number>)>) {
        match row {
            Some((serial, number)) => {
                let stands = if number.is_some() { serial } else { 0 };
                self.matches.store(serial, Ordering::SeqCst);
                self.number.store(number.unwrap_or(0), Ordering::SeqCst);
                self.serial.store(stands, Ordering::SeqCst);
            }
            None => {
                self.stopped.store(true, Ordering::SeqCst);
                self.serial.store(0, Ordering::SeqCst);
            }
        }
    }
}
