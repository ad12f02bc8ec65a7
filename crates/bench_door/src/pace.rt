//! How fast the bots of a server play: what its workers share of that, and where each bot stands.

use std::sync::atomic::{AtomicBool, AtomicU64, Ordering};

/// How many times its pace a bot is made to wait at most, however often its room changes meanwhile.
const LONGEST: u16 = 20;

/// How fast the bots of a server play, all in one room. Its workers share it.
#[derive(Drop)]
pub struct Pace {
    seconds: u8,
    room: u8,
    /// Whether somebody has connected, or nobody can any more.
    met: AtomicBool,
    /// How often the room may have changed.
    changes: AtomicU64,
    /// How often a bot that had waited took turns.
    turns: AtomicU64,
}

impl Pace {
    /// For bots that play in this room, and let about so many seconds pass between what they were told last and their answer. Where these are
    /// none they answer at once.
    pub fn new(seconds: u8, room: u8) -> Pace {
        Pace {
            seconds,
            room,
            met: AtomicBool::new(false),
            changes: AtomicU64::new(0),
            turns: AtomicU64::new(0),
        }
    }

    /// Whether bots wait at all.
    pub(crate) fn is_any(&self) -> bool {
        self.seconds > 0
    }

    /// Somebody has connected, or nobody can any more: bots go on from now on.
    pub(crate) fn meet(&self) {
        self.met.store(true, Ordering::SeqCst);
    }

    /// These rooms may have changed, one bit each.
    pub(crate) fn note(&self, rooms: u64) {
        let room = 1u64.checked_shl(u32::from(self.room)).unwrap_or(0);
        if rooms & room != 0 {
            self.changes.fetch_add(1, Ordering::SeqCst);
        }
    }
}

/// A bot at a place of a worker, and where it stands.
#[derive(Clone, Copy)]
pub(crate) struct BotPlace {
    /// The number of its place.
    pub number: u32,
    /// How many of its first two turns it had.
    turns: u8,
    /// How many times more it is passed over; 0 where it isn't made to wait.
    left: u8,
    /// How many times it was passed over since its last turn.
    passes: u16,
    /// How often its room had changed when it was last named.
    seen: u64,
    /// How often bots had taken turns then.
    taken: u64,
}

impl BotPlace {
    /// A bot that came to this place.
    pub fn new(number: u32) -> BotPlace {
        BotPlace {
            number,
            turns: 0,
            left: 0,
            passes: 0,
            seen: 0,
            taken: 0,
        }
    }

    /// Whether it gets turns now that it is named, about once a second; else it is passed over. It joins at once, and goes on once somebody has
    /// connected. A change of its room has it wait anew.
    pub fn begins(&mut self, pace: &Pace) -> bool {
        if self.turns == 0 {
            self.turns = 1;
            return true;
        }
        if !pace.met.load(Ordering::SeqCst) {
            return false;
        }
        let left = self.next(pace);
        self.left = if left == 0 && !self.takes(pace) {
            1
        } else {
            left
        };
        self.taken = pace.turns.load(Ordering::SeqCst);
        self.passes = if self.left == 0 {
            0
        } else {
            self.passes.saturating_add(1)
        };
        self.left == 0
    }

    /// How many times more it is to be passed over from now on. Where it waits already it is named again at any moment, so that one of these times
    /// doesn't count.
    fn next(&mut self, pace: &Pace) -> u8 {
        let changes = pace.changes.load(Ordering::SeqCst);
        let changed = changes != self.seen;
        self.seen = changes;
        if self.left == 0 {
            pace.seconds
        } else if changed && self.passes < LONGEST.saturating_mul(u16::from(pace.seconds)) {
            pace.seconds.saturating_add(1)
        } else {
            self.left.saturating_sub(1)
        }
    }

    /// Takes its turns, unless another bot took some since it was last named: two of them at the same time could answer one another at once.
    fn takes(&self, pace: &Pace) -> bool {
        let next = self.taken.saturating_add(1);
        pace.turns
            .compare_exchange(self.taken, next, Ordering::SeqCst, Ordering::SeqCst)
            .is_ok()
    }

    /// Whether it gets the second of two turns. It asks for its stream at once; later it is named anew where its room has changed.
    pub fn goes_on(&mut self, pace: &Pace) -> bool {
        if self.turns < 2 {
            self.turns = 2;
            return true;
        }
        pace.changes.load(Ordering::SeqCst) == self.seen
    }
}
