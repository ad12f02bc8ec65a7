//! What the workers of one door tell one another: which rooms have changed, who may take the next link, and how many links each has.

use game_sheet::NoMemory;
use mio::Waker;
use std::alloc::Global;
use std::sync::atomic::{AtomicBool, AtomicU64, Ordering};

/// A worker's bell: the rooms that others changed since it last looked, one bit each, whether it is to ask the door, how many links it has,
/// and what ends its wait.
#[derive(Drop)]
struct Bell {
    rooms: AtomicU64,
    door: AtomicBool,
    links: AtomicU64,
    waker: Waker,
}

impl Bell {
    /// Ends the worker's wait.
    fn wake(&self) {
        // A wake that fails finds no room for one more, so that one is under way.
        let _woken = self.waker.wake();
    }

    /// Has the worker ask the door.
    fn call(&self) {
        if !self.door.swap(true, Ordering::SeqCst) {
            self.wake();
        }
    }
}

/// The bells of all workers, and whether the door has no room for one more connection.
#[derive(Drop)]
pub(crate) struct Bells {
    bells: Vec<Bell>,
    full: AtomicBool,
}

/// What a worker was told since it last looked.
#[derive(Clone, Copy, PartialEq, Eq, Debug)]
pub(crate) struct Told {
    /// The rooms that others changed, one bit each.
    pub rooms: u64,
    /// Whether it is to ask the door.
    pub door: bool,
}

impl Bells {
    /// A bell for each of these wakers.
    pub(crate) fn new(alloc: Global, wakers: Vec<Waker>) -> Result<Bells, NoMemory> {
        let mut bells = Vec::with_capacity(alloc, wakers.len())?;
        for waker in wakers {
            bells.push(Bell {
                rooms: AtomicU64::new(0),
                door: AtomicBool::new(false),
                links: AtomicU64::new(0),
                waker,
            })?;
        }
        Ok(Bells {
            bells,
            full: AtomicBool::new(false),
        })
    }

    /// Tells every other worker that these rooms have changed. The change was made before, so whoever takes the bits afterwards finds it. A
    /// worker that hasn't taken bits of the same rooms yet was woken for them.
    pub(crate) fn ring(&self, me: usize, rooms: u64) {
        for at in 0..self.bells.len() {
            let bell = &self.bells[at];
            if at != me && bell.rooms.fetch_or(rooms, Ordering::SeqCst) & rooms != rooms {
                bell.wake();
            }
        }
    }

    /// What this worker was told, which is forgotten.
    pub(crate) fn taken(&self, me: usize) -> Told {
        match self.bells.get(me) {
            Some(bell) => Told {
                rooms: bell.rooms.swap(0, Ordering::SeqCst),
                door: bell.door.swap(false, Ordering::SeqCst),
            },
            None => Told {
                rooms: 0,
                door: false,
            },
        }
    }

    /// Has this worker ask the door.
    pub(crate) fn call(&self, worker: usize) {
        if let Some(bell) = self.bells.get(worker) {
            bell.call();
        }
    }

    /// Has every other worker ask the door.
    pub(crate) fn call_others(&self, me: usize) {
        for at in 0..self.bells.len() {
            if at != me {
                self.bells[at].call();
            }
        }
    }

    /// Says how many links this worker has; as many as can be where it has room for none.
    pub(crate) fn count(&self, me: usize, links: u64) {
        if let Some(bell) = self.bells.get(me) {
            bell.links.store(links, Ordering::SeqCst);
        }
    }

    /// A worker with the fewest links, where one has fewer than this many.
    pub(crate) fn with_fewer(&self, links: u64) -> Option<usize> {
        let mut fewest = links;
        let mut found = None;
        for at in 0..self.bells.len() {
            let count = self.bells[at].links.load(Ordering::SeqCst);
            if count < fewest {
                fewest = count;
                found = Some(at);
            }
        }
        found
    }

    /// Says whether the door has no room for one more connection.
    pub(crate) fn say_full(&self, full: bool) {
        self.full.store(full, Ordering::SeqCst);
    }

    /// Whether the door has no room for one more connection.
    pub(crate) fn is_full(&self) -> bool {
        self.full.load(Ordering::SeqCst)
    }
}
