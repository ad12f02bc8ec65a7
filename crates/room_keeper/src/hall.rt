//! A keeper that looks at what the rooms show of themselves: it has matches cleared in which nobody was attached for long, and tells who asks from
//! outside what goes on in the rooms.

use crate::gauge::{Gauge, Seen};
use crate::keeper::{Errand, Keeper};
use crate::outside::Outside;
use crate::status::RoomStatus;
use game_sheet::NoMemory;
use room_history::RoomReply;
use std::alloc::Global;
use std::mem;
use std::sync::Arc;

/// A room that is watched: the match that stood and how many sessions had ever been attached when it was looked at last, and since when it was
/// found alone; none where it wasn't then.
#[derive(Drop)]
struct Watched {
    gauge: Arc<Gauge, Global>,
    serial: u64,
    attaches: u64,
    since: Option<u64>,
}

impl Watched {
    /// A room at which nobody has looked yet.
    fn new(gauge: Arc<Gauge, Global>) -> Watched {
        Watched {
            gauge,
            serial: 0,
            attaches: 0,
            since: None,
        }
    }

    /// The serial of the room's match, if it was left alone for so many seconds until now. From then on its time runs anew.
    fn left_alone(&mut self, now: u64, limit: u64) -> Option<u64> {
        let seen = self.gauge.seen();
        let same = seen.serial == self.serial && seen.attaches == self.attaches;
        self.serial = seen.serial;
        self.attaches = seen.attaches;
        if seen.serial == 0 || seen.attached > 0 {
            self.since = None;
            return None;
        }
        let since = if same { self.since.unwrap_or(now) } else { now };
        self.since = Some(since);
        if now.saturating_sub(since) < limit {
            return None;
        }
        self.since = Some(now);
        Some(seen.serial)
    }
}

/// Has each match cleared once nobody was attached to its room for so many seconds, as far as it can tell: it looks when it is asked, so the time
/// begins with the first look after the last session left, and a session that comes and goes between two looks has it begin anew. A match that was
/// named is named again if it still stands after the same time. Where the clock says nothing, no match is cleared.
///
/// Where somebody asks for the status, it looks at each room in which a match stands, one after another, and answers then.
#[derive(Drop)]
pub struct HallKeeper<C: Outside> {
    alloc: Global,
    rooms: Vec<Watched>,
    /// For how many seconds a match may be left alone, if there is a limit.
    limit: Option<u64>,
    outside: C,
    /// Whether somebody asked, and wasn't answered yet.
    asked: bool,
    /// The status of the first rooms, for who asked.
    told: Vec<RoomStatus>,
    /// Whether the reply is still to come to a look at the room after these.
    looks: bool,
    /// Whether there was no memory for a room's status.
    starved: bool,
}

impl<C: Outside> HallKeeper<C> {
    /// For the rooms of these gauges, in the order of the rooms, and a limit in seconds, if matches are to be cleared. At most 255 rooms are watched
    /// for that, the first ones.
    pub fn new(
        alloc: Global,
        gauges: Vec<Arc<Gauge, Global>>,
        limit: Option<u64>,
        outside: C,
    ) -> Result<HallKeeper<C>, NoMemory> {
        let Ok(told) = Vec::with_capacity(alloc, gauges.len()) else {
            drop(gauges);
            drop(outside);
            return Err(NoMemory);
        };
        let Ok(mut rooms) = Vec::with_capacity(alloc, gauges.len()) else {
            drop(told);
            drop(gauges);
            drop(outside);
            return Err(NoMemory);
        };
        for gauge in gauges {
            rooms.push(Watched::new(gauge))?;
        }
        Ok(HallKeeper {
            alloc,
            rooms,
            limit,
            outside,
            asked: false,
            told,
            looks: false,
            starved: false,
        })
    }

    /// A match that was left alone for too long.
    fn next_clear(&mut self) -> Option<Errand> {
        let limit = self.limit?;
        let now = self.outside.seconds()?;
        for room in 0..u8::MAX {
            let watched = self.rooms.get_mut(usize::from(room))?;
            if let Some(serial) = watched.left_alone(now, limit) {
                return Some(Errand::Clear { room, serial });
            }
        }
        None
    }

    /// The next match to look at, for who asks. None where nobody does, or who did is answered.
    fn next_look(&mut self) -> Option<Errand> {
        if !self.asked {
            if !self.outside.asked() {
                return None;
            }
            self.asked = true;
        }
        for at in self.told.len()..self.rooms.len() {
            if let Some(errand) = self.look_at(at) {
                self.looks = true;
                return Some(errand);
            }
        }
        self.answer();
        None
    }

    /// The look that a room wants. Where no match stands it wants none, and its status is told.
    fn look_at(&mut self, at: usize) -> Option<Errand> {
        if self.starved {
            return None;
        }
        let seen = self.rooms.get(at)?.gauge.seen();
        match u8::try_from(at) {
            Ok(room) if seen.serial > 0 => Some(Errand::Look {
                room,
                serial: seen.serial,
            }),
            _ => {
                self.add(Ok(RoomStatus::without_match(seen)));
                None
            }
        }
    }

    /// The status of one room more.
    fn add(&mut self, status: Result<RoomStatus, NoMemory>) {
        let added = match status {
            Ok(status) => self.told.push(status).is_ok(),
            Err(NoMemory) => false,
        };
        if !added {
            self.starved = true;
        }
    }

    /// Answers who asked.
    fn answer(&mut self) {
        if self.starved {
            self.outside.answer(Err(NoMemory));
        } else {
            self.outside.answer(Ok(self.told.as_slice()));
        }
        self.told.clear();
        self.asked = false;
        self.starved = false;
    }

    /// Takes the reply to a look at a room that shows this. Where another match stands there now, the room is looked at again.
    fn take_look(&mut self, seen: Seen, reply: &RoomReply) {
        match reply {
            RoomReply::Looked(row) if row.name.serial() == seen.serial => {
                self.add(RoomStatus::with_match(self.alloc, seen, row));
            }
            RoomReply::NoMemory if !seen.stopped => self.starved = true,
            _ if seen.serial == 0 => self.add(Ok(RoomStatus::without_match(seen))),
            _ => {}
        }
    }
}

impl<C: Outside> Keeper for HallKeeper<C> {
    fn next(&mut self) -> Option<Errand> {
        match self.next_look() {
            Some(errand) => Some(errand),
            None => self.next_clear(),
        }
    }

    fn told(&mut self, reply: RoomReply) {
        let looks = mem::replace(&mut self.looks, false);
        let seen = match self.rooms.get(self.told.len()) {
            Some(watched) if looks => Some(watched.gauge.seen()),
            _ => None,
        };
        if let Some(seen) = seen {
            self.take_look(seen, &reply);
        }
        drop(reply);
    }
}
