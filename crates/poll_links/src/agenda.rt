//! Whose turn is due: the places of a worker, the rooms in which their sessions listen, and those whose links keep bytes back.

use game_sheet::NoMemory;
use std::alloc::Global;
use std::mem;

/// How many rooms there may be.
const ROOMS: u32 = 64;

/// A place: the room in which its session listens, whether its turn is due, and whether its link keeps bytes back.
#[derive(Clone, Copy)]
struct Listener {
    at: Option<u8>,
    due: bool,
    kept: bool,
}

/// Whose turn is due. A number stands once among those that are due, and once among those whose links keep bytes back.
#[derive(Drop)]
pub(crate) struct Agenda {
    listeners: Vec<Listener>,
    by_room: Vec<Vec<u32>>,
    due: Vec<u32>,
    kept: Vec<u32>,
}

impl Agenda {
    /// For so many places, of which none is due.
    pub fn new(alloc: Global, places: u32) -> Result<Agenda, NoMemory> {
        let listener = Listener {
            at: None,
            due: false,
            kept: false,
        };
        Ok(Agenda {
            listeners: Vec::from_elem(alloc, listener, places as usize)?,
            by_room: rooms(alloc)?,
            due: Vec::with_capacity(alloc, places as usize)?,
            kept: Vec::with_capacity(alloc, places as usize)?,
        })
    }

    /// Whether no turn is due.
    pub fn is_idle(&self) -> bool {
        self.due.is_empty()
    }

    /// Whether some link keeps bytes back.
    pub fn has_kept(&self) -> bool {
        !self.kept.is_empty()
    }

    /// The turn of this place is due. A number of no place is passed over.
    pub fn add(&mut self, number: u32) {
        if let Some(listener) = self.listeners.get_mut(number as usize) {
            if !listener.due && self.due.push(number).is_ok() {
                listener.due = true;
            }
        }
    }

    /// The link of this place keeps bytes back.
    pub fn keep(&mut self, number: u32) {
        if let Some(listener) = self.listeners.get_mut(number as usize) {
            if !listener.kept && self.kept.push(number).is_ok() {
                listener.kept = true;
            }
        }
    }

    /// The turns of all whose links keep bytes back are due.
    pub fn add_kept(&mut self) {
        for at in 0..self.kept.len() {
            self.add_kept_at(at);
        }
        self.kept.clear();
    }

    /// The turn of one whose link keeps bytes back is due; it leaves the list afterwards.
    fn add_kept_at(&mut self, at: usize) {
        let Some(number) = self.kept.get(at).copied() else {
            return;
        };
        if let Some(listener) = self.listeners.get_mut(number as usize) {
            listener.kept = false;
        }
        self.add(number);
    }

    /// The turns of all who listen in these rooms are due, one bit each.
    pub fn add_rooms(&mut self, rooms: u64) {
        if rooms == 0 {
            return;
        }
        for room in 0..ROOMS {
            if (rooms >> room) & 1 == 1 {
                self.add_room(room as usize);
            }
        }
    }

    /// The turns of all who listen in a room are due.
    fn add_room(&mut self, room: usize) {
        let count = match self.by_room.get(room) {
            Some(numbers) => numbers.len(),
            None => 0,
        };
        for at in 0..count {
            if let Some(number) = self.listener_in(room, at) {
                self.add(number);
            }
        }
    }

    /// Who stands at a place of a room's list.
    fn listener_in(&self, room: usize, at: usize) -> Option<u32> {
        match self.by_room.get(room) {
            Some(numbers) => numbers.get(at).copied(),
            None => None,
        }
    }

    /// The session of this place listens there now.
    pub fn moves(&mut self, number: u32, at: Option<u8>) {
        let Some(listener) = self.listeners.get_mut(number as usize) else {
            return;
        };
        let before = listener.at;
        if before == at {
            return;
        }
        listener.at = at;
        self.leave(number, before);
        self.enter(number, at);
    }

    /// The session of this place listens no longer in the room.
    fn leave(&mut self, number: u32, room: Option<u8>) {
        let Some(room) = room else {
            return;
        };
        if let Some(numbers) = self.by_room.get_mut(usize::from(room)) {
            numbers.retain(|other| *other != number);
        }
    }

    /// The session of this place listens in the room.
    fn enter(&mut self, number: u32, room: Option<u8>) {
        let Some(room) = room else {
            return;
        };
        if let Some(numbers) = self.by_room.get_mut(usize::from(room)) {
            // Without memory the session hears of others when it is heard itself.
            let _listed = numbers.push(number);
        }
    }

    /// Puts the numbers that are due in place of the list's, and none is due any more.
    pub fn take(&mut self, numbers: &mut Vec<u32>) {
        numbers.clear();
        mem::swap(numbers, &mut self.due);
        for at in 0..numbers.len() {
            if let Some(listener) = self.listeners.get_mut(numbers[at] as usize) {
                listener.due = false;
            }
        }
    }
}

/// An empty list for each room.
fn rooms(alloc: Global) -> Result<Vec<Vec<u32>>, NoMemory> {
    let mut rooms = Vec::with_capacity(alloc, ROOMS as usize)?;
    for _ in 0..ROOMS {
        rooms.push(Vec::new(alloc))?;
    }
    Ok(rooms)
}
