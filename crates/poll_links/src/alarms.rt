//! Turns that are due after a while though nothing came.

use crate::agenda::Agenda;
use game_sheet::NoMemory;
use std::alloc::Global;
use std::mem;

/// How many seconds ahead an alarm stands at most. One that is further away is looked at on the way.
const AHEAD: u64 = 63;

/// After how many seconds a link wants a turn though nothing came: the first time, and then each time.
#[derive(Clone, Copy)]
pub struct Looks {
    /// The first time, from when it is watched on.
    pub first: Option<u32>,
    /// Each further time.
    pub then: Option<u32>,
}

/// A place's alarm: when it is looked at next, when it is due, and after how many seconds it is due again. Nothing is due at `NEVER`.
#[derive(Clone, Copy)]
struct Alarm {
    at: u64,
    due: u64,
    then: Option<u32>,
}

/// No second.
const NEVER: u64 = u64::MAX;

/// An alarm that isn't set.
const UNSET: Alarm = Alarm {
    at: NEVER,
    due: NEVER,
    then: None,
};

/// The alarms of a worker's places, by the second at which they are looked at. A number that stands in a list where its place isn't looked at
/// is passed over.
#[derive(Drop)]
pub(crate) struct Alarms {
    alloc: Global,
    slots: Vec<Vec<u32>>,
    alarms: Vec<Alarm>,
    set: u32,
    looked: u64,
}

impl Alarms {
    /// For so many places, of which none has an alarm.
    pub fn new(alloc: Global, places: u32) -> Result<Alarms, NoMemory> {
        let mut slots = Vec::with_capacity(alloc, 64)?;
        for _ in 0..64 {
            slots.push(Vec::new(alloc))?;
        }
        Ok(Alarms {
            alloc,
            slots,
            alarms: Vec::from_elem(alloc, UNSET, places as usize)?,
            set: 0,
            looked: 0,
        })
    }

    /// Whether any is set.
    pub fn is_any(&self) -> bool {
        self.set > 0
    }

    /// From this second on a place wants these looks. An alarm for which there is no memory isn't set.
    pub fn set(&mut self, number: u32, second: u64, looks: Looks) {
        self.unset(number);
        if let Some(first) = looks.first {
            self.set_at(
                number,
                second,
                second.saturating_add(u64::from(first)),
                looks.then,
            );
        }
    }

    /// A place wants no look any more.
    pub fn unset(&mut self, number: u32) {
        if let Some(alarm) = self.alarms.get_mut(number as usize) {
            if alarm.at != NEVER {
                self.set = self.set.saturating_sub(1);
            }
            *alarm = UNSET;
        }
    }

    /// Sets the alarm of a place that has none, from a second on.
    fn set_at(&mut self, number: u32, second: u64, due: u64, then: Option<u32>) {
        let at = due
            .min(second.saturating_add(AHEAD))
            .max(second.saturating_add(1));
        let Some(alarm) = self.alarms.get_mut(number as usize) else {
            return;
        };
        let Some(slot) = self.slots.get_mut((at % 64) as usize) else {
            return;
        };
        if slot.push(number).is_ok() {
            *alarm = Alarm { at, due, then };
            self.set = self.set.saturating_add(1);
        }
    }

    /// The turns of all places are due whose alarms were due since it last looked.
    pub fn look(&mut self, second: u64, agenda: &mut Agenda) {
        let from = self
            .looked
            .saturating_add(1)
            .max(second.saturating_sub(AHEAD));
        if second < from {
            return;
        }
        self.looked = second;
        for past in from..second.saturating_add(1) {
            self.look_at(past, second, agenda);
        }
    }

    /// The turns of the places are due whose alarms stand at this second that is past. What is due later stands further on.
    fn look_at(&mut self, past: u64, second: u64, agenda: &mut Agenda) {
        let none = Vec::new(self.alloc);
        let Some(slot) = self.slots.get_mut((past % 64) as usize) else {
            return;
        };
        let numbers = mem::replace(slot, none);
        for number in numbers.as_slice() {
            self.look_to(*number, past, second, agenda);
        }
        drop(numbers);
    }

    /// A place whose alarm stands 64 seconds after this one is looked at then: where nothing was looked at for a while, its list comes too early. An
    /// alarm for which there is no memory isn't set.
    fn put_back(&mut self, number: u32, past: u64) {
        let kept = match self.slots.get_mut((past % 64) as usize) {
            Some(slot) => slot.push(number).is_ok(),
            None => false,
        };
        if !kept {
            self.unset(number);
        }
    }

    /// The turn of a place is due where its alarm is.
    fn look_to(&mut self, number: u32, past: u64, second: u64, agenda: &mut Agenda) {
        let Some(alarm) = self.alarms.get(number as usize).copied() else {
            return;
        };
        if alarm.at == NEVER || alarm.at % 64 != past % 64 {
            return;
        }
        if alarm.at > second {
            self.put_back(number, past);
            return;
        }
        self.unset(number);
        if second < alarm.due {
            self.set_at(number, second, alarm.due, alarm.then);
            return;
        }
        agenda.add(number);
        if let Some(then) = alarm.then {
            self.set_at(
                number,
                second,
                second.saturating_add(u64::from(then)),
                alarm.then,
            );
        }
    }
}
