//! What tells a worker which of its links are ready, over one poll.

ghost use Rattle.std.specs.Prelude.{◌≡◌};

use crate::agenda::Agenda;
use crate::alarms::Alarms;
use crate::bells::Bells;
use crate::watched::Watched;
use game_sheet::NoMemory;
use link_rounds::{Ready, Stir};
use mio::{Events, Poll, Token};
use std::alloc::Global;
use std::rt::Clock;
use std::sync::{Arc, Wait};
use std::time::{Duration, Instant};

/// How many events one poll has room for. What is left comes with the next.
const EVENTS: usize = 1_024;

/// The token of a worker's bell.
pub(crate) const BELL: Token = Token(usize::MAX);

/// The token of the door's listener.
pub(crate) const DOOR: Token = Token(usize::MAX - 1);

/// After how many seconds a link that keeps bytes back, or a door without room for one more connection, is looked at again.
const AGAIN: u64 = 1;

/// What a worker knows of the door.
#[derive(Clone, Copy)]
enum Door {
    /// It has none for this worker, as far as it knows.
    Still,
    /// It may have a link for it.
    Due,
    /// It had no room for one more connection.
    Full,
    /// It gives no link any more.
    Over,
}

/// What tells a worker which of its links are ready: a poll, the bells, and whose turn is due.
#[derive(Drop)]
pub struct PollReady<C> {
    clock: C,
    poll: Poll,
    events: Events,
    bells: Arc<Bells, Global>,
    me: usize,
    agenda: Agenda,
    alarms: Alarms,
    door: Door,
    links: u32,
    places: u32,
    looked: Option<Instant>,
    /// When it was made; its seconds count from then on.
    begun: Option<Instant>,
}

impl<C: Clock + Drop> PollReady<C> {
    /// For the worker of this number among the bells, with so many places, and a poll in which its bell and the door's listener are
    /// registered.
    pub(crate) fn new(
        clock: C,
        alloc: Global,
        poll: Poll,
        bells: Arc<Bells, Global>,
        me: usize,
        places: u32,
    ) -> Result<PollReady<C>, NoMemory> {
        let events = Events::with_capacity(alloc, EVENTS)?;
        let agenda = Agenda::new(alloc, places)?;
        let alarms = Alarms::new(alloc, places)?;
        let begun = Instant::now(&clock).ok();
        Ok(PollReady {
            clock,
            poll,
            events,
            bells,
            me,
            agenda,
            alarms,
            // Who comes before the first wait is found without an event.
            door: Door::Due,
            links: 0,
            places,
            looked: None,
            begun,
        })
    }

    /// How many links it has; as many as can be where it has room for none.
    fn load(&self) -> u64 {
        if self.links < self.places {
            u64::from(self.links)
        } else {
            u64::MAX
        }
    }

    /// One more link is here, and its turn is due.
    fn count_in(&mut self, number: u32) {
        self.agenda.add(number);
        self.links = self.links.saturating_add(1);
        self.bells.count(self.me, self.load());
    }

    /// The door may have a link.
    fn door_due(&mut self) {
        if self.door != Door::Over {
            self.door = Door::Due;
        }
    }

    /// How long the next poll may wait.
    fn patience(&self) -> Option<Duration> {
        if !self.agenda.is_idle() {
            Some(Duration::from_secs(0))
        } else if self.agenda.has_kept() || self.alarms.is_any() || self.door == Door::Full {
            Some(Duration::from_secs(AGAIN))
        } else {
            None
        }
    }

    /// Takes in what the poll told.
    fn take_events(&mut self) {
        let PollReady {
            events,
            agenda,
            door,
            ..
        } = self;
        for event in events.iter() {
            let token = event.token();
            if token == DOOR && *door != Door::Over {
                *door = Door::Due;
            }
            if let Ok(number) = u32::try_from(token.0) {
                agenda.add(number);
            }
        }
    }

    /// Looks again, once a second, at links that keep bytes back and at a door without room.
    fn look_again(&mut self) {
        if (self.agenda.has_kept() || self.door == Door::Full) && self.is_later() {
            self.agenda.add_kept();
            if self.door == Door::Full {
                self.door = Door::Due;
            }
        }
    }

    /// How many seconds have passed since it was made.
    fn second(&self) -> u64 {
        match (self.begun, Instant::now(&self.clock)) {
            (Some(begun), Ok(now)) => now.duration_since(begun).as_secs(),
            _ => 0,
        }
    }

    /// The turns of links are due that want one though nothing came.
    fn look_at_alarms(&mut self) {
        if self.alarms.is_any() {
            let second = self.second();
            self.alarms.look(second, &mut self.agenda);
        }
    }

    /// Whether a second has passed since this was last so.
    fn is_later(&mut self) -> bool {
        let Ok(now) = Instant::now(&self.clock) else {
            return true;
        };
        if let Some(before) = self.looked {
            if now.duration_since(before).as_secs() < AGAIN {
                return false;
            }
        }
        self.looked = Some(now);
        true
    }
}

impl<L: Watched, C: Clock + Drop> Ready<L> for PollReady<C> {
    ghost use Rattle.std.specs.Prelude.{None};

    ghost named = { λ _. None };

    fn watch(&mut self, number: u32, link: &mut L) {
        link.watch(self.poll.registry(), number);
        let second = self.second();
        self.alarms.set(number, second, link.looks());
        self.count_in(number);
    }

    fn takes_place(&mut self, number: u32) {
        self.count_in(number);
    }

    fn note(&mut self, number: u32, stir: Stir) {
        self.agenda.moves(number, stir.at);
        if stir.more {
            self.agenda.add(number);
        }
        if stir.changed != 0 {
            self.agenda.add_rooms(stir.changed);
            self.bells.ring(self.me, stir.changed);
        }
    }

    fn keeps_back(&mut self, number: u32) {
        self.agenda.keep(number);
    }

    fn went_back(&mut self, number: u32) {
        self.agenda.moves(number, None);
        self.alarms.unset(number);
        self.links = self.links.saturating_sub(1);
        self.bells.count(self.me, self.load());
        self.door_due();
    }

    fn may_come(&mut self) -> bool {
        match self.door {
            Door::Still | Door::Full => false,
            Door::Over => true,
            Door::Due => match self.bells.with_fewer(self.load()) {
                Some(other) => {
                    self.door = Door::Still;
                    self.bells.call(other);
                    false
                }
                None => self.links < self.places,
            },
        }
    }

    fn none_came(&mut self) {
        self.door = if self.bells.is_full() {
            Door::Full
        } else {
            Door::Still
        };
    }

    fn none_will_come(&mut self) {
        if self.door != Door::Over {
            self.door = Door::Over;
            self.bells.call_others(self.me);
        }
    }

    fn wait<R: Wait>(&mut self, _rt: &R, numbers: &mut Vec<u32>) {
        let patience = self.patience();
        // A poll that fails tells of nothing, and the next one is asked.
        let _polled = self.poll.poll(&mut self.events, patience);
        // First the poll and then the bits, so that no change is missed.
        let told = self.bells.taken(self.me);
        self.take_events();
        self.agenda.add_rooms(told.rooms);
        if told.door {
            self.door_due();
        }
        self.look_again();
        self.look_at_alarms();
        self.agenda.take(numbers);
    }
}
