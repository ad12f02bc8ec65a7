//! The events that one call of game code queues.

ghost use Rattle.std.specs.Prelude.{◌≡◌, ◌<◌, ◌≤◌, ◌∷◌, ◌++◌, [], length, OnOk, OnErr};

use crate::act::Event;
use std::marker::Model;

/// At most sixteen events, first in, first out. Contracts see their list.
pub struct EventQueue {
    items: [Event; 16],
    len: usize,
}

impl Drop for EventQueue {
    fn drop(self) {
        let EventQueue { items: _, len: _ } = self;
    }
}

/// A seventeenth event was queued.
#[derive(Clone, Copy)]
pub struct Crowded;

impl Model for EventQueue {
    ghost use Rattle.std.specs.Prelude.{List, take, ◌≤◌};
    ghost use Rattle.game_sheet.specs.declared.act.Event.{Event};

    ghost Value = { List Event };

    ghost view = { λ q. take q.len q.items };

    ghost invariant = { λ q. q.len ≤ 16 };
}

impl EventQueue {
    /// An empty queue.
    pub fn new() -> Self
        ensures { result ≡ [] }
    {
        EventQueue {
            items: [Event::EndPhase; 16],
            len: 0,
        }
    }

    /// Adds an event at the end. It is `Crowded` exactly at the seventeenth, and the queue then stays as it was.
    pub fn push(&mut self, event: Event) -> Result<(), Crowded>
        ensures ok { OnOk result ((length self.old < 16) × (self.new ≡ self.old ++ event ∷ [])) }
        ensures err { OnErr result ((length self.old ≡ 16) × (self.new ≡ self.old)) }
    {
        if self.len == 16 {
            return Err(Crowded);
        }
        self.items[self.len] = event;
        self.len += 1;
        Ok(())
    }

    /// The events in order.
    pub fn list(&self) -> &[Event]
        ensures value { result.now ≡ self.now }
        ensures most { length self.now ≤ 16 }
    {
        &self.items[..self.len]
    }
}
