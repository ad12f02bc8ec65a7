//! The name of a match: its room and which of the room's matches it is.

ghost use Rattle.std.specs.Prelude.{◌≡◌, ◌≤◌, ◌<◌};
ghost use Rattle.game_sheet.specs.MatchName.{Name};

use std::marker::Model;

/// A room from 0 to 63 and a serial from 1, which the type keeps.
#[derive(Clone, Copy)]
pub struct MatchName {
    room: u8,
    serial: u64,
}

impl Model for MatchName {
    ghost use Rattle.std.specs.Prelude.{◌≤◌};
    ghost use Rattle.game_sheet.specs.MatchName.{Name};

    ghost Value = { Name };

    ghost view = { λ m. record { room = m.room; serial = m.serial } };

    ghost invariant = { λ m. (m.room ≤ 63) × (1 ≤ m.serial) };

    ghost inverse = { λ n. record { room = n.room; serial = n.serial } };
}

impl MatchName {
    /// The match of this room with this serial.
    pub fn new(room: u8, serial: u64) -> Self
        requires room { room ≤ 63 }
        requires serial { 1 ≤ serial }
        ensures { result ≡ record { room = room; serial = serial } }
    {
        MatchName { room, serial }
    }

    /// The room, from 0 to 63.
    pub fn room(&self) -> u8
        ensures value { result ≡ self.now.room }
        ensures most { result ≤ 63 }
    {
        self.room
    }

    /// Which of the room's matches it is, from 1.
    pub fn serial(&self) -> u64
        ensures value { result ≡ self.now.serial }
        ensures least { 1 ≤ result }
    {
        self.serial
    }
}
