//! How many rows came to what.

ghost use Rattle.std.specs.Prelude.{◌≡◌, ◌+◌, ◌<◌, ◌^◌};

use crate::judge::Told;
use crate::put::put_text;
use game_sheet::NoMemory;
use json_text::put_natural;

/// How many rows were answered, and how.
#[derive(Clone, Copy, PartialEq, Eq, Debug)]
pub struct Tally {
    /// Rows without `gives`.
    pub answers: u64,
    /// Rows whose `gives` the game gives.
    pub same: u64,
    /// Rows whose `gives` it doesn't give.
    pub other: u64,
    /// Rows that weren't asked.
    pub faults: u64,
}

impl Tally {
    /// No row yet.
    pub fn new() -> Tally {
        Tally {
            answers: 0,
            same: 0,
            other: 0,
            faults: 0,
        }
    }

    /// Counts a line. A count stays at its greatest.
    pub fn count(&mut self, told: Told) {
        match told {
            Told::Nothing => {}
            Told::Answer => self.answers = self.answers.saturating_add(1),
            Told::Same => self.same = self.same.saturating_add(1),
            Told::Other => self.other = self.other.saturating_add(1),
            Told::Fault => self.faults = self.faults.saturating_add(1),
        }
    }

    /// Whether every row was asked, and the game gives what it says.
    pub fn is_clean(self) -> bool {
        self.other == 0 && self.faults == 0
    }

    /// Appends the counts as one line.
    pub fn put(self, out: &mut Vec<u8>) -> Result<(), NoMemory> {
        put_count(out, "", self.same, " rows as they say, ")?;
        put_count(out, "", self.other, " otherwise, ")?;
        put_count(out, "", self.faults, " not asked, ")?;
        put_count(out, "", self.answers, " without gives\n")
    }
}

fn put_count(out: &mut Vec<u8>, before: &str, count: u64, after: &str) -> Result<(), NoMemory> {
    put_text(out, before)?;
    put_natural(out, count)?;
    put_text(out, after)
}
