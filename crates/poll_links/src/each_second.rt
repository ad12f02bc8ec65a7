//! Lets what may happen often be said once a second.

use std::rt::Clock;
use std::time::Instant;

/// What happened since it was last said, by a clock, and when that was.
#[derive(Drop)]
pub(crate) struct EachSecond {
    said: Option<Instant>,
    count: u64,
}

impl EachSecond {
    /// Nothing has happened.
    pub(crate) fn new() -> EachSecond {
        EachSecond {
            said: None,
            count: 0,
        }
    }

    /// It happened once more. How often since it was last said, if it may be said now: it was never said, or a second ago or more. None where the clock
    /// can't be read.
    pub(crate) fn count<C: Clock>(&mut self, clock: &C) -> Option<u64> {
        self.count = self.count.saturating_add(1);
        let now = Instant::now(clock).ok()?;
        if let Some(before) = self.said {
            if now.duration_since(before).as_secs() == 0 {
                return None;
            }
        }
        let count = self.count;
        self.said = Some(now);
        self.count = 0;
        Some(count)
    }
}
