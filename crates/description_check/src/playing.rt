//! Random matches of a game, and what came of them as lines.

use game_sheet::NoMemory;
use game_trait::Game;
use random_matches::{Report, play_matches};
use std::alloc::Global;

/// The greatest count of tries of a random match.
const MOST_TRIES: u32 = 10_000;

/// Appends what came of so many random matches of a game, which are those of the numbers from 0 on.
pub fn put_matches<X: Game + Drop>(
    alloc: Global,
    game: &X,
    matches: u32,
    out: &mut Vec<u8>,
) -> Result<(), NoMemory> {
    let mut report = Report::new();
    play_matches(alloc, game, 0, matches, MOST_TRIES, &mut report)?;
    report.put(out, game.sheet())
}
