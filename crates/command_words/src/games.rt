//! Games among the words of a command, and the bots that are to play one.

ghost use Rattle.std.specs.Prelude.{◌≡◌, ◌≤◌, IfSome, option_map, true};
ghost use Rattle.any_game.specs.AnyRules.{named};
ghost use Rattle.command_words.specs.Answers.{Answers};
ghost use Rattle.command_words.specs.Games.{are_enough, bots_from, pace_from, seats_from, table_from};

use crate::numbers::number_or;
use crate::words_no::WordsNo;
use any_game::{AnyGame, by_name};
use game_trait::Game;
use std::alloc::Global;
use wire_json::decimal_of;

/// The game of this name.
pub(crate) fn game_of(alloc: Global, name: &str) -> Result<AnyGame, WordsNo>
    ensures { Answers (named name.now) result }
{
    match by_name(alloc, name) {
        Ok(Some(game)) => Ok(game),
        Ok(None) => Err(WordsNo::Usage),
        Err(_) => Err(WordsNo::NoMemory),
    }
}

/// The game that bots play and how many they are, fewer than so many links at once; none where neither is said.
pub(crate) fn bots_of(
    alloc: Global,
    game: Option<&str>,
    seats: Option<&str>,
    links: u64,
) -> Result<Option<(AnyGame, u8)>, WordsNo>
    ensures { Answers (bots_from links (option_map (λ text. text.now) game.entry) (option_map (λ text. text.now) seats.entry)) result }
{
    match (game, seats) {
        (None, None) => Ok(None),
        (Some(game), Some(seats)) => table_of(alloc, game, seats, links),
        _ => Err(WordsNo::Usage),
    }
}

/// A game of this name with a bot at each of so many seats.
fn table_of(
    alloc: Global,
    game: &str,
    seats: &str,
    links: u64,
) -> Result<Option<(AnyGame, u8)>, WordsNo>
    ensures { Answers (table_from links (named game.now) seats.now) result }
{
    let game = game_of(alloc, game)?;
    match seats_of(&game, seats, links) {
        Some(seats) => Ok(Some((game, seats))),
        None => Err(WordsNo::Usage),
    }
}

/// How many seats a word says, where a match of the game may have as many and they are fewer than the links.
fn seats_of(game: &AnyGame, seats: &str, links: u64) -> Option<u8>
    ensures { result ≡ seats_from links game.now seats.now }
{
    let seats = decimal_of(seats)?;
    if are_enough(game, seats, links) {
        Some(seats as u8)
    } else {
        None
    }
}

/// Whether a match of the game may have so many seats, and they are fewer than the links, of which there are at most 32: the streams of words from
/// 32 on are the bots'.
fn are_enough(game: &AnyGame, seats: u64, links: u64) -> bool
    ensures same { result ≡ are_enough links game.now seats }
    ensures few { result ≡ true → seats ≤ 255 }
{
    let sheet = game.sheet();
    u64::from(sheet.min_seats) <= seats
        && seats <= u64::from(sheet.max_seats)
        && seats < links
        && links <= 32
}

/// How many seconds a bot of this game lets pass before it answers; none where that is said though no bots are.
pub(crate) fn pace_of(game: Option<&str>, pace: Option<&str>) -> Option<u64>
    ensures same { result ≡ pace_from (option_map (λ text. text.now) game.entry) (option_map (λ text. text.now) pace.entry) }
    ensures bounds { IfSome result (λ n. n ≤ 60) }
{
    if game.is_none() && pace.is_some() {
        return None;
    }
    number_or(pace, 0, 60, 0)
}
