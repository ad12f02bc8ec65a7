//! The words of `play`: which server, game and match, and for whom.

ghost use Rattle.std.specs.Prelude.{◌≡◌, IfOk, codes, map, option_map, string_bytes};
ghost use Rattle.clap.specs.Words.{FailsBy, HasMatchesOf, fault_of, first_value, found_of};
ghost use Rattle.command_words.specs.Answers.{Answers};
ghost use Rattle.command_words.specs.Play.{play_app, play_from, play_of, seat_from, viewer_from};

use crate::games::game_of;
use crate::options::{flag, needed, option};
use crate::serve::is_said;
use crate::words_no::{WordsNo, word_of};
use any_game::AnyGame;
use clap::{ArgMatches, Command, Error};
use game_sheet::{MatchName, Seat, Text, Viewer};
use std::alloc::Global;
use wire_json::{decimal_of, key_of, match_of};

/// What `play` is asked for.
#[derive(Drop)]
pub struct PlayWords {
    /// The server's address and port.
    pub connect: Text,
    /// The game of the match.
    pub game: AnyGame,
    /// The match.
    pub name: MatchName,
    /// The seat and its key; none for a spectator.
    pub viewer: Viewer,
    /// Whether what is shown is drawn too.
    pub draws: bool,
}

/// What the words of `play` ask for; the first word is the command's own.
///
/// `Usage` comes exactly where the words are in no form: an option that isn't there or stands twice, no `--connect`, `--game` or
/// `--match`, a game that nobody knows, a match, seat or key in no form, or a seat without a key or the reverse.
pub fn play_words(alloc: Global, words: &[String]) -> Result<PlayWords, WordsNo>
    ensures { Answers (play_from (map string_bytes words.now)) result }
{
    match matches_of(alloc, words) {
        Ok(matches) => words_in(alloc, &matches),
        Err(error) => Err(word_of(&error)),
    }
}

/// The matches of the words by `clap`.
fn matches_of<'a>(alloc: Global, words: &'a [String]) -> Result<ArgMatches<'a>, Error>
    ensures matches { IfOk result (HasMatchesOf play_app (map string_bytes words.entry.now)) }
    ensures faults { FailsBy (fault_of play_app (map string_bytes words.entry.now)) result }
{
    let command = Command::new(alloc, "play")
        .arg(needed(alloc, "connect"))?
        .arg(needed(alloc, "game"))?
        .arg(needed(alloc, "match"))?
        .arg(option(alloc, "seat"))?
        .arg(option(alloc, "key"))?
        .arg(flag(alloc, "draw"))?;
    command.try_get_matches_from(words)
}

/// What the matches ask for.
fn words_in(alloc: Global, matches: &ArgMatches) -> Result<PlayWords, WordsNo>
    ensures { Answers (play_of (first_value (found_of matches.now) (codes "connect")) (first_value (found_of matches.now) (codes "game"))
        (first_value (found_of matches.now) (codes "match")) (first_value (found_of matches.now) (codes "seat")) (first_value (found_of matches.now) (codes "key"))
        (first_value (found_of matches.now) (codes "draw"))) result }
{
    let connect = matches.get_str("connect").ok_or(WordsNo::Usage)?;
    let game = matches.get_str("game").ok_or(WordsNo::Usage)?;
    let name = matches.get_str("match").ok_or(WordsNo::Usage)?;
    let name = match_of(name).ok_or(WordsNo::Usage)?;
    let viewer = viewer_of(matches.get_str("seat"), matches.get_str("key")).ok_or(WordsNo::Usage)?;
    let draws = is_said(matches.get_str("draw"));
    let connect = Text::from_str(alloc, connect)?;
    let game = game_of(alloc, game)?;
    Ok(PlayWords {
        connect,
        game,
        name,
        viewer,
        draws,
    })
}

/// Who looks; none where the seat or the key is in no form, or one of them isn't said.
fn viewer_of(seat: Option<&str>, key: Option<&str>) -> Option<Viewer>
    ensures { result ≡ viewer_from (option_map (λ text. text.now) seat.entry) (option_map (λ text. text.now) key.entry) }
{
    match (seat, key) {
        (None, None) => Some(None),
        (Some(seat), Some(key)) => {
            let seat = seat_of(seat)?;
            let key = key_of(key)?;
            Some(Some((seat, key)))
        }
        _ => None,
    }
}

fn seat_of(word: &str) -> Option<Seat>
    ensures { result ≡ seat_from word.now }
{
    let seat = decimal_of(word)?;
    if seat < 16 { Some(seat as u8) } else { None }
}
