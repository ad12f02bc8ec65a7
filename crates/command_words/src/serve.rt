//! The words of `serve`: where it listens, how many rooms, workers, links at once and sessions it has, whom it lets in, which page it gives, where
//! it keeps its rooms, where it tells its status, and which bots it seats, at which pace.

ghost use Rattle.std.specs.Prelude.{◌≡◌, ◌≤◌, IfOk, codes, map, option_map, string_bytes};
ghost use Rattle.clap.specs.Words.{FailsBy, HasMatchesOf, fault_of, first_value, found_of};
ghost use Rattle.command_words.specs.Answers.{Answers};
ghost use Rattle.command_words.specs.Numbers.{endless, number_or};
ghost use Rattle.command_words.specs.Serve.{go_together, guests, is_said, serve_app, serve_from, serve_of};

use crate::games::{bots_of, pace_of};
use crate::numbers::number_or;
use crate::options::{flag, needed, option};
use crate::words_no::{WordsNo, word_of};
use any_game::AnyGame;
use clap::{ArgMatches, Command, Error};
use game_sheet::{NoMemory, Text};
use std::alloc::Global;

/// What `serve` is asked for.
#[derive(Drop)]
pub struct ServeWords {
    /// Where it listens, as an address and a port.
    pub listen: Text,
    /// How many rooms it has, 1 to 64.
    pub rooms: u8,
    /// How many workers serve them, each in a thread: 1 to 32, and no more than there are links.
    pub workers: u8,
    /// How many sessions it serves at once, 1 to 4,096.
    pub links: u16,
    /// How many sessions it serves before it ends, 1 to 1,000,000; 18,446,744,073,709,551,615, which none comes to, where they aren't said.
    pub sessions: u64,
    /// For how many seconds a peer may send nothing, up to 86,400; 0 for good.
    pub silence: u32,
    /// After how many minutes in which nobody looks at it a match is cleared, 0 to 10,080; 0: never.
    pub idle: u32,
    /// The only origin of a page whose WebSockets are taken, if there is one.
    pub origin: Option<Text>,
    /// The folder of the page that browsers are given, if they are given one.
    pub page: Option<Text>,
    /// The folder of the rooms' journals, if the rooms are kept; never with bots.
    pub keep: Option<Text>,
    /// Where it answers who asks for its status, as an address and a port, if it does.
    pub status: Option<Text>,
    /// Whether its links are WebSockets.
    pub ws: bool,
    /// The game of a match at whose seats bots sit, and how many there are: fewer than the links; none where it seats no bots.
    pub bots: Option<(AnyGame, u8)>,
    /// How many seconds about a bot lets pass before it answers, up to 60; 0 where it answers at once.
    pub pace: u8,
}

/// What the words of `serve` ask for; the first word is the command's own.
///
/// `Usage` comes exactly where the words are in no form: an option that isn't there or stands twice, no `--listen`, a
/// number that has a sign or a leading zero or is out of its bounds, an origin or a page without WebSockets, rooms that are kept with bots, a game of
/// bots without its seats or the reverse, a pace without bots, a game that nobody knows, seats that aren't within its bounds or as many as the links
/// at once, or more than 32 links with bots. Rooms with bots aren't kept, since a match of bots is made anew at each start, and kept rooms may hold
/// an older one.
pub fn serve_words(alloc: Global, words: &[String]) -> Result<ServeWords, WordsNo>
    ensures asked { Answers (serve_from (map string_bytes words.now)) result }
    ensures bounds { IfOk result (λ asked. (1 ≤ asked.rooms) × (asked.rooms ≤ 64) × (1 ≤ asked.workers) × (asked.workers ≤ 32) × (asked.workers ≤ asked.links) × (asked.links ≤ 4096)) }
{
    match matches_of(alloc, words) {
        Ok(matches) => words_in(alloc, &matches),
        Err(error) => Err(word_of(&error)),
    }
}

/// The matches of the words by `clap`.
fn matches_of<'a>(alloc: Global, words: &'a [String]) -> Result<ArgMatches<'a>, Error>
    ensures matches { IfOk result (HasMatchesOf serve_app (map string_bytes words.entry.now)) }
    ensures faults { FailsBy (fault_of serve_app (map string_bytes words.entry.now)) result }
{
    let command = Command::new(alloc, "serve")
        .arg(needed(alloc, "listen"))?
        .arg(option(alloc, "rooms"))?
        .arg(option(alloc, "workers"))?
        .arg(option(alloc, "links"))?
        .arg(option(alloc, "sessions"))?
        .arg(option(alloc, "silence"))?
        .arg(option(alloc, "idle"))?
        .arg(option(alloc, "origin"))?
        .arg(option(alloc, "page"))?
        .arg(option(alloc, "keep"))?
        .arg(option(alloc, "status"))?
        .arg(option(alloc, "bots"))?
        .arg(option(alloc, "seats"))?
        .arg(option(alloc, "pace"))?
        .arg(flag(alloc, "ws"))?;
    command.try_get_matches_from(words)
}

/// What the matches ask for.
fn words_in(alloc: Global, matches: &ArgMatches) -> Result<ServeWords, WordsNo>
    ensures asked { Answers (serve_of (first_value (found_of matches.now) (codes "listen")) (first_value (found_of matches.now) (codes "rooms"))
        (first_value (found_of matches.now) (codes "workers")) (first_value (found_of matches.now) (codes "links")) (first_value (found_of matches.now) (codes "sessions"))
        (first_value (found_of matches.now) (codes "silence")) (first_value (found_of matches.now) (codes "idle")) (guests (first_value (found_of matches.now) (codes "origin")) (first_value (found_of matches.now) (codes "page"))
        (first_value (found_of matches.now) (codes "keep")) (first_value (found_of matches.now) (codes "status")) (is_said (first_value (found_of matches.now) (codes "ws")))
        (first_value (found_of matches.now) (codes "bots")) (first_value (found_of matches.now) (codes "seats")) (first_value (found_of matches.now) (codes "pace")))) result }
    ensures bounds { IfOk result (λ asked. (1 ≤ asked.rooms) × (asked.rooms ≤ 64) × (1 ≤ asked.workers) × (asked.workers ≤ 32) × (asked.workers ≤ asked.links) × (asked.links ≤ 4096)) }
{
    let listen = matches.get_str("listen").ok_or(WordsNo::Usage)?;
    let rooms = number_or(matches.get_str("rooms"), 1, 64, 16).ok_or(WordsNo::Usage)?;
    let workers = number_or(matches.get_str("workers"), 1, 32, 8).ok_or(WordsNo::Usage)?;
    let links = number_or(matches.get_str("links"), 1, 4_096, workers).ok_or(WordsNo::Usage)?;
    let sessions = sessions_of(matches.get_str("sessions")).ok_or(WordsNo::Usage)?;
    let silence = number_or(matches.get_str("silence"), 0, 86_400, 0).ok_or(WordsNo::Usage)?;
    let idle = number_or(matches.get_str("idle"), 0, 10_080, 0).ok_or(WordsNo::Usage)?;
    let origin = matches.get_str("origin");
    let page = matches.get_str("page");
    let keep = matches.get_str("keep");
    let ws = is_said(matches.get_str("ws"));
    if !go_together(origin, page, keep, ws, matches.get_str("bots")) {
        return Err(WordsNo::Usage);
    }
    let pace = pace_of(matches.get_str("bots"), matches.get_str("pace")).ok_or(WordsNo::Usage)?;
    let listen = Text::from_str(alloc, listen)?;
    let origin = copy_of(alloc, origin)?;
    let page = copy_of(alloc, page)?;
    let keep = copy_of(alloc, keep)?;
    let status = copy_of(alloc, matches.get_str("status"))?;
    let bots = bots_of(
        alloc,
        matches.get_str("bots"),
        matches.get_str("seats"),
        links,
    )?;
    Ok(ServeWords {
        listen,
        rooms: rooms as u8,
        workers: workers.min(links) as u8,
        links: links as u16,
        sessions,
        silence: silence as u32,
        idle: idle as u32,
        origin,
        page,
        keep,
        status,
        ws,
        bots,
        pace: pace as u8,
    })
}

/// How many sessions a server has in which so many are said: without end where none are. None where the word is in no form.
fn sessions_of(word: Option<&str>) -> Option<u64>
    ensures { result ≡ number_or 1 1000000 endless (option_map (λ text. text.now) word.entry) }
{
    match word {
        Some(_) => number_or(word, 1, 1_000_000, 1_000_000),
        None => Some(u64::MAX),
    }
}

/// Whether these go together: an origin or a page has WebSockets, and rooms that are kept have no bots.
fn go_together(
    origin: Option<&str>,
    page: Option<&str>,
    keep: Option<&str>,
    ws: bool,
    bots: Option<&str>,
) -> bool
    ensures { result ≡ go_together (option_map (λ text. text.now) origin.entry) (option_map (λ text. text.now) page.entry) (option_map (λ text. text.now) keep.entry)
        ws (option_map (λ text. text.now) bots.entry) }
{
    (ws || (origin.is_none() && page.is_none())) && (keep.is_none() || bots.is_none())
}

/// A copy of a text, if there is one.
fn copy_of(alloc: Global, text: Option<&str>) -> Result<Option<Text>, NoMemory>
    ensures { IfOk result (λ copy. copy ≡ option_map (λ text. text.now) text.entry) }
{
    match text {
        Some(text) => Ok(Some(Text::from_str(alloc, text)?)),
        None => Ok(None),
    }
}

/// Whether a flag was said, by the text that stands for it.
pub(crate) fn is_said(text: Option<&str>) -> bool
    ensures { result ≡ is_said (option_map (λ text. text.now) text.entry) }
{
    match text {
        Some(text) => text.as_bytes() == b"true".as_slice(),
        None => false,
    }
}
