//! The words of `check` and `ask`: which description, and how many random matches of it.

ghost use Rattle.std.specs.Prelude.{◌≡◌, IfOk, codes, map, option_map, string_bytes};
ghost use Rattle.clap.specs.Words.{FailsBy, HasMatchesOf, fault_of, first_value, found_of};
ghost use Rattle.command_words.specs.Answers.{Answers};
ghost use Rattle.command_words.specs.Describe.{ask_app, ask_from, ask_of, check_app, check_from, check_of, path_from, plays_from};

use crate::numbers::number_or;
use crate::options::{option, value};
use crate::words_no::{WordsNo, word_of};
use clap::{ArgMatches, Command, Error};
use game_sheet::Text;
use std::alloc::Global;

/// What `check` is asked for.
#[derive(Drop)]
pub struct CheckWords {
    /// The path of the description, 1 to 4,096 bytes.
    pub path: Text,
    /// How many random matches it plays, 1 to 1,000,000; none where they aren't said.
    pub plays: Option<u32>,
}

/// What the words of `check` ask for; the first word is the command's own.
///
/// `Usage` comes exactly where the words are in no form: no path, two of them, or one that is empty or longer than 4,096 bytes; an option that isn't
/// there or stands twice; or a number that has a sign or a leading zero or is out of its bounds.
pub fn check_words(alloc: Global, words: &[String]) -> Result<CheckWords, WordsNo>
    ensures { Answers (check_from (map string_bytes words.now)) result }
{
    match check_matches(alloc, words) {
        Ok(matches) => check_in(alloc, &matches),
        Err(error) => Err(word_of(&error)),
    }
}

/// The path of the description that the words of `ask` ask for; the first word is the command's own.
///
/// `Usage` comes exactly where the words are in no form: no path, two of them, or one that is empty or longer than 4,096 bytes; or an option.
pub fn ask_words(alloc: Global, words: &[String]) -> Result<Text, WordsNo>
    ensures { Answers (ask_from (map string_bytes words.now)) result }
{
    match ask_matches(alloc, words) {
        Ok(matches) => ask_in(alloc, &matches),
        Err(error) => Err(word_of(&error)),
    }
}

/// The matches of the words of `check` by `clap`.
fn check_matches<'a>(alloc: Global, words: &'a [String]) -> Result<ArgMatches<'a>, Error>
    ensures matches { IfOk result (HasMatchesOf check_app (map string_bytes words.entry.now)) }
    ensures faults { FailsBy (fault_of check_app (map string_bytes words.entry.now)) result }
{
    let command = Command::new(alloc, "check")
        .arg(value(alloc, "file"))?
        .arg(option(alloc, "play"))?;
    command.try_get_matches_from(words)
}

/// The matches of the words of `ask` by `clap`.
fn ask_matches<'a>(alloc: Global, words: &'a [String]) -> Result<ArgMatches<'a>, Error>
    ensures matches { IfOk result (HasMatchesOf ask_app (map string_bytes words.entry.now)) }
    ensures faults { FailsBy (fault_of ask_app (map string_bytes words.entry.now)) result }
{
    let command = Command::new(alloc, "ask").arg(value(alloc, "file"))?;
    command.try_get_matches_from(words)
}

/// What the matches of `check` ask for.
fn check_in(alloc: Global, matches: &ArgMatches) -> Result<CheckWords, WordsNo>
    ensures { Answers (check_of (first_value (found_of matches.now) (codes "file")) (first_value (found_of matches.now) (codes "play"))) result }
{
    let path = path_of(matches.get_str("file")).ok_or(WordsNo::Usage)?;
    let plays = plays_of(matches.get_str("play")).ok_or(WordsNo::Usage)?;
    let path = Text::from_str(alloc, path)?;
    Ok(CheckWords { path, plays })
}

/// What the matches of `ask` ask for.
fn ask_in(alloc: Global, matches: &ArgMatches) -> Result<Text, WordsNo>
    ensures { Answers (ask_of (first_value (found_of matches.now) (codes "file"))) result }
{
    let path = path_of(matches.get_str("file")).ok_or(WordsNo::Usage)?;
    Ok(Text::from_str(alloc, path)?)
}

/// A path that is said, of 1 to 4,096 bytes.
fn path_of(word: Option<&str>) -> Option<&str>
    ensures { option_map (λ text. text.now) result ≡ path_from (option_map (λ text. text.now) word.entry) }
{
    match word {
        Some(path) => {
            if 1 <= path.len() && path.len() <= 4_096 {
                Some(path)
            } else {
                None
            }
        }
        None => None,
    }
}

/// How many matches are said, if some are; none where the word is in no form.
fn plays_of(word: Option<&str>) -> Option<Option<u32>>
    ensures { result ≡ plays_from (option_map (λ text. text.now) word.entry) }
{
    match word {
        None => Some(None),
        Some(_) => match number_or(word, 1, 1_000_000, 1) {
            Some(plays) => Some(Some(plays as u32)),
            None => None,
        },
    }
}
