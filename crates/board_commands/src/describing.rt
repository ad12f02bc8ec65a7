//! Tries a description of a game, as the words of `check` and `ask` ask for.

ghost use Rattle.std.specs.Prelude.{◌≤◌};

use board_links::{Sink, Source};
use command_words::{WordsNo, ask_words, check_words};
use description_commands::{ask_description, check_description};
use line_runner::Exit;
use std::alloc::Global;

/// Prints what the game of a description takes, and what became of random matches of it where the words ask for some; or why it is refused.
///
/// `Usage` comes exactly where the words are not those of `check`, and then nothing was printed.
pub fn check<K: Sink>(alloc: Global, words: &[String], bytes: &[u8], sink: &mut K) -> Exit
    ensures never_falls { K.faults sink.old ≤ K.faults sink.new }
{
    match check_words(alloc, words) {
        Ok(asked) => {
            let plays = asked.plays;
            drop(asked);
            check_description(alloc, bytes, plays, sink)
        }
        Err(no) => refused(no),
    }
}

/// Asks the game of a description the rows of a source, and prints what it gives; or why it is refused.
///
/// `Usage` comes exactly where the words are not those of `ask`, and then nothing was read or printed.
pub fn ask<S: Source, K: Sink>(
    alloc: Global,
    words: &[String],
    bytes: &[u8],
    source: &mut S,
    sink: &mut K,
) -> Exit
    ensures source_never_falls { S.faults source.old ≤ S.faults source.new }
    ensures sink_never_falls { K.faults sink.old ≤ K.faults sink.new }
{
    match ask_words(alloc, words) {
        Ok(path) => {
            drop(path);
            ask_description(alloc, bytes, source, sink)
        }
        Err(no) => refused(no),
    }
}

/// The end where words give nothing to do.
fn refused(no: WordsNo) -> Exit {
    match no {
        WordsNo::Usage => Exit::Usage,
        WordsNo::NoMemory => Exit::NoMemory,
    }
}
