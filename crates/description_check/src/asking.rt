//! Rows of a source, each asked of a game.

ghost use Rattle.std.specs.Prelude.{◌≤◌};

use board_links::{Put, Sink, Source};
use game_rows::{Tally, Told, answer_line};
use game_sheet::NoMemory;
use game_trait::Game;
use line_runner::{Exit, Lines, stop_at};
use std::alloc::Global;

/// The greatest count of lines, and one more try that finds their end.
const MOST_TRIES: u32 = 1_000_001;

/// Asks a game the rows of a source, line by line, and prints what each is answered with; at the end how many rows came to what.
///
/// `BadLine` comes where a row isn't asked or the game gives something else than the row says: the first such line.
pub fn ask_rows<X: Game + Drop, S: Source, K: Sink>(
    alloc: Global,
    game: &X,
    source: &mut S,
    sink: &mut K,
) -> Exit
    ensures source_never_falls { S.faults source.old ≤ S.faults source.new }
    ensures sink_never_falls { K.faults sink.old ≤ K.faults sink.new }
{
    let mut lines = Lines::new(alloc);
    let mut asked = Asked::new();
    for _try in 0..MOST_TRIES {
        let next = lines.next_line(source);
        if let Some(exit) = stop_at(next, lines.given()) {
            return asked.end(alloc, exit, sink);
        }
        if let Err(exit) = asked.ask(alloc, game, &lines, sink) {
            return exit;
        }
    }
    Exit::TooMany
}

/// What came of the rows so far.
#[derive(Clone, Copy)]
struct Asked {
    tally: Tally,
    /// The first line that isn't as it should be.
    first: Option<u32>,
}

impl Asked {
    fn new() -> Asked {
        Asked {
            tally: Tally::new(),
            first: None,
        }
    }

    /// Asks the line that was read last.
    fn ask<X: Game + Drop, K: Sink>(
        &mut self,
        alloc: Global,
        game: &X,
        lines: &Lines,
        sink: &mut K,
    ) -> Result<(), Exit>
        ensures never_falls { K.faults sink.old ≤ K.faults sink.new }
    {
        let mut text = Vec::new(alloc);
        match answer_line(alloc, game, lines.given(), lines.line(), &mut text) {
            Ok(told) => {
                self.count(told, lines.given());
                print(text.as_slice(), sink)
            }
            Err(NoMemory) => Err(Exit::NoMemory),
        }
    }

    fn count(&mut self, told: Told, line: u32) {
        self.tally.count(told);
        if is_wrong(told) && self.first.is_none() {
            self.first = Some(line);
        }
    }

    /// Prints the counts where the rows were read to their end.
    fn end<K: Sink>(&self, alloc: Global, exit: Exit, sink: &mut K) -> Exit
        ensures never_falls { K.faults sink.old ≤ K.faults sink.new }
    {
        match exit {
            Exit::Done => self.done(alloc, sink),
            _ => exit,
        }
    }

    fn done<K: Sink>(&self, alloc: Global, sink: &mut K) -> Exit
        ensures never_falls { K.faults sink.old ≤ K.faults sink.new }
    {
        let mut text = Vec::new(alloc);
        match self.tally.put(&mut text) {
            Ok(()) => match print(text.as_slice(), sink) {
                Ok(()) => self.verdict(),
                Err(exit) => exit,
            },
            Err(NoMemory) => Exit::NoMemory,
        }
    }

    fn verdict(&self) -> Exit {
        match self.first {
            Some(line) => Exit::BadLine { line },
            None => Exit::Done,
        }
    }
}

fn is_wrong(told: Told) -> bool {
    match told {
        Told::Other | Told::Fault => true,
        Told::Nothing | Told::Answer | Told::Same => false,
    }
}

/// Puts bytes into a sink, unless there are none.
pub(crate) fn print<K: Sink>(bytes: &[u8], sink: &mut K) -> Result<(), Exit>
    ensures never_falls { K.faults sink.old ≤ K.faults sink.new }
{
    if bytes.is_empty() {
        return Ok(());
    }
    match sink.put(bytes) {
        Put::Done => Ok(()),
        Put::Failed => Err(Exit::WriteFault),
    }
}
