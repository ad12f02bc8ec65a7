//! Rows of a source, each asked of the game of a description.

ghost use Rattle.std.specs.Prelude.{◌≤◌};

use crate::loading::load_game;
use crate::printing::print;
use board_links::{Sink, Source};
use description_check::ask_rows;
use line_runner::Exit;
use std::alloc::Global;

/// Asks the game of a description the rows of a source, and prints what each is answered with, and how many came to what; or why the description is refused.
/// Then nothing was read.
///
/// `BadLine` comes where the description is refused, with the line of the fault in its member's text, or 1 where it has none;
/// and where a row isn't asked, or the game gives something else than the row says: then with the first such line.
pub fn ask_description<S: Source, K: Sink>(
    alloc: Global,
    bytes: &[u8],
    source: &mut S,
    sink: &mut K,
) -> Exit
    ensures source_never_falls { S.faults source.old ≤ S.faults source.new }
    ensures sink_never_falls { K.faults sink.old ≤ K.faults sink.new }
{
    let mut text = Vec::new(alloc);
    match load_game(alloc, bytes, &mut text) {
        Ok(ready) => {
            drop(text);
            let exit = ask_rows(alloc, &ready.game, source, sink);
            drop(ready);
            exit
        }
        Err(exit) => print(text, exit, sink),
    }
}
