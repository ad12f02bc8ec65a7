//! What a description takes, or why it is refused; and random matches of its game.

ghost use Rattle.std.specs.Prelude.{◌≤◌};

use crate::loading::{Ready, load_game};
use crate::printing::print;
use board_links::Sink;
use description_check::{put_costs, put_matches};
use game_sheet::NoMemory;
use line_runner::Exit;
use std::alloc::Global;

/// Prints what the game of a description takes, and what became of so many random matches of it, if that is asked for; or why the description is refused.
///
/// `BadLine` comes where it is refused, with the line of the fault in its member's text, or 1 where it has none.
pub fn check_description<K: Sink>(
    alloc: Global,
    bytes: &[u8],
    plays: Option<u32>,
    sink: &mut K,
) -> Exit
    ensures never_falls { K.faults sink.old ≤ K.faults sink.new }
{
    let mut text = Vec::new(alloc);
    let exit = checked(alloc, bytes, plays, &mut text);
    print(text, exit, sink)
}

/// The end of a check, whose text is added.
fn checked(alloc: Global, bytes: &[u8], plays: Option<u32>, text: &mut Vec<u8>) -> Exit {
    match load_game(alloc, bytes, text) {
        Ok(ready) => {
            let told = put_ready(alloc, &ready, plays, text);
            drop(ready);
            match told {
                Ok(()) => Exit::Done,
                Err(NoMemory) => Exit::NoMemory,
            }
        }
        Err(exit) => exit,
    }
}

fn put_ready(
    alloc: Global,
    ready: &Ready,
    plays: Option<u32>,
    text: &mut Vec<u8>,
) -> Result<(), NoMemory> {
    put_costs(text, &ready.costs)?;
    match plays {
        Some(plays) => put_matches(alloc, &ready.game, plays, text),
        None => Ok(()),
    }
}
