//! What is printed for a player.

ghost use Rattle.std.specs.Prelude.{◌≡◌, ◌≤◌, IsSome};
ghost use Rattle.board_links.specs.Pieces.{told_bytes};
ghost use Rattle.link_play.specs.Pieces.{PrintRaises, Prints};

use crate::stop::Stop;
use board_links::{Put, Sink};

/// Prints a text.
pub(crate) fn print<K: Sink>(sink: &mut K, text: &[u8]) -> Result<(), Stop>
    ensures never_falls { K.faults sink.old ≤ K.faults sink.new }
    ensures raises { PrintRaises result (K.faults sink.old) (K.faults sink.new) }
    ensures tells { IsSome (K.held sink.old) → IsSome (K.held sink.new) }
    ensures told { IsSome (K.held sink.old) → Prints result text.now (told_bytes (K.held sink.old)) (told_bytes (K.held sink.new)) }
{
    match sink.put(text) {
        Put::Done => Ok(()),
        Put::Failed => Err(Stop::WriteFault),
    }
}
