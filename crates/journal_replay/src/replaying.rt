//! Reads a journal from a source, and prints what its records make.

ghost use Rattle.std.specs.Prelude.{◌≡◌, ◌≤◌, IsSome, length};
ghost use Rattle.board_links.specs.Pieces.{told_bytes};
ghost use Rattle.journal_replay.specs.Replaying.{JournalEnds, PrintRaises, ReplayEnds, ReplayRaises};

use crate::journal_text::journal_text;
use board_links::{Put, Sink, Source};
use journal_bytes::{NotGiven, all_bytes};
use line_runner::Exit;
use std::alloc::Global;

/// Replays the journal that a source gives, and prints how many records it has and what they make.
///
/// `BadRecord` comes where the journal is damaged, with the place of the gate, and `LongJournal` where it has more than 268,435,456 bytes;
/// then nothing is printed. `ReadFault` and `WriteFault` come only where the source's or the sink's count of faults rose.
pub fn replay<S: Source, K: Sink>(alloc: Global, source: &mut S, sink: &mut K) -> Exit
    ensures source_never_falls { S.faults source.old ≤ S.faults source.new }
    ensures sink_never_falls { K.faults sink.old ≤ K.faults sink.new }
    ensures raises { ReplayRaises result (S.faults source.old) (S.faults source.new) (K.faults sink.old) (K.faults sink.new) }
    ensures ends { IsSome (S.left source.old) → IsSome (K.held sink.old)
        → ReplayEnds (told_bytes (S.left source.old)) (S.left source.new) (told_bytes (K.held sink.old)) (K.held sink.new) result }
{
    match all_bytes(alloc, source) {
        Ok(bytes) => print_journal(alloc, bytes, sink),
        Err(NotGiven::ReadFault) => Exit::ReadFault,
        Err(NotGiven::Long) => Exit::LongJournal,
        Err(NotGiven::NoMemory) => Exit::NoMemory,
    }
}

/// Prints what the records of a journal make.
fn print_journal<K: Sink>(alloc: Global, bytes: Vec<u8>, sink: &mut K) -> Exit
    requires { length bytes.items ≤ 268435456 }
    ensures never_falls { K.faults sink.old ≤ K.faults sink.new }
    ensures raises { PrintRaises result (K.faults sink.old) (K.faults sink.new) }
    ensures ends { IsSome (K.held sink.old) → JournalEnds bytes.items (told_bytes (K.held sink.old)) (K.held sink.new) result }
{
    match journal_text(alloc, bytes) {
        Ok(text) => {
            let put = sink.put(text.as_slice());
            drop(text);
            match put {
                Put::Done => Exit::Done,
                Put::Failed => Exit::WriteFault,
            }
        }
        Err(exit) => exit,
    }
}
