//! Runs a workload, and prints what it tells.

ghost use Rattle.std.specs.Prelude.{◌≡◌, ◌≤◌, ℕ, IsSome};
ghost use Rattle.board_links.specs.Faults.{HasRisen};
ghost use Rattle.board_links.specs.Pieces.{told_bytes};
ghost use Rattle.line_runner.specs.Running.{ExitRaises, IsComplete};
ghost use Rattle.board_commands.specs.Workloads.{Prints, workload_text};

use board_links::{Put, Sink};
use line_runner::Exit;
use std::alloc::Global;
use workload::workload;

/// Runs so many steps of a workload, which draw their words by a seed, and prints the six lines that it tells at its end.
///
/// `WriteFault` comes only where the sink's count of faults rose; a first part of the lines was then added. After `NoMemory` nothing
/// was. Where the count didn't rise, the workload was run to its end, or there was no memory.
pub fn run_workload<K: Sink>(alloc: Global, seed: u64, steps: u32, sink: &mut K) -> Exit
    ensures never_falls { K.faults sink.old ≤ K.faults sink.new }
    ensures raises { (reads : ℕ) → ExitRaises result reads reads (K.faults sink.old) (K.faults sink.new) }
    ensures prints { IsSome (K.held sink.old)
        → Prints result (workload_text seed steps) (told_bytes (K.held sink.old)) (K.held sink.new) }
    ensures completes { (HasRisen (K.faults sink.old) (K.faults sink.new) → ⊥) → IsComplete result }
{
    match workload(alloc, seed, steps) {
        Ok(text) => print(text, sink),
        Err(_) => Exit::NoMemory,
    }
}

/// Prints a text.
fn print<K: Sink>(text: Vec<u8>, sink: &mut K) -> Exit
    ensures never_falls { K.faults sink.old ≤ K.faults sink.new }
    ensures raises { (reads : ℕ) → ExitRaises result reads reads (K.faults sink.old) (K.faults sink.new) }
    ensures prints { IsSome (K.held sink.old) → Prints result text.items (told_bytes (K.held sink.old)) (K.held sink.new) }
    ensures completes { (HasRisen (K.faults sink.old) (K.faults sink.new) → ⊥) → IsComplete result }
{
    let put = sink.put(text.as_slice());
    drop(text);
    match put {
        Put::Done => Exit::Done,
        Put::Failed => Exit::WriteFault,
    }
}
