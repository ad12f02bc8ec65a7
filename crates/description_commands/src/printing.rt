//! What is printed at the end of a command.

ghost use Rattle.std.specs.Prelude.{◌≤◌};

use board_links::{Put, Sink};
use line_runner::Exit;

/// Prints a text, and is the end of the run: this one, unless the sink fails. Where there was no memory, nothing is printed.
pub(crate) fn print<K: Sink>(text: Vec<u8>, exit: Exit, sink: &mut K) -> Exit
    ensures never_falls { K.faults sink.old ≤ K.faults sink.new }
{
    if exit == Exit::NoMemory {
        drop(text);
        return exit;
    }
    let put = sink.put(text.as_slice());
    drop(text);
    match put {
        Put::Done => exit,
        Put::Failed => Exit::WriteFault,
    }
}
