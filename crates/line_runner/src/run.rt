//! Runs the lines of a source.

ghost use Rattle.std.specs.Prelude.{◌≡◌, ◌≤◌, IsSome};
ghost use Rattle.board_links.specs.Pieces.{told_bytes, WriteRaises, Writes};
ghost use Rattle.line_runner.specs.Running.{EndsOver, ExitRaises, GoesOn, Leaves, LineRaises, RanOver, end_at, stop_at};
ghost use Rattle.line_runner.specs.ScriptLines.{script};

use crate::exit::Exit;
use crate::interpreter::{Interpreter, LineNo};
use crate::lines::Lines;
use crate::next::Next;
use board_links::{Put, Sink, Source};
use std::alloc::Global;

/// Runs the lines of a source in an interpreter, and prints into a sink. What it prints goes by what the interpreter stands for at first. Where
/// the source tells its bytes, `ends` says where each end comes, and where the sink tells them too, what was printed.
#[tactic(none)]
pub fn run_lines<I: Interpreter, S: Source, K: Sink>(
    alloc: Global,
    interpreter: &mut I,
    source: &mut S,
    sink: &mut K,
) -> Exit
    requires { (s : I.State) × I.doing.Stands interpreter.old s }
    ensures source_never_falls { S.faults source.old ≤ S.faults source.new }
    ensures sink_never_falls { K.faults sink.old ≤ K.faults sink.new }
    ensures raises { ExitRaises result (S.faults source.old) (S.faults source.new) (K.faults sink.old) (K.faults sink.new) }
    ensures ends { (begin : I.State) → I.doing.Stands interpreter.old begin → IsSome (S.left source.old)
        → EndsOver I.play begin (told_bytes (S.left source.old)) (told_bytes (S.left source.new)) (K.held sink.old) (K.held sink.new) result }
    ensures leaves { (begin : I.State) → I.doing.Stands interpreter.old begin → IsSome (S.left source.old) → IsSome (K.held sink.old)
        → Leaves I.play I.doing begin (script (told_bytes (S.left source.old))) interpreter.new (told_bytes (K.held sink.old)) (K.held sink.new) result }
{
    let mut lines = Lines::new(alloc);
    let mut text = Vec::new(alloc);
    'lines: loop {
        let next = lines.next_line(source);
        if let Some(exit) = stop_at(next, lines.given()) {
            return exit;
        }
        let ran = run_line(alloc, interpreter, &mut text, lines.line(), sink);
        if let Some(exit) = end_at(ran, lines.given()) {
            return exit;
        }
    }
}

/// The end where no line came after so many.
pub fn stop_at(next: Next, given: u32) -> Option<Exit>
    requires { given ≤ 1000000 }
    ensures { result ≡ stop_at next given }
{
    match next {
        Next::Line => None,
        Next::End => Some(Exit::Done),
        Next::TooLong => Some(Exit::TooLong { line: given + 1 }),
        Next::TooMany => Some(Exit::TooMany),
        Next::ReadFault => Some(Exit::ReadFault),
        Next::NoMemory => Some(Exit::NoMemory),
    }
}

/// The end at a line, if it ends there.
fn end_at(ran: LineStatus, line: u32) -> Option<Exit>
    ensures { result ≡ end_at ran line }
{
    match ran {
        LineStatus::Done => None,
        LineStatus::BadLine => Some(Exit::BadLine { line }),
        LineStatus::WriteFault => Some(Exit::WriteFault),
        LineStatus::NoMemory => Some(Exit::NoMemory),
    }
}

/// What one line came to.
#[derive(Clone, Copy)]
pub enum LineStatus {
    /// It is in form, and what it prints was printed.
    Done,
    /// It is in no form.
    BadLine,
    /// The sink failed.
    WriteFault,
    /// There was no memory.
    NoMemory,
}

/// Runs one line, and prints what it says. The text is written anew; it is handed in so that its memory is used again.
fn run_line<I: Interpreter, K: Sink>(
    alloc: Global,
    interpreter: &mut I,
    text: &mut Vec<u8>,
    line: &[u8],
    sink: &mut K,
) -> LineStatus
    requires { (s : I.State) × I.doing.Stands interpreter.old s }
    ensures going { GoesOn result ((s : I.State) × I.doing.Stands interpreter.new s) }
    ensures never_falls { K.faults sink.old ≤ K.faults sink.new }
    ensures raises { LineRaises result (K.faults sink.old) (K.faults sink.new) }
    ensures ran { (s : I.State) → I.doing.Stands interpreter.old s → RanOver I.play I.doing s line.now interpreter.new (K.held sink.old) (K.held sink.new) result }
{
    text.clear();
    match interpreter.run_line(alloc, line, text) {
        Ok(()) => match print(sink, text.as_slice()) {
            Put::Done => LineStatus::Done,
            Put::Failed => LineStatus::WriteFault,
        },
        Err(LineNo::BadLine) => LineStatus::BadLine,
        Err(LineNo::NoMemory) => LineStatus::NoMemory,
    }
}

/// Puts bytes into a sink, unless there are none.
fn print<K: Sink>(sink: &mut K, bytes: &[u8]) -> Put
    ensures never_falls { K.faults sink.old ≤ K.faults sink.new }
    ensures raises { WriteRaises result (K.faults sink.old) (K.faults sink.new) }
    ensures told { IsSome (K.held sink.old) → Writes result bytes.now (told_bytes (K.held sink.old)) (K.held sink.new) }
{
    if bytes.is_empty() {
        return Put::Done;
    }
    sink.put(bytes)
}
