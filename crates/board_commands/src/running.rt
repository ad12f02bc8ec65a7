//! What the program does with the words that it is called with.

ghost use Rattle.std.specs.Prelude.{◌≡◌, ◌≤◌};
ghost use Rattle.board_commands.specs.Run.{IfNothing, IfUnread, RunsAs};
ghost use Rattle.board_commands.specs.Words.{command_of};

use crate::command::{Command, command_of};
use crate::workloads::run_workload;
use board_links::{Sink, Source};
use journal_replay::replay;
use line_runner::Exit;
use std::alloc::Global;
use world_script::{run_script, run_world};

/// Runs what the words after the program's name ask for: `script`, a script, `world`, a world, or `replay`, a journal, from a source to a
/// sink; or `workload` with a seed and a number of steps, into a sink alone.
///
/// `Usage` comes exactly where the words are none of these, and then nothing was read or written. **runs** says of each command what
/// it comes to. Where the source tells its bytes, it says where each end of a script or a world comes, and where the sink tells them
/// too, what the lines added to it, what of that is told to each session, and what the clients of a world see of their matches; lines in
/// form are run to their end where nothing fails, or there was no memory. A replay prints what the records of the journal make, and says
/// where it is damaged or too long. A workload adds its transcript, or a first part of it where the sink fails. An end that blames the
/// source or the sink comes only where its count of faults rose.
pub fn run<S: Source, K: Sink>(
    alloc: Global,
    words: &[String],
    source: &mut S,
    sink: &mut K,
) -> Exit
    ensures source_never_falls { S.faults source.old ≤ S.faults source.new }
    ensures sink_never_falls { K.faults sink.old ≤ K.faults sink.new }
    ensures untouched_source { IfUnread (command_of words.now) (source.new ≡ source.old) }
    ensures untouched_sink { IfNothing (command_of words.now) (sink.new ≡ sink.old) }
    ensures runs { RunsAs (record { before = S.left source.old; after = S.left source.new; faults = S.faults source.old; faults_after = S.faults source.new })
        (record { before = K.held sink.old; after = K.held sink.new; faults = K.faults sink.old; faults_after = K.faults sink.new }) result (command_of words.now) }
{
    match command_of(words) {
        Some(Command::Script) => run_script(alloc, source, sink),
        Some(Command::World) => run_world(alloc, source, sink),
        Some(Command::Replay) => replay(alloc, source, sink),
        Some(Command::Workload { seed, steps }) => run_workload(alloc, seed, steps, sink),
        None => Exit::Usage,
    }
}
