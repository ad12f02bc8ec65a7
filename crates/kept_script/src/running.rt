//! Runs a script over one room whose changes are kept in the file of a disk.

ghost use Rattle.std.specs.Prelude.{◌≡◌, ◌≤◌, ◌⊎◌, IsSome, true, false};
ghost use Rattle.board_links.specs.Faults.{HasRisen};
ghost use Rattle.board_links.specs.Pieces.{told_bytes};
ghost use Rattle.hall_history.specs.Hall.{new_hall};
ghost use Rattle.line_runner.specs.Running.{AreInForm, ExitRaises, IsComplete};
ghost use Rattle.session_hall.specs.Held.{AreCores};
ghost use Rattle.kept_script.specs.Ending.{HasRun, IsKeptComplete, IsUnopened, KeptRaises, RunsOpened, as_run, exit_after, exit_by, exit_of};
ghost use Rattle.kept_script.specs.KeptDoing.{IsKept};
ghost use Rattle.kept_script.specs.KeptPlay.{KeptState, kept_play};

use crate::hall::{KeptHall, all_cores};
use board_links::{Sink, Source};
use game_hall::SessionCore;
use kept_room::open_room;
use line_runner::{Exit, run_lines};
use object_journal::{OpenNo, Stop};
use room_disk::Disk;
use std::alloc::Global;

/// Runs the script of a source over one room, whose accepted changes are kept in the file of a disk, and prints its transcript into a sink. The
/// file is opened first, and the changes of its records are made again. It hands the disk back.
///
/// A line is printed only where each of its changes was kept. `StoreFault` comes where the disk failed, `LongJournal` where the file has, or
/// with a further record would have, more than 268,435,456 bytes, and `BadRecord` where it is damaged, with the place of the gate; every other
/// end comes as that of a script. Where source and sink tell what they hold, `ran` says what was printed, and that the disk's count of faults
/// rose where `StoreFault` came; `completes`, that a script in form without a fault is run to its end, or the file ended it, or there was no
/// memory. Where the disk goes by the model too, `keeps` says that the file then has the records of the history that the transcript's room has,
/// and whenever a crash came, a first part of them; and that `LongJournal`, once the file was opened, comes only where the record of a call
/// that came after those of the printed lines doesn't fit.
pub fn run_kept<S: Source, K: Sink, D: Disk + Drop>(
    alloc: Global,
    source: &mut S,
    sink: &mut K,
    disk: D,
) -> (Exit, D)
    ensures source_never_falls { S.faults source.old ≤ S.faults source.new }
    ensures sink_never_falls { K.faults sink.old ≤ K.faults sink.new }
    ensures raises { KeptRaises result.0 (S.faults source.old) (S.faults source.new) (K.faults sink.old) (K.faults sink.new) }
    ensures completes { IsSome (S.left source.old) → IsSome (K.held sink.old) → AreInForm (kept_play {D = D}) (told_bytes (S.left source.old))
        → (HasRisen (S.faults source.old) (S.faults source.new) → ⊥) → (HasRisen (K.faults sink.old) (K.faults sink.new) → ⊥) → IsKeptComplete result.0 }
    ensures ran { IsSome (S.left source.old) → IsSome (K.held sink.old)
        → IsUnopened D.is_told D.seen D.faults disk result.1 result.0
        ⊎ RunsOpened D.is_told D.seen D.may_leave D.moment D.left_since D.faults disk false (told_bytes (S.left source.old)) (told_bytes (S.left source.new)) (told_bytes (K.held sink.old)) (K.held sink.new) result.0 result.1 }
    ensures keeps { D.is_told disk → IsSome (S.left source.old) → IsSome (K.held sink.old)
        → IsUnopened D.is_told D.seen D.faults disk result.1 result.0
        ⊎ RunsOpened D.is_told D.seen D.may_leave D.moment D.left_since D.faults disk true (told_bytes (S.left source.old)) (told_bytes (S.left source.new)) (told_bytes (K.held sink.old)) (K.held sink.new) result.0 result.1 }
{
    match all_cores(alloc) {
        Ok(cores) => run_with(alloc, cores, source, sink, disk),
        Err(_) => (Exit::NoMemory, disk),
    }
}

/// Opens the file, and runs the script with these cores.
fn run_with<S: Source, K: Sink, D: Disk + Drop>(
    alloc: Global,
    cores: Vec<SessionCore>,
    source: &mut S,
    sink: &mut K,
    disk: D,
) -> (Exit, D)
    requires { AreCores cores.items (new_hall 1) }
    ensures source_never_falls { S.faults source.old ≤ S.faults source.new }
    ensures sink_never_falls { K.faults sink.old ≤ K.faults sink.new }
    ensures raises { KeptRaises result.0 (S.faults source.old) (S.faults source.new) (K.faults sink.old) (K.faults sink.new) }
    ensures completes { IsSome (S.left source.old) → IsSome (K.held sink.old) → AreInForm (kept_play {D = D}) (told_bytes (S.left source.old))
        → (HasRisen (S.faults source.old) (S.faults source.new) → ⊥) → (HasRisen (K.faults sink.old) (K.faults sink.new) → ⊥) → IsKeptComplete result.0 }
    ensures ran { IsSome (S.left source.old) → IsSome (K.held sink.old)
        → IsUnopened D.is_told D.seen D.faults disk result.1 result.0
        ⊎ RunsOpened D.is_told D.seen D.may_leave D.moment D.left_since D.faults disk false (told_bytes (S.left source.old)) (told_bytes (S.left source.new)) (told_bytes (K.held sink.old)) (K.held sink.new) result.0 result.1 }
    ensures keeps { D.is_told disk → IsSome (S.left source.old) → IsSome (K.held sink.old)
        → IsUnopened D.is_told D.seen D.faults disk result.1 result.0
        ⊎ RunsOpened D.is_told D.seen D.may_leave D.moment D.left_since D.faults disk true (told_bytes (S.left source.old)) (told_bytes (S.left source.new)) (told_bytes (K.held sink.old)) (K.held sink.new) result.0 result.1 }
{
    match open_room(alloc, 0, disk) {
        Ok(room) => run_hall(alloc, KeptHall::new(alloc, room, cores), source, sink),
        Err(refused) => {
            drop(cores);
            let (no, disk) = refused;
            (exit_of(no), disk)
        }
    }
}

/// Runs the script in a hall that stands for some state, and hands the hall's disk back.
fn run_hall<S: Source, K: Sink, D: Disk + Drop>(
    alloc: Global,
    hall: KeptHall<D>,
    source: &mut S,
    sink: &mut K,
) -> (Exit, D)
    requires { (s : KeptState D) × IsKept D.is_told D.seen D.may_leave D.moment D.left_since D.faults hall s }
    ensures source_never_falls { S.faults source.old ≤ S.faults source.new }
    ensures sink_never_falls { K.faults sink.old ≤ K.faults sink.new }
    ensures raises { ExitRaises (as_run result.0) (S.faults source.old) (S.faults source.new) (K.faults sink.old) (K.faults sink.new) }
    ensures completes { IsSome (S.left source.old) → IsSome (K.held sink.old) → AreInForm (kept_play {D = D}) (told_bytes (S.left source.old))
        → (HasRisen (S.faults source.old) (S.faults source.new) → ⊥) → (HasRisen (K.faults sink.old) (K.faults sink.new) → ⊥) → IsComplete (as_run result.0) }
    ensures ran { (s : KeptState D) → IsKept D.is_told D.seen D.may_leave D.moment D.left_since D.faults hall s → IsSome (S.left source.old) → IsSome (K.held sink.old)
        → HasRun D.is_told D.seen D.may_leave D.moment D.left_since D.faults s (told_bytes (S.left source.old)) (told_bytes (S.left source.new)) (told_bytes (K.held sink.old)) (K.held sink.new) result.0 result.1 }
{
    let mut hall = hall;
    let exit = run_lines(alloc, &mut hall, source, sink);
    let (disk, stopped) = hall.close();
    (exit_after(exit, stopped), disk)
}

/// The end of a run whose file wasn't opened.
fn exit_of(no: OpenNo) -> Exit
    ensures { result ≡ exit_of no }
{
    match no {
        OpenNo::DiskFault => Exit::StoreFault,
        OpenNo::Long => Exit::LongJournal,
        OpenNo::Damaged { place } => Exit::BadRecord { place },
        OpenNo::NoMemory => Exit::NoMemory,
    }
}

/// The end of a run, by that of its lines and by why the room has stopped, if it has.
fn exit_after(exit: Exit, stopped: Option<Stop>) -> Exit
    ensures { result ≡ exit_after exit stopped }
{
    match exit {
        Exit::NoMemory => exit_by(stopped),
        other => other,
    }
}

/// The end of a run for which there was no memory, or whose room has stopped.
fn exit_by(stopped: Option<Stop>) -> Exit
    ensures { result ≡ exit_by stopped }
{
    match stopped {
        None | Some(Stop::NoMemory) => Exit::NoMemory,
        Some(Stop::Full { .. }) => Exit::LongJournal,
        Some(Stop::NotKept { .. }) => Exit::StoreFault,
    }
}
