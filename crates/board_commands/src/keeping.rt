//! Runs a script over one room whose changes are kept in a file.

ghost use Rattle.std.specs.Prelude.{◌≡◌, ◌≤◌, ◌⊎◌, ℕ, List, IsSome, None, Some, option_map, true, false};
ghost use Rattle.board_links.specs.Faults.{HasRisen};
ghost use Rattle.board_links.specs.Pieces.{told_bytes};
ghost use Rattle.kept_script.specs.Ending.{IsKeptComplete, IsUnopened, KeptRaises, RunsOpened};
ghost use Rattle.kept_script.specs.KeptPlay.{kept_play};
ghost use Rattle.line_runner.specs.Running.{AreInForm};
ghost use Rattle.line_runner.specs.declared.exit.Exit.TheVariants.{Usage};
ghost use Rattle.board_commands.specs.KeptWords.{kept_path, path_by};

use board_links::{Sink, Source};
use kept_script::run_kept;
use line_runner::Exit;
use room_disk::Disk;
use std::alloc::Global;

/// The greatest number of bytes of a path.
const MOST_PATH: usize = 4_096;

/// Runs the script of a source over one room, whose changes are kept in the file of a disk, as the words `kept PATH` ask for. It hands the disk
/// back.
///
/// `Usage` comes where the words are not these, and then nothing was read, written or kept. Where source and sink tell what they hold, `ran` says
/// what was printed, and `completes`, that a script in form without a fault is run to its end, or the file ended it, or there was no memory;
/// where the disk goes by the model too, `keeps` says what the file then has, and what it had whenever a crash came.
pub fn kept<S: Source, K: Sink, D: Disk + Drop>(
    alloc: Global,
    words: &[String],
    source: &mut S,
    sink: &mut K,
    disk: D,
) -> (Exit, D)
    ensures source_never_falls { S.faults source.old ≤ S.faults source.new }
    ensures sink_never_falls { K.faults sink.old ≤ K.faults sink.new }
    ensures usage { kept_path words.now ≡ None → result.0 ≡ Usage }
    ensures untouched_source { kept_path words.now ≡ None → source.new ≡ source.old }
    ensures untouched_sink { kept_path words.now ≡ None → sink.new ≡ sink.old }
    ensures untouched_disk { kept_path words.now ≡ None → result.1 ≡ disk }
    ensures raises { (path : List ℕ) → kept_path words.now ≡ Some path → KeptRaises result.0 (S.faults source.old) (S.faults source.new) (K.faults sink.old) (K.faults sink.new) }
    ensures completes { (path : List ℕ) → kept_path words.now ≡ Some path → IsSome (S.left source.old) → IsSome (K.held sink.old) → AreInForm (kept_play {D = D}) (told_bytes (S.left source.old))
        → (HasRisen (S.faults source.old) (S.faults source.new) → ⊥) → (HasRisen (K.faults sink.old) (K.faults sink.new) → ⊥) → IsKeptComplete result.0 }
    ensures ran { (path : List ℕ) → kept_path words.now ≡ Some path → IsSome (S.left source.old) → IsSome (K.held sink.old)
        → IsUnopened D.is_told D.seen D.faults disk result.1 result.0
        ⊎ RunsOpened D.is_told D.seen D.may_leave D.moment D.left_since D.faults disk false (told_bytes (S.left source.old)) (told_bytes (S.left source.new)) (told_bytes (K.held sink.old)) (K.held sink.new) result.0 result.1 }
    ensures keeps { (path : List ℕ) → kept_path words.now ≡ Some path → D.is_told disk → IsSome (S.left source.old) → IsSome (K.held sink.old)
        → IsUnopened D.is_told D.seen D.faults disk result.1 result.0
        ⊎ RunsOpened D.is_told D.seen D.may_leave D.moment D.left_since D.faults disk true (told_bytes (S.left source.old)) (told_bytes (S.left source.new)) (told_bytes (K.held sink.old)) (K.held sink.new) result.0 result.1 }
{
    match kept_path(words) {
        Some(_) => run_kept(alloc, source, sink, disk),
        None => (Exit::Usage, disk),
    }
}

/// The path of the words `kept PATH`, 1 to 4,096 bytes; none exactly where the words are not these.
pub fn kept_path(words: &[String]) -> Option<&str>
    ensures { option_map (λ path. path.now) result ≡ kept_path words.now }
{
    match words {
        [word, path] => path_by(word.as_bytes(), path.as_str()),
        _ => None,
    }
}

/// The path behind a first word.
fn path_by<'a>(word: &[u8], path: &'a str) -> Option<&'a str>
    ensures { option_map (λ path. path.now) result ≡ path_by word.now path.now }
{
    if word == b"kept".as_slice() && 1 <= path.len() && path.len() <= MOST_PATH {
        Some(path)
    } else {
        None
    }
}
