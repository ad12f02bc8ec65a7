//! Runs a workload.

ghost use Rattle.std.specs.Prelude.{◌≡◌, ◌++◌, IfOk, replicate};
ghost use Rattle.std.specs.Int.{w64, to_le_bytes};
ghost use Rattle.any_game.specs.AnyRules.{any_rules, named};
ghost use Rattle.hall_history.specs.Tapes.{hall_tape, steps_tape};
ghost use Rattle.world_history.specs.Workload.{transcript};

use crate::load::Load;
use crate::summary::summary;
use game_sheet::NoMemory;
use std::alloc::Global;

/// Makes the world of a workload, runs so many steps of it by the words of a seed, and gives the six lines that it tells at the end.
///
/// Any want of memory ends the run.
pub fn workload(alloc: Global, seed: u64, steps: u32) -> Result<Vec<u8>, NoMemory>
    ensures { IfOk result (λ text. text.items ≡ transcript named any_rules hall_tape (steps_tape seed) 8 steps) }
{
    let mut load = Load::new(alloc, seed_of(seed))?;
    let ran = load.run(steps);
    let counts = load.counts();
    drop(load);
    ran?;
    summary(alloc, steps, counts)
}

/// The seed of the steps' tape: a number in 8 bytes, least byte first, and 24 zero bytes.
fn seed_of(number: u64) -> [u8; 32]
    ensures { result ≡ to_le_bytes w64 number ++ replicate 24 0 }
{
    let mut seed = [0; 32];
    seed[..8].copy_from_slice(&number.to_le_bytes());
    seed
}
