//! Runs scripts.

ghost use Rattle.std.specs.Prelude.{◌≡◌, ◌≤◌, IsSome};
ghost use Rattle.board_links.specs.Faults.{HasRisen};
ghost use Rattle.board_links.specs.Pieces.{told_bytes};
ghost use Rattle.line_runner.specs.Running.{AreInForm, EndsOver, ExitRaises, IsComplete};
ghost use Rattle.world_script.specs.ScriptPlay.{first_hall, script_play};

use crate::doing::do_step;
use board_links::{Sink, Source};
use line_runner::{Exit, Interpreter, LineNo, ended, run_lines};
use script_steps::step_of;
use session_hall::SessionHall;
use std::alloc::Global;
use std::marker::Model;

/// How many rooms a script has.
const ROOMS: u8 = 8;

/// Runs the script of a source over eight rooms, and prints its transcript into a sink.
///
/// `Done` comes where the source was read to its end; `BadLine` exactly where that line is the first in no form,
/// `TooLong` exactly where that line is the first of more than 65,536 bytes, and `TooMany` exactly where a byte follows the
/// 1,000,000th newline, each where no earlier line ends the run; a fault exactly where its count of faults rose. What the
/// whole lines before a fault print has been printed. A session's line for which there is no memory is answered so, and
/// the run goes on.
pub fn run_script<S: Source, K: Sink>(alloc: Global, source: &mut S, sink: &mut K) -> Exit
    ensures source_never_falls { S.faults source.old ≤ S.faults source.new }
    ensures sink_never_falls { K.faults sink.old ≤ K.faults sink.new }
    ensures raises { ExitRaises result (S.faults source.old) (S.faults source.new) (K.faults sink.old) (K.faults sink.new) }
    ensures ends { IsSome (S.left source.old) → EndsOver script_play first_hall (told_bytes (S.left source.old)) (told_bytes (S.left source.new)) (K.held sink.old) (K.held sink.new) result }
    ensures completes { IsSome (S.left source.old) → AreInForm script_play (told_bytes (S.left source.old))
        → (HasRisen (S.faults source.old) (S.faults source.new) → ⊥) → (HasRisen (K.faults sink.old) (K.faults sink.new) → ⊥) → IsComplete result }
{
    match SessionHall::new(alloc, ROOMS, [0; 32]) {
        Ok(hall) => {
            let mut player = ScriptHall::new(hall);
            let exit = run_lines(alloc, &mut player, source, sink);
            drop(player);
            exit
        }
        Err(_) => Exit::NoMemory,
    }
}

/// A hall that plays a script. Contracts see the hall.
struct ScriptHall {
    hall: SessionHall,
}

impl Drop for ScriptHall {
    fn drop(self) {
        let ScriptHall { hall } = self;
        drop(hall);
    }
}

impl Model for ScriptHall {
    ghost use Rattle.session_hall.specs.Held.{HeldHall};

    ghost Value = { HeldHall };

    ghost view = { λ s. s.hall };
}

impl ScriptHall {
    fn new(hall: SessionHall) -> Self
        ensures { result ≡ hall }
    {
        ScriptHall { hall }
    }
}

impl Interpreter for ScriptHall {
    ghost use Rattle.any_game.specs.GameKind.{GameKind};
    ghost use Rattle.hall_history.specs.Hall.{Hall};
    ghost use Rattle.hall_history.specs.Mark.{Mark as LineMark};
    ghost use Rattle.hall_history.specs.Script.{Step as ScriptStep};
    ghost use Rattle.script_steps.specs.ScriptDoing.{script_doing};
    ghost use Rattle.world_script.specs.ScriptPlay.{script_play};
    ghost use Rattle.world_script.specs.ScriptLaws.{script_is_played};

    ghost Mark = { LineMark };

    ghost Step = { ScriptStep };

    ghost State = { Hall GameKind };

    ghost play = { script_play };

    ghost doing = { script_doing };

    ghost one_by_one = { script_is_played };

    fn run_line(&mut self, _alloc: Global, line: &[u8], text: &mut Vec<u8>) -> Result<(), LineNo> {
        match step_of(line) {
            Some(step) => ended(do_step(&mut self.hall, text, step)),
            None => Err(LineNo::BadLine),
        }
    }
}
