//! Runs worlds.

ghost use Rattle.std.specs.Prelude.{◌≡◌, ◌≤◌, IsSome, OnOk};
ghost use Rattle.any_game.specs.GameKind.{GameKind};
ghost use Rattle.any_game.specs.declared.any_g.AnyG.{AnyG};
ghost use Rattle.board_links.specs.Faults.{HasRisen};
ghost use Rattle.board_links.specs.Pieces.{told_bytes};
ghost use Rattle.client_world.specs.IsWorld.{IsWorld};
ghost use Rattle.client_world.specs.Steps.{IsRunnable, step_of};
ghost use Rattle.hall_history.specs.Tapes.{hall_tape};
ghost use Rattle.world_history.specs.World.{World};
ghost use Rattle.world_script.specs.Converging.{ConvergesIn, telling};
ghost use Rattle.line_runner.specs.Play.{Does};
ghost use Rattle.line_runner.specs.Running.{AreInForm, EndsOver, ExitRaises, IsComplete};
ghost use Rattle.world_script.specs.Deliveries.{first_world};
ghost use Rattle.world_script.specs.WorldDoing.{world_doing};
ghost use Rattle.world_script.specs.WorldPlay.{world_play};

use board_links::{Sink, Source};
use client_world::{ClientWorld, WorldStep, read_world_step};
use game_sheet::NoMemory;
use line_runner::{Exit, Interpreter, LineNo, ended, run_lines};
use std::alloc::Global;
use std::marker::Model;
use world_convergence::worlds_of_all_games_converge;

/// How many rooms a world has.
const ROOMS: u8 = 8;

/// Runs the world of a source over eight rooms, and prints its transcript into a sink.
///
/// It ends as a script's run does. A client's action for which there is no memory is answered so, and so is a line that arrives at a
/// session; at any other want of memory the run ends. However the lines go, `ends` says that the clients that they make see
/// their matches.
pub fn run_world<S: Source, K: Sink>(alloc: Global, source: &mut S, sink: &mut K) -> Exit
    ensures source_never_falls { S.faults source.old ≤ S.faults source.new }
    ensures sink_never_falls { K.faults sink.old ≤ K.faults sink.new }
    ensures raises { ExitRaises result (S.faults source.old) (S.faults source.new) (K.faults sink.old) (K.faults sink.new) }
    ensures ends { IsSome (S.left source.old)
        → EndsOver (telling world_play ConvergesIn) first_world (told_bytes (S.left source.old)) (told_bytes (S.left source.new)) (K.held sink.old) (K.held sink.new) result }
    ensures completes { IsSome (S.left source.old) → AreInForm world_play (told_bytes (S.left source.old))
        → (HasRisen (S.faults source.old) (S.faults source.new) → ⊥) → (HasRisen (K.faults sink.old) (K.faults sink.new) → ⊥) → IsComplete result }
{
    worlds_of_all_games_converge();
    match ClientWorld::new(alloc, ROOMS, [0; 32]) {
        Ok(world) => {
            let mut player = WorldPlayer::new(world);
            let exit = run_lines(alloc, &mut player, source, sink);
            drop(player);
            exit
        }
        Err(_) => Exit::NoMemory,
    }
}

/// A world that is played line by line. Contracts see the world.
struct WorldPlayer {
    world: ClientWorld,
}

impl Drop for WorldPlayer {
    fn drop(self) {
        let WorldPlayer { world } = self;
        drop(world);
    }
}

impl Model for WorldPlayer {
    ghost use Rattle.client_world.specs.IsWorld.{HeldWorld};

    ghost Value = { HeldWorld };

    ghost view = { λ p. p.world };
}

impl WorldPlayer {
    fn new(world: ClientWorld) -> Self
        ensures { result ≡ world }
    {
        WorldPlayer { world }
    }
}

impl Interpreter for WorldPlayer {
    ghost use Rattle.any_game.specs.GameKind.{GameKind};
    ghost use Rattle.any_game.specs.declared.any_g.AnyG.{AnyG};
    ghost use Rattle.world_history.specs.World.{Step as WorldLine, World};
    ghost use Rattle.hall_history.specs.Mark.{Mark as LineMark};
    ghost use Rattle.world_script.specs.WorldDoing.{world_doing};
    ghost use Rattle.world_script.specs.WorldPlay.{world_play};
    ghost use Rattle.world_script.specs.WorldLaws.{world_is_played};

    ghost Mark = { LineMark };

    ghost Step = { WorldLine GameKind };

    ghost State = { World GameKind AnyG };

    ghost play = { world_play };

    ghost doing = { world_doing };

    ghost one_by_one = { world_is_played };

    fn run_line(&mut self, alloc: Global, line: &[u8], text: &mut Vec<u8>) -> Result<(), LineNo> {
        match read_world_step(alloc, line) {
            Ok(Some(step)) => ended(do_step(&mut self.world, text, step)),
            Ok(None) => Err(LineNo::BadLine),
            Err(_) => Err(LineNo::NoMemory),
        }
    }
}

/// Does a step, and adds what it prints to a text.
///
/// After want of memory the world may have gone on, and no more is known of it: the run ends.
fn do_step(world: &mut ClientWorld, text: &mut Vec<u8>, step: WorldStep) -> Result<(), NoMemory>
    requires { IsRunnable step }
    ensures { (w : World GameKind AnyG) → IsWorld hall_tape world.old w → OnOk result (Does world_doing w (step_of step) world.new text.old.items text.new.items) }
{
    let said = world.run(step)?;
    Ok(text.extend_from_slice(said.as_slice())?)
}
