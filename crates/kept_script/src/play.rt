//! The steps of a script over a room that keeps its changes.

ghost use Rattle.std.specs.Prelude.{◌≡◌, ◌<◌};
ghost use Rattle.any_game.specs.GameKind.{GameKind};
ghost use Rattle.hall_history.specs.Hall.{Hall};
ghost use Rattle.hall_history.specs.Script.{Opens, Says, Takes, Detaches};
ghost use Rattle.hall_history.specs.Tapes.{hall_tape};
ghost use Rattle.session_hall.specs.Held.{StandsForHall};
ghost use Rattle.script_steps.specs.StepIs.{HasPass, step_is};
ghost use Rattle.kept_script.specs.KeptPlay.{ended_unless, hall_of};
ghost use Rattle.kept_script.specs.Moving.{MovesByStep};

use crate::hall::KeptHall;
use game_sheet::NoMemory;
use line_runner::{Interpreter, LineNo};
use room_disk::Disk;
use script_steps::{Step, put_lines, put_opened, put_reply, step_of};
use std::alloc::Global;

/// Does a step, and adds what it prints to a text.
fn do_step<D: Disk + Drop>(
    hall: &mut KeptHall<D>,
    text: &mut Vec<u8>,
    step: Step<'_>,
) -> Result<(), NoMemory>
    requires pass { HasPass step }
    requires first { hall.old.room.object.room ≡ 0 }
    requires stands { (h : Hall GameKind) × StandsForHall hall_tape (hall_of hall.old) h }
    ensures done { MovesByStep D.is_told D.seen D.may_leave D.moment D.left_since D.faults hall.old hall.new (step_is step.entry) text.old.items text.new.items result }
{
    match step {
        Step::Nothing => Ok(()),
        Step::Seeds { seed } => {
            hall.set_seed(seed);
            Ok(())
        }
        Step::Opens { game, seats } => open(hall, text, game, seats),
        Step::Says { pass, line } => say(hall, text, pass, line),
        Step::Takes { pass } => take(hall, text, pass),
        Step::Detaches { pass } => detach(hall, text, pass),
    }
}

/// Opens a match with a player at each seat.
fn open<D: Disk + Drop>(
    hall: &mut KeptHall<D>,
    text: &mut Vec<u8>,
    game: &str,
    seats: u8,
) -> Result<(), NoMemory>
    requires first { hall.old.room.object.room ≡ 0 }
    requires stands { (h : Hall GameKind) × StandsForHall hall_tape (hall_of hall.old) h }
    ensures done { MovesByStep D.is_told D.seen D.may_leave D.moment D.left_since D.faults hall.old hall.new (Opens game.now seats) text.old.items text.new.items result }
{
    match hall.open(game, seats) {
        Ok(made) => put_opened(text, made),
        Err(_) => Err(NoMemory),
    }
}

/// Hears a session's line.
fn say<D: Disk + Drop>(
    hall: &mut KeptHall<D>,
    text: &mut Vec<u8>,
    pass: u8,
    line: &[u8],
) -> Result<(), NoMemory>
    requires there { pass < 32 }
    requires first { hall.old.room.object.room ≡ 0 }
    requires stands { (h : Hall GameKind) × StandsForHall hall_tape (hall_of hall.old) h }
    ensures done { MovesByStep D.is_told D.seen D.may_leave D.moment D.left_since D.faults hall.old hall.new (Says pass line.now) text.old.items text.new.items result }
{
    let said = hall.on_line(pass, line);
    let put = put_lines(text, pass, &said.line);
    drop(said);
    put
}

/// Takes what waits for a session.
fn take<D: Disk + Drop>(
    hall: &mut KeptHall<D>,
    text: &mut Vec<u8>,
    pass: u8,
) -> Result<(), NoMemory>
    requires there { pass < 32 }
    requires first { hall.old.room.object.room ≡ 0 }
    requires stands { (h : Hall GameKind) × StandsForHall hall_tape (hall_of hall.old) h }
    ensures done { MovesByStep D.is_told D.seen D.may_leave D.moment D.left_since D.faults hall.old hall.new (Takes pass) text.old.items text.new.items result }
{
    let reply = hall.take(pass);
    let put = put_reply(text, pass, &reply);
    drop(reply);
    put
}

/// Ends a session's attachment.
fn detach<D: Disk + Drop>(
    hall: &mut KeptHall<D>,
    text: &mut Vec<u8>,
    pass: u8,
) -> Result<(), NoMemory>
    requires there { pass < 32 }
    requires first { hall.old.room.object.room ≡ 0 }
    requires stands { (h : Hall GameKind) × StandsForHall hall_tape (hall_of hall.old) h }
    ensures done { MovesByStep D.is_told D.seen D.may_leave D.moment D.left_since D.faults hall.old hall.new (Detaches pass) text.old.items text.new.items result }
{
    let reply = hall.detach(pass);
    let put = put_reply(text, pass, &reply);
    drop(reply);
    put
}

impl<D: Disk + Drop> Interpreter for KeptHall<D> {
    ghost use Rattle.hall_history.specs.Mark.{Mark as LineMark};
    ghost use Rattle.hall_history.specs.Script.{Step as ScriptStep};
    ghost use Rattle.kept_script.specs.KeptDoing.{kept_doing};
    ghost use Rattle.kept_script.specs.KeptLaws.{kept_is_played};
    ghost use Rattle.kept_script.specs.KeptPlay.{KeptState, kept_play};

    ghost Mark = { LineMark };

    ghost Step = { ScriptStep };

    ghost State = { KeptState D };

    ghost play = { kept_play };

    ghost doing = { kept_doing D.is_told D.seen D.may_leave D.moment D.left_since D.faults };

    ghost one_by_one = { kept_is_played D.is_told D.seen D.may_leave D.moment D.left_since D.faults };

    fn run_line(&mut self, _alloc: Global, line: &[u8], text: &mut Vec<u8>) -> Result<(), LineNo> {
        match step_of(line) {
            Some(step) => {
                let done = do_step(self, text, step);
                ended(done, self.room.stopped.is_some())
            }
            None => Err(LineNo::BadLine),
        }
    }
}

/// What a line comes to where its step was done, by whether the room has stopped.
fn ended(done: Result<(), NoMemory>, stopped: bool) -> Result<(), LineNo>
    ensures { result ≡ ended_unless stopped done }
{
    match done {
        Ok(()) => {
            if stopped {
                Err(LineNo::NoMemory)
            } else {
                Ok(())
            }
        }
        Err(_) => Err(LineNo::NoMemory),
    }
}
