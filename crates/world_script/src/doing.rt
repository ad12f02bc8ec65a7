//! Does the steps of a script in a hall of rooms and sessions.

ghost use Rattle.std.specs.Prelude.{◌<◌, OnOk};
ghost use Rattle.any_game.specs.GameKind.{GameKind};
ghost use Rattle.hall_history.specs.Hall.{Hall};
ghost use Rattle.hall_history.specs.Script.{Opens, Says, Takes, Detaches};
ghost use Rattle.hall_history.specs.Tapes.{hall_tape};
ghost use Rattle.session_hall.specs.Held.{StandsForHall};
ghost use Rattle.line_runner.specs.Play.{Does};
ghost use Rattle.script_steps.specs.ScriptDoing.{script_doing};
ghost use Rattle.script_steps.specs.StepIs.{HasPass, step_is};

use game_sheet::NoMemory;
use script_steps::{Step, put_lines, put_opened, put_reply};
use session_hall::SessionHall;

/// Does a step, and adds what it prints to a text.
///
/// After want of memory the hall may have gone on, and no more is known of it: the run ends.
pub fn do_step(hall: &mut SessionHall, text: &mut Vec<u8>, step: Step<'_>) -> Result<(), NoMemory>
    requires { HasPass step }
    ensures { (h : Hall GameKind) → StandsForHall hall_tape hall.old h → OnOk result (Does script_doing h (step_is step.entry) hall.new text.old.items text.new.items) }
{
    match step {
        Step::Nothing => Ok(()),
        Step::Seeds { seed } => {
            hall.set_seed(seed);
            Ok(())
        }
        Step::Opens { game, seats } => open(hall, text, game, seats),
        Step::Says { pass, line } => say(hall, text, pass, line),
        Step::Takes { pass } => take(hall, text, pass),
        Step::Detaches { pass } => detach(hall, text, pass),
    }
}

/// Opens a match with a player at each seat.
fn open(hall: &mut SessionHall, text: &mut Vec<u8>, game: &str, seats: u8) -> Result<(), NoMemory>
    ensures { (h : Hall GameKind) → StandsForHall hall_tape hall.old h → OnOk result (Does script_doing h (Opens game.now seats) hall.new text.old.items text.new.items) }
{
    let made = hall.open(game, seats)?;
    put_opened(text, made)
}

/// Hears a session's line.
fn say(hall: &mut SessionHall, text: &mut Vec<u8>, pass: u8, line: &[u8]) -> Result<(), NoMemory>
    requires { pass < 32 }
    ensures { (h : Hall GameKind) → StandsForHall hall_tape hall.old h → OnOk result (Does script_doing h (Says pass line.now) hall.new text.old.items text.new.items) }
{
    let said = hall.on_line(pass, line);
    let put = put_lines(text, pass, &said.line);
    drop(said);
    put
}

/// Takes what waits for a session.
fn take(hall: &mut SessionHall, text: &mut Vec<u8>, pass: u8) -> Result<(), NoMemory>
    requires { pass < 32 }
    ensures { (h : Hall GameKind) → StandsForHall hall_tape hall.old h → OnOk result (Does script_doing h (Takes pass) hall.new text.old.items text.new.items) }
{
    let reply = hall.take(pass);
    let put = put_reply(text, pass, &reply);
    drop(reply);
    put
}

/// Ends a session's attachment.
fn detach(hall: &mut SessionHall, text: &mut Vec<u8>, pass: u8) -> Result<(), NoMemory>
    requires { pass < 32 }
    ensures { (h : Hall GameKind) → StandsForHall hall_tape hall.old h → OnOk result (Does script_doing h (Detaches pass) hall.new text.old.items text.new.items) }
{
    let reply = hall.detach(pass);
    let put = put_reply(text, pass, &reply);
    drop(reply);
    put
}
