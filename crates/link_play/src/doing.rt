//! Does the commands of a player.

ghost use Rattle.std.specs.Prelude.{◌≡◌, ◌≤◌, IsSome};
ghost use Rattle.board_links.specs.Pieces.{told_bytes};
ghost use Rattle.link_play.specs.Asking.{MayAsk};
ghost use Rattle.link_play.specs.Commands.{command_is, command_of};
ghost use Rattle.link_play.specs.Counts.{LineRaises, LineShows, StopRaises, StopShows};
ghost use Rattle.link_play.specs.Doing.{Who, key_of};
ghost use Rattle.link_play.specs.Pieces.{TakesRaises};
ghost use Rattle.link_play.specs.Lines.{RanCommand, RanLine, ShowsOn};
ghost use Rattle.link_play.specs.Sitting.{Tell, sitting};
ghost use Rattle.link_play.specs.Stopping.{Did};

use crate::acting::act;
use crate::command::{Command, command_of};
use crate::hearing::{read_lines, wait_for_line};
use crate::printing::print;
use crate::showing::show_client;
use crate::stop::{LineStatus, Stop};
use board_links::{Link, Sink};
use client_predict::Client;
use game_sheet::NoMemory;
use game_trait::Game;
use std::alloc::Global;
use std::sync::Wait;

/// Prints what the client holds.
fn show<X: Game + Drop, K: Sink>(
    alloc: Global,
    player: &Client<X>,
    sink: &mut K,
) -> Result<(), Stop>
    ensures never_falls { K.faults sink.old ≤ K.faults sink.new }
    ensures raises { TakesRaises result (K.faults sink.old) (K.faults sink.new) }
    ensures tells { IsSome (K.held sink.old) → IsSome (K.held sink.new) }
    ensures shows { IsSome (K.held sink.old) → ShowsOn (X.rules player.now.game) result player.now.client (told_bytes (K.held sink.old)) (told_bytes (K.held sink.new)) }
{
    match show_client(alloc, player) {
        Ok(text) => {
            let shown = print(sink, text.as_slice());
            drop(text);
            shown
        }
        Err(NoMemory) => Err(Stop::NoMemory),
    }
}

/// Does a command.
fn do_command<X: Game + Drop, K: Sink, L: Link, R: Wait>(
    rt: &R,
    alloc: Global,
    player: &mut Client<X>,
    sink: &mut K,
    link: &mut L,
    command: &Command,
) -> Result<(), Stop>
    requires { MayAsk command.now }
    ensures game { player.new.game ≡ player.old.game }
    ensures key { player.new.key ≡ player.old.key }
    ensures sink_never_falls { K.faults sink.old ≤ K.faults sink.new }
    ensures link_never_falls { L.faults link.old ≤ L.faults link.new }
    ensures raises { StopRaises result (K.faults sink.old) (K.faults sink.new) (L.faults link.old) (L.faults link.new) }
    ensures shows { StopShows result (L.stage link.new) }
    ensures tell { Tell (K.held sink.old) (L.sent link.old) (L.answers link.old) → Tell (K.held sink.new) (L.sent link.new) (L.answers link.new) }
    ensures did { Tell (K.held sink.old) (L.sent link.old) (L.answers link.old) → (who : Who) → player.old.key ≡ key_of who.viewer
        → Did (X.rules player.old.game) who (command_is command.now) result (sitting player.old.client (K.held sink.old) (L.sent link.old) (L.answers link.old))
        (sitting player.new.client (K.held sink.new) (L.sent link.new) (L.answers link.new)) }
{
    match command {
        Command::Acts(asked) => act(rt, player, sink, link, asked),
        Command::Reads => read_lines(rt, alloc, player, sink, link),
        Command::Waits => wait_for_line(rt, alloc, player, sink, link),
        Command::Shows => show(alloc, player, sink),
        Command::Nothing | Command::Ends => Ok(()),
    }
}

/// Does what a line asks for.
pub(crate) fn run_line<X: Game + Drop, K: Sink, L: Link, R: Wait>(
    rt: &R,
    alloc: Global,
    player: &mut Client<X>,
    sink: &mut K,
    link: &mut L,
    line: &[u8],
) -> LineStatus
    ensures game { player.new.game ≡ player.old.game }
    ensures key { player.new.key ≡ player.old.key }
    ensures sink_never_falls { K.faults sink.old ≤ K.faults sink.new }
    ensures link_never_falls { L.faults link.old ≤ L.faults link.new }
    ensures raises { LineRaises result (K.faults sink.old) (K.faults sink.new) (L.faults link.old) (L.faults link.new) }
    ensures shows { LineShows result (L.stage link.new) }
    ensures tell { Tell (K.held sink.old) (L.sent link.old) (L.answers link.old) → Tell (K.held sink.new) (L.sent link.new) (L.answers link.new) }
    ensures ran { Tell (K.held sink.old) (L.sent link.old) (L.answers link.old) → (who : Who) → player.old.key ≡ key_of who.viewer
        → RanLine (X.rules player.old.game) who line.now result (sitting player.old.client (K.held sink.old) (L.sent link.old) (L.answers link.old))
        (sitting player.new.client (K.held sink.new) (L.sent link.new) (L.answers link.new)) }
{
    match command_of(alloc, line) {
        Ok(Some(command)) => {
            let status = status_of(rt, alloc, player, sink, link, &command);
            drop(command);
            status
        }
        Ok(None) => LineStatus::BadLine,
        Err(NoMemory) => LineStatus::Unread,
    }
}

/// Does a command, and says what its line comes to.
fn status_of<X: Game + Drop, K: Sink, L: Link, R: Wait>(
    rt: &R,
    alloc: Global,
    player: &mut Client<X>,
    sink: &mut K,
    link: &mut L,
    command: &Command,
) -> LineStatus
    requires { MayAsk command.now }
    ensures game { player.new.game ≡ player.old.game }
    ensures key { player.new.key ≡ player.old.key }
    ensures sink_never_falls { K.faults sink.old ≤ K.faults sink.new }
    ensures link_never_falls { L.faults link.old ≤ L.faults link.new }
    ensures raises { LineRaises result (K.faults sink.old) (K.faults sink.new) (L.faults link.old) (L.faults link.new) }
    ensures shows { LineShows result (L.stage link.new) }
    ensures tell { Tell (K.held sink.old) (L.sent link.old) (L.answers link.old) → Tell (K.held sink.new) (L.sent link.new) (L.answers link.new) }
    ensures ran { Tell (K.held sink.old) (L.sent link.old) (L.answers link.old) → (who : Who) → player.old.key ≡ key_of who.viewer
        → RanCommand (X.rules player.old.game) who (command_is command.now) result (sitting player.old.client (K.held sink.old) (L.sent link.old) (L.answers link.old))
        (sitting player.new.client (K.held sink.new) (L.sent link.new) (L.answers link.new)) }
{
    if let Command::Ends = command {
        return LineStatus::Ended;
    }
    match do_command(rt, alloc, player, sink, link, command) {
        Ok(()) => LineStatus::Done,
        Err(why) => LineStatus::Stopped(why),
    }
}
