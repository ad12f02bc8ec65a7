//! What a player hears from the link: one answer, the lines that come at once, and the next line.

ghost use Rattle.std.specs.Prelude.{◌≡◌, ◌≤◌, IfOk, IsSome};
ghost use Rattle.board_links.specs.Pieces.{told_bytes};
ghost use Rattle.link_play.specs.Counts.{StopRaises, StopShows};
ghost use Rattle.link_play.specs.Doing.{ReadsLines, WaitsForLine};
ghost use Rattle.link_play.specs.Hearing.{HearsOne, ReadsOn, WaitsOn};
ghost use Rattle.link_play.specs.Pieces.{TakesIn, TakesRaises};
ghost use Rattle.link_play.specs.Sitting.{Tell, sitting};

use crate::printing::print;
use crate::stop::Stop;
use crate::telling::heard_line;
use board_links::{Came, Link, Sink};
use client_predict::{Client, FeedNo};
use game_sheet::{Bytes, NoMemory};
use game_trait::Game;
use std::alloc::Global;
use std::sync::Wait;

/// How many lines a `read` takes at most.
const MOST_LINES: u32 = 1_000;

/// How many times a `wait` finds the link quiet at most.
const MOST_QUIET: u32 = 10_000;

/// What the link gave.
#[derive(Clone, Copy)]
pub enum Given {
    /// A line, which was read.
    Line,
    /// Nothing.
    Quiet,
}

/// The bytes of a line in one piece.
fn gathered(alloc: Global, line: &Bytes) -> Result<Vec<u8>, NoMemory>
    ensures { IfOk result (λ bytes. bytes.items ≡ line.now) }
{
    let mut bytes = Vec::new(alloc);
    for place in 0..line.count() {
        bytes.extend_from_slice(line.piece(place))?;
    }
    Ok(bytes)
}

/// Has the client read a line, and prints what came of it.
fn take_bytes<X: Game + Drop, K: Sink>(
    player: &mut Client<X>,
    sink: &mut K,
    line: &[u8],
) -> Result<(), Stop>
    ensures game { player.new.game ≡ player.old.game }
    ensures key { player.new.key ≡ player.old.key }
    ensures never_falls { K.faults sink.old ≤ K.faults sink.new }
    ensures raises { TakesRaises result (K.faults sink.old) (K.faults sink.new) }
    ensures tells { IsSome (K.held sink.old) → IsSome (K.held sink.new) }
    ensures takes { IsSome (K.held sink.old) → TakesIn (X.rules player.old.game) line.now result player.old.client player.new.client
        (told_bytes (K.held sink.old)) (told_bytes (K.held sink.new)) }
{
    match player.feed(line) {
        Err(FeedNo::NoMemory) => Err(Stop::NoMemory),
        heard => print(sink, heard_line(heard).as_bytes()),
    }
}

/// Has the client read a line that the link gave.
fn take_in<X: Game + Drop, K: Sink>(
    alloc: Global,
    player: &mut Client<X>,
    sink: &mut K,
    line: &Bytes,
) -> Result<(), Stop>
    ensures game { player.new.game ≡ player.old.game }
    ensures key { player.new.key ≡ player.old.key }
    ensures never_falls { K.faults sink.old ≤ K.faults sink.new }
    ensures raises { TakesRaises result (K.faults sink.old) (K.faults sink.new) }
    ensures tells { IsSome (K.held sink.old) → IsSome (K.held sink.new) }
    ensures takes { IsSome (K.held sink.old) → TakesIn (X.rules player.old.game) line.now result player.old.client player.new.client
        (told_bytes (K.held sink.old)) (told_bytes (K.held sink.new)) }
{
    if let Some(bytes) = line.whole() {
        return take_bytes(player, sink, bytes);
    }
    match gathered(alloc, line) {
        Ok(bytes) => {
            let taken = take_bytes(player, sink, bytes.as_slice());
            drop(bytes);
            taken
        }
        Err(NoMemory) => Err(Stop::NoMemory),
    }
}

/// Asks the link for a line, and has the client read it.
fn hear<X: Game + Drop, K: Sink, L: Link, R: Wait>(
    rt: &R,
    alloc: Global,
    player: &mut Client<X>,
    sink: &mut K,
    link: &mut L,
) -> Result<Given, Stop>
    ensures game { player.new.game ≡ player.old.game }
    ensures key { player.new.key ≡ player.old.key }
    ensures sink_never_falls { K.faults sink.old ≤ K.faults sink.new }
    ensures link_never_falls { L.faults link.old ≤ L.faults link.new }
    ensures raises { StopRaises result (K.faults sink.old) (K.faults sink.new) (L.faults link.old) (L.faults link.new) }
    ensures shows { StopShows result (L.stage link.new) }
    ensures tell { Tell (K.held sink.old) (L.sent link.old) (L.answers link.old) → Tell (K.held sink.new) (L.sent link.new) (L.answers link.new) }
    ensures hears { Tell (K.held sink.old) (L.sent link.old) (L.answers link.old)
        → HearsOne (X.rules player.old.game) result (sitting player.old.client (K.held sink.old) (L.sent link.old) (L.answers link.old))
        (sitting player.new.client (K.held sink.new) (L.sent link.new) (L.answers link.new)) }
{
    match link.receive(rt) {
        Came::Line(line) => {
            let taken = take_in(alloc, player, sink, &line);
            drop(line);
            match taken {
                Ok(()) => Ok(Given::Line),
                Err(why) => Err(why),
            }
        }
        Came::Quiet => Ok(Given::Quiet),
        Came::Ended => Err(Stop::LinkEnded),
        Came::TooLong => Err(Stop::LinkLong),
        Came::Failed => Err(Stop::LinkFault),
        Came::NoMemory => Err(Stop::NoMemory),
    }
}

/// Reads lines until the link is quiet, and no more than 1,000.
pub(crate) fn read_lines<X: Game + Drop, K: Sink, L: Link, R: Wait>(
    rt: &R,
    alloc: Global,
    player: &mut Client<X>,
    sink: &mut K,
    link: &mut L,
) -> Result<(), Stop>
    ensures game { player.new.game ≡ player.old.game }
    ensures key { player.new.key ≡ player.old.key }
    ensures sink_never_falls { K.faults sink.old ≤ K.faults sink.new }
    ensures link_never_falls { L.faults link.old ≤ L.faults link.new }
    ensures raises { StopRaises result (K.faults sink.old) (K.faults sink.new) (L.faults link.old) (L.faults link.new) }
    ensures shows { StopShows result (L.stage link.new) }
    ensures tell { Tell (K.held sink.old) (L.sent link.old) (L.answers link.old) → Tell (K.held sink.new) (L.sent link.new) (L.answers link.new) }
    ensures reads { Tell (K.held sink.old) (L.sent link.old) (L.answers link.old)
        → ReadsOn (X.rules player.old.game) result (sitting player.old.client (K.held sink.old) (L.sent link.old) (L.answers link.old))
        (sitting player.new.client (K.held sink.new) (L.sent link.new) (L.answers link.new)) }
{
    for _taken in 0..MOST_LINES {
        match hear(rt, alloc, player, sink, link) {
            Ok(Given::Line) => {}
            Ok(Given::Quiet) => return Ok(()),
            Err(why) => return Err(why),
        }
    }
    Ok(())
}

/// Reads one line, and waits for it until the link was quiet 10,000 times.
pub(crate) fn wait_for_line<X: Game + Drop, K: Sink, L: Link, R: Wait>(
    rt: &R,
    alloc: Global,
    player: &mut Client<X>,
    sink: &mut K,
    link: &mut L,
) -> Result<(), Stop>
    ensures game { player.new.game ≡ player.old.game }
    ensures key { player.new.key ≡ player.old.key }
    ensures sink_never_falls { K.faults sink.old ≤ K.faults sink.new }
    ensures link_never_falls { L.faults link.old ≤ L.faults link.new }
    ensures raises { StopRaises result (K.faults sink.old) (K.faults sink.new) (L.faults link.old) (L.faults link.new) }
    ensures shows { StopShows result (L.stage link.new) }
    ensures tell { Tell (K.held sink.old) (L.sent link.old) (L.answers link.old) → Tell (K.held sink.new) (L.sent link.new) (L.answers link.new) }
    ensures waits { Tell (K.held sink.old) (L.sent link.old) (L.answers link.old)
        → WaitsOn (X.rules player.old.game) result (sitting player.old.client (K.held sink.old) (L.sent link.old) (L.answers link.old))
        (sitting player.new.client (K.held sink.new) (L.sent link.new) (L.answers link.new)) }
{
    for _times in 0..MOST_QUIET {
        match hear(rt, alloc, player, sink, link) {
            Ok(Given::Line) => return Ok(()),
            Ok(Given::Quiet) => {}
            Err(why) => return Err(why),
        }
    }
    print(sink, b"quiet\n")
}
