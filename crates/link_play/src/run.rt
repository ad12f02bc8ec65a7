//! Plays a match over a link, by the commands of a source.

ghost use Rattle.std.specs.Prelude.{◌≡◌, ◌≤◌, IsSome};
ghost use Rattle.board_links.specs.Faults.{HasRisen};
ghost use Rattle.board_links.specs.Pieces.{told_bytes};
ghost use Rattle.board_links.specs.declared.link.Stage.TheVariants as at;
ghost use Rattle.link_play.specs.Counts.{ExitRaises, ExitShows};
ghost use Rattle.link_play.specs.Doing.{Who, key_of, sync_line};
ghost use Rattle.link_play.specs.Ends.{AreInForm, Ends, IsComplete};
ghost use Rattle.link_play.specs.Exits.{end_at, stopped};
ghost use Rattle.link_play.specs.Sitting.{Sitting, Tell, sends, sitting};

use crate::acting::sync;
use crate::doing::run_line;
use crate::stop::{LineStatus, Stop};
use board_links::{Link, Sink, Source};
use client_predict::Client;
use game_sheet::{MatchName, Viewer};
use game_trait::Game;
use line_runner::{Exit, Lines, stop_at};
use std::alloc::Global;
use std::sync::Wait;

/// Plays a match over a link: asks for its stream, and then does the commands of a source, line by line.
///
/// `Done` comes where the source was read to its end or `end` was read; `BadLine` exactly where that line is the first in no form, `TooLong`
/// exactly where that line is the first of more than 65,536 bytes, and `TooMany` exactly where a byte follows the 1,000,000th newline, each
/// where nothing before ends the run; `LinkEnded` and `LinkLong` exactly where the link answered that it has ended or that a line is too
/// long; a fault exactly where its count of faults rose. What was done before has been printed and sent. An action for which there is no
/// memory is answered so, and the run goes on; at any other want of memory it ends.
pub fn play_match<X: Game + Drop, S: Source, K: Sink, L: Link, R: Wait>(
    rt: &R,
    alloc: Global,
    player: &mut Client<X>,
    name: MatchName,
    viewer: Viewer,
    source: &mut S,
    sink: &mut K,
    link: &mut L,
) -> Exit
    requires { player.old.key ≡ key_of viewer }
    ensures source_never_falls { S.faults source.old ≤ S.faults source.new }
    ensures sink_never_falls { K.faults sink.old ≤ K.faults sink.new }
    ensures link_never_falls { L.faults link.old ≤ L.faults link.new }
    ensures raises { ExitRaises result (S.faults source.old) (S.faults source.new) (K.faults sink.old) (K.faults sink.new) (L.faults link.old) (L.faults link.new) }
    ensures shows { ExitShows result (L.stage link.new) }
    ensures ends { IsSome (S.left source.old) → Tell (K.held sink.old) (L.sent link.old) (L.answers link.old)
        → Ends (X.rules player.old.game) (record { name = name; viewer = viewer }) result (told_bytes (S.left source.old)) (told_bytes (S.left source.new))
        (sitting player.old.client (K.held sink.old) (L.sent link.old) (L.answers link.old)) (sitting player.new.client (K.held sink.new) (L.sent link.new) (L.answers link.new)) }
    ensures completes { IsSome (S.left source.old) → Tell (K.held sink.old) (L.sent link.old) (L.answers link.old) → AreInForm (told_bytes (S.left source.old))
        → (HasRisen (S.faults source.old) (S.faults source.new) → ⊥) → (HasRisen (K.faults sink.old) (K.faults sink.new) → ⊥)
        → (HasRisen (L.faults link.old) (L.faults link.new) → ⊥) → L.stage link.new ≡ at.Open → IsComplete result }
{
    begin(rt, alloc, player, name, viewer, source, sink, link)
}

/// Asks for the stream of the match, and does the commands.
fn begin<X: Game + Drop, S: Source, K: Sink, L: Link, R: Wait>(
    rt: &R,
    alloc: Global,
    player: &mut Client<X>,
    name: MatchName,
    viewer: Viewer,
    source: &mut S,
    sink: &mut K,
    link: &mut L,
) -> Exit
    requires { player.old.key ≡ key_of viewer }
    ensures source_never_falls { S.faults source.old ≤ S.faults source.new }
    ensures sink_never_falls { K.faults sink.old ≤ K.faults sink.new }
    ensures link_never_falls { L.faults link.old ≤ L.faults link.new }
    ensures raises { ExitRaises result (S.faults source.old) (S.faults source.new) (K.faults sink.old) (K.faults sink.new) (L.faults link.old) (L.faults link.new) }
    ensures shows { ExitShows result (L.stage link.new) }
    ensures ends { IsSome (S.left source.old) → Tell (K.held sink.old) (L.sent link.old) (L.answers link.old)
        → Ends (X.rules player.old.game) (record { name = name; viewer = viewer }) result (told_bytes (S.left source.old)) (told_bytes (S.left source.new))
        (sitting player.old.client (K.held sink.old) (L.sent link.old) (L.answers link.old)) (sitting player.new.client (K.held sink.new) (L.sent link.new) (L.answers link.new)) }
{
    match sync(rt, alloc, link, name, viewer) {
        Ok(()) => play_lines(rt, alloc, player, source, sink, link),
        Err(why) => stopped(why),
    }
}

/// Does the commands of a source, line by line, once the stream was asked for.
#[tactic(none)]
fn play_lines<X: Game + Drop, S: Source, K: Sink, L: Link, R: Wait>(
    rt: &R,
    alloc: Global,
    player: &mut Client<X>,
    source: &mut S,
    sink: &mut K,
    link: &mut L,
) -> Exit
    ensures source_never_falls { S.faults source.old ≤ S.faults source.new }
    ensures sink_never_falls { K.faults sink.old ≤ K.faults sink.new }
    ensures link_never_falls { L.faults link.old ≤ L.faults link.new }
    ensures raises { ExitRaises result (S.faults source.old) (S.faults source.new) (K.faults sink.old) (K.faults sink.new) (L.faults link.old) (L.faults link.new) }
    ensures shows { ExitShows result (L.stage link.new) }
    ensures ends { IsSome (S.left source.old) → Tell (K.held sink.old) (L.sent link.old) (L.answers link.old)
        → (who : Who) (first : Sitting X.G) → player.old.key ≡ key_of who.viewer
        → sitting player.old.client (K.held sink.old) (L.sent link.old) (L.answers link.old) ≡ sends first (sync_line who)
        → Ends (X.rules player.old.game) who result (told_bytes (S.left source.old)) (told_bytes (S.left source.new))
        first (sitting player.new.client (K.held sink.new) (L.sent link.new) (L.answers link.new)) }
{
    let mut lines = Lines::new(alloc);
    'lines: loop {
        let next = lines.next_line(source);
        if let Some(exit) = stop_at(next, lines.given()) {
            return exit;
        }
        let ran = run_line(rt, alloc, player, sink, link, lines.line());
        if let Some(exit) = end_at(ran, lines.given()) {
            return exit;
        }
    }
}

/// The end where a command was broken off.
fn stopped(why: Stop) -> Exit
    ensures { result ≡ stopped why }
{
    match why {
        Stop::WriteFault => Exit::WriteFault,
        Stop::LinkFault => Exit::LinkFault,
        Stop::LinkEnded => Exit::LinkEnded,
        Stop::LinkLong => Exit::LinkLong,
        Stop::NoMemory => Exit::NoMemory,
    }
}

/// The end at a line, if it ends there.
fn end_at(ran: LineStatus, line: u32) -> Option<Exit>
    ensures { result ≡ end_at ran line }
{
    match ran {
        LineStatus::Done => None,
        LineStatus::Ended => Some(Exit::Done),
        LineStatus::BadLine => Some(Exit::BadLine { line }),
        LineStatus::Unread => Some(Exit::NoMemory),
        LineStatus::Stopped(why) => Some(stopped(why)),
    }
}
