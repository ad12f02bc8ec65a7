//! What a player sends: the line that asks for the stream of the match, and the lines of its actions.

ghost use Rattle.std.specs.Prelude.{◌≡◌, ◌≤◌, IfOk, IsSome, is_some};
ghost use Rattle.board_links.specs.Answers.{AreLines};
ghost use Rattle.board_links.specs.Pieces.{told_bytes};
ghost use Rattle.link_play.specs.Acting.{ActsOn};
ghost use Rattle.link_play.specs.Counts.{StopRaises, StopShows};
ghost use Rattle.link_play.specs.Doing.{sync_line};
ghost use Rattle.link_play.specs.Pieces.{SendRaises, Sends};
ghost use Rattle.link_play.specs.Sitting.{Tell, sitting};
ghost use Rattle.wire_json.specs.Asking.{IsAskable};

use crate::printing::print;
use crate::stop::Stop;
use crate::telling::{act_no_line, predicted_line};
use board_links::{Link, Out, Sink};
use client_predict::Client;
use game_sheet::{MatchName, NoMemory, Viewer};
use game_trait::Game;
use std::alloc::Global;
use std::sync::Wait;
use wire_json::{Asked, ClientMsg, Protocol, write_client};

/// Sends a line.
fn send<L: Link, R: Wait>(rt: &R, link: &mut L, line: &[u8]) -> Result<(), Stop>
    requires { AreLines line.now }
    ensures never_falls { L.faults link.old ≤ L.faults link.new }
    ensures raises { SendRaises result (L.faults link.old) (L.faults link.new) }
    ensures stage { L.stage link.new ≡ L.stage link.old }
    ensures answers { L.answers link.new ≡ L.answers link.old }
    ensures tells { is_some (L.sent link.new) ≡ is_some (L.sent link.old) }
    ensures told { IsSome (L.sent link.old) → Sends result line.now (told_bytes (L.sent link.old)) (told_bytes (L.sent link.new)) }
{
    match link.send(rt, line) {
        Out::Done => Ok(()),
        Out::Failed => Err(Stop::LinkFault),
        Out::NoMemory => Err(Stop::NoMemory),
    }
}

/// The line that asks for the stream of a match.
fn sync_line(alloc: Global, name: MatchName, viewer: Viewer) -> Result<Vec<u8>, NoMemory>
    ensures { IfOk result (λ line. line.items ≡ sync_line (record { name = name; viewer = viewer })) }
{
    let message = ClientMsg::Sync {
        name,
        viewer,
        protocol: Protocol::One,
    };
    let line = write_client(alloc, &message);
    drop(message);
    line
}

/// Asks for the stream of the match.
pub(crate) fn sync<L: Link, R: Wait>(
    rt: &R,
    alloc: Global,
    link: &mut L,
    name: MatchName,
    viewer: Viewer,
) -> Result<(), Stop>
    ensures never_falls { L.faults link.old ≤ L.faults link.new }
    ensures raises { SendRaises result (L.faults link.old) (L.faults link.new) }
    ensures stage { L.stage link.new ≡ L.stage link.old }
    ensures answers { L.answers link.new ≡ L.answers link.old }
    ensures tells { is_some (L.sent link.new) ≡ is_some (L.sent link.old) }
    ensures told { IsSome (L.sent link.old) → Sends result (sync_line (record { name = name; viewer = viewer })) (told_bytes (L.sent link.old)) (told_bytes (L.sent link.new)) }
{
    match sync_line(alloc, name, viewer) {
        Ok(line) => {
            let sent = send(rt, link, line.as_slice());
            drop(line);
            sent
        }
        Err(NoMemory) => Err(Stop::NoMemory),
    }
}

/// Makes an action, sends its line, and prints what came of it.
pub(crate) fn act<X: Game + Drop, K: Sink, L: Link, R: Wait>(
    rt: &R,
    player: &mut Client<X>,
    sink: &mut K,
    link: &mut L,
    asked: &Asked,
) -> Result<(), Stop>
    requires { IsAskable asked.now }
    ensures game { player.new.game ≡ player.old.game }
    ensures key { player.new.key ≡ player.old.key }
    ensures sink_never_falls { K.faults sink.old ≤ K.faults sink.new }
    ensures link_never_falls { L.faults link.old ≤ L.faults link.new }
    ensures raises { StopRaises result (K.faults sink.old) (K.faults sink.new) (L.faults link.old) (L.faults link.new) }
    ensures shows { StopShows result (L.stage link.new) }
    ensures tell { Tell (K.held sink.old) (L.sent link.old) (L.answers link.old) → Tell (K.held sink.new) (L.sent link.new) (L.answers link.new) }
    ensures acts { Tell (K.held sink.old) (L.sent link.old) (L.answers link.old)
        → ActsOn (X.rules player.old.game) player.old.key asked.now result (sitting player.old.client (K.held sink.old) (L.sent link.old) (L.answers link.old))
        (sitting player.new.client (K.held sink.new) (L.sent link.new) (L.answers link.new)) }
{
    match player.act(asked) {
        Ok((line, predicted)) => {
            let sent = send(rt, link, line.as_slice());
            drop(line);
            match sent {
                Ok(()) => print(sink, predicted_line(predicted).as_bytes()),
                Err(why) => Err(why),
            }
        }
        Err(why) => print(sink, act_no_line(why).as_bytes()),
    }
}
