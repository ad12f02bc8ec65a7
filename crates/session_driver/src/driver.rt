//! A session's line, and the calls that its request makes in rooms.

ghost use Rattle.std.specs.Prelude.{◌≡◌, ◌≤◌, ◌<◌, ℕ, None, IsSome, if◌then◌else◌};
ghost use Rattle.dice_words.specs.Strip.{begun};
ghost use Rattle.game_hall.specs.Core.{IsSettled, is_again};
ghost use Rattle.game_hall.specs.Kept.{IsNamed};
ghost use Rattle.game_hall.specs.Counts.{accepts, refuses};
ghost use Rattle.room_history.specs.declared.reply.RoomReply.{RoomReply as Told};
ghost use Rattle.session_driver.specs.Bench.{IsAtRest, TurnsToBench};
ghost use Rattle.session_driver.specs.Calls.{did};
ghost use Rattle.session_driver.specs.Hearing.{Hears, HearsLine, HearsReply, RunsOut, draws, side};

use crate::rooms::Rooms;
use crate::tally::{Tally, no_action, sum, tally_of};
use any_game::AnyGame;
use dice_words::Tape;
use game_hall::SessionCore;
use room_history::{RoomCall, RoomReply};
use std::alloc::Global;

/// Gives the core a room's reply. Where there is no memory to go on from it, the core says so.
fn hear_reply(alloc: Global, core: &mut SessionCore, reply: RoomReply)
    requires begun { IsSome core.old.request }
    requires asked { core.old.call ≡ None }
    requires written { core.old.said ≡ None }
    requires named { IsNamed reply }
    ensures hears { HearsReply core.old reply core.new }
    ensures settled { IsSettled core.new.call core.new.request core.new.said }
{
    let _answered = core.answered(alloc, reply);
}

/// Makes a call of the open request, gives its reply to the core, and tells how the action fared, if it was one.
fn ask<M: Rooms>(
    alloc: Global,
    rooms: &mut M,
    core: &mut SessionCore,
    room: u8,
    call: RoomCall<AnyGame>,
) -> Tally
    requires serves { M.serves rooms.old core.old.pass }
    requires there { room < M.many rooms.old }
    requires begun { IsSome core.old.request }
    requires asked { core.old.call ≡ None }
    requires written { core.old.said ≡ None }
    ensures serves { M.serves rooms.new core.old.pass }
    ensures many { M.many rooms.new ≡ M.many rooms.old }
    ensures asks { (told : Told) × M.calls rooms.old core.old.pass (did room call told) rooms.new × HearsReply core.old told core.new × (result.accepted ≡ accepts told) × (result.refused ≡ refuses told) }
    ensures settled { IsSettled core.new.call core.new.request core.new.said }
    ensures few { result.accepted ≤ 1 }
    ensures fewer { result.refused ≤ 1 }
{
    let reply = rooms.call(core.pass(), room, call);
    let tally = tally_of(&reply);
    hear_reply(alloc, core, reply);
    tally
}

/// Makes the calls of the open request, one after another, until it is closed, and tells how its action fared.
fn run<M: Rooms>(alloc: Global, rooms: &mut M, core: &mut SessionCore) -> Tally
    requires serves { M.serves rooms.old core.old.pass }
    requires rooms { core.old.rooms ≡ M.many rooms.old }
    requires settled { IsSettled core.old.call core.old.request core.old.said }
    ensures serves { M.serves rooms.new core.new.pass }
    ensures many { M.many rooms.new ≡ M.many rooms.old }
    ensures rooms { core.new.rooms ≡ core.old.rooms }
    ensures pass { core.new.pass ≡ core.old.pass }
    ensures runs { RunsOut M.calls (side rooms.old core.old) result (side rooms.new core.new) }
{
    let mut tally = no_action();
    let most = rooms.count() as u16 + 1;
    for made in 0..most {
        let Some((room, call)) = core.wants() else {
            return tally;
        };
        let one = ask(alloc, rooms, core, room, call);
        tally = sum(tally, one);
    }
    tally
}

/// Gives the core a line.
fn hear_line(
    alloc: Global,
    core: &mut SessionCore,
    tape: &mut Tape,
    seed: &mut Option<[u8; 32]>,
    line: &[u8],
)
    requires closed { core.old.request ≡ None }
    requires written { core.old.said ≡ None }
    requires live { IsSome tape.old.source }
    ensures hears { HearsLine line.now core.old (draws tape.old seed.old) core.new (draws tape.new seed.new) }
    ensures settled { IsSettled core.new.call core.new.request core.new.said }
    ensures same_source { tape.new.source ≡ tape.old.source }
{
    let _heard = core.on_line(alloc, line, tape, seed);
}

/// Hears a line of a session, without its newline, and makes the calls of its request. What the line drew is given back where it is
/// answered `again`.
pub fn hear<M: Rooms>(
    alloc: Global,
    rooms: &mut M,
    core: &mut SessionCore,
    tape: &mut Tape,
    seed: &mut Option<[u8; 32]>,
    line: &[u8],
) -> Tally
    requires serves { M.serves rooms.old core.old.pass }
    requires rooms { core.old.rooms ≡ M.many rooms.old }
    requires closed { core.old.request ≡ None }
    requires written { core.old.said ≡ None }
    requires live { IsSome tape.old.source }
    ensures serves { M.serves rooms.new core.new.pass }
    ensures many { M.many rooms.new ≡ M.many rooms.old }
    ensures rooms { core.new.rooms ≡ core.old.rooms }
    ensures pass { core.new.pass ≡ core.old.pass }
    ensures same_source { tape.new.source ≡ tape.old.source }
    ensures bench { IsAtRest core.old.bench → TurnsToBench core.old core.new }
    ensures sat { core.new.sat ≡ core.old.sat }
    ensures hears { Hears M.calls line.now (side rooms.old core.old) (draws tape.old seed.old) (side rooms.new core.new) (draws tape.new seed.new) result }
{
    let place = tape.place();
    let kept = *seed;
    hear_line(alloc, core, tape, seed, line);
    let tally = run(alloc, rooms, core);
    if core.is_again() {
        tape.rewind(place);
        *seed = kept;
    }
    tally
}
