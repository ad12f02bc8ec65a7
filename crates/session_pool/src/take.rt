//! What a session is answered directly, and what waits for it in its room.

ghost use Rattle.std.specs.Prelude.{◌≡◌, ◌≤◌, IfSome, IsSome, Some, is_some, length};
ghost use Rattle.board_links.specs.Pieces.{told_bytes};
ghost use Rattle.game_hall.specs.Core.{plain, written};
ghost use Rattle.link_rounds.specs.Ends.{ByeSent};
ghost use Rattle.room_history.specs.declared.call.RoomCall.TheVariants as call;
ghost use Rattle.session_driver.specs.Bench.{IsAtRest};
ghost use Rattle.session_driver.specs.Freeing.{Frees};
ghost use Rattle.session_driver.specs.Hearing.{side};
ghost use Rattle.session_pool.specs.Ends.{ShowsWhy};
ghost use Rattle.session_pool.specs.Lines.{IsSendEnd, SentAs};
ghost use Rattle.session_pool.specs.Passes.{Belong};
ghost use Rattle.session_pool.specs.Placed.{AttachedBy, IsDone, IsIdle};
ghost use Rattle.session_pool.specs.Taken.{IsTaken};
ghost use Rattle.session_pool.specs.Turn.{Calls, HandsTaken, Says};
ghost use Rattle.session_pool.specs.Watched.{AllBegin, seen_of};

use crate::desks::Desks;
use crate::say::{hand_out, say_all};
use any_game::AnyGame;
use board_links::{Link, SessionEnd};
use game_hall::SessionCore;
use hosted_room::HostedRoom;
use room_desk::{Desk, Pass};
use room_history::RoomReply;
use session_driver::take;
use std::sync::Wait;

/// Sends what a reply to a Take handed out. A Take that was refused ends the session, with nothing sent.
fn handed<L: Link, R: Wait>(rt: &R, link: &mut L, reply: RoomReply) -> Option<SessionEnd>
    requires taken { IsTaken reply }
    ensures never_falls { L.faults link.old ≤ L.faults link.new }
    ensures shows { ShowsWhy (L.faults link.old) (L.faults link.new) result }
    ensures bye { ByeSent result (L.sent link.new) }
    ensures stage { L.stage link.new ≡ L.stage link.old }
    ensures answers { L.answers link.new ≡ L.answers link.old }
    ensures tells { is_some (L.sent link.new) ≡ is_some (L.sent link.old) }
    ensures is_bot { L.is_bot link.new ≡ L.is_bot link.old }
    ensures asked_out { L.asked_out link.new ≡ L.asked_out link.old }
    ensures told { IsSome (L.sent link.old) → HandsTaken (Some reply) (told_bytes (L.sent link.old)) result (L.sent link.new) }
{
    match reply {
        RoomReply::Taken { bytes, end: over } => {
            let why = hand_out(rt, link, &bytes, over);
            drop(bytes);
            why
        }
        RoomReply::NoMemory => Some(SessionEnd::NoMemory),
        _ => unreachable!(),
    }
}

/// Takes what waits for the session, over these desks.
fn take_there<B: HostedRoom<AnyGame>, R: Wait>(
    rooms: &mut Desks<'_, B, R>,
    core: &mut SessionCore,
) -> Option<RoomReply>
    requires belong { Belong rooms.old.desks.now core.old.pass rooms.old.passes.now }
    requires idle { IsIdle (length rooms.old.desks.now) core.old }
    requires attached { AttachedBy rooms.old.passes.now core.old.at }
    ensures same_passes { rooms.new.passes.ghost_name ≡ rooms.old.passes.ghost_name }
    ensures belong { Belong rooms.old.desks.now core.new.pass rooms.new.passes.now }
    ensures idle { IsIdle (length rooms.old.desks.now) core.new }
    ensures attached { AttachedBy rooms.new.passes.now core.new.at }
    ensures pass { core.new.pass ≡ core.old.pass }
    ensures sat { core.new.sat ≡ core.old.sat }
    ensures taken { IfSome result IsTaken }
    ensures goes_on { AllBegin (seen_of rooms.new.passes.now) (seen_of rooms.old.passes.now) }
    ensures takes { Frees (Calls B.may_starve) call.Take (side rooms.old.passes.now core.old) result (side rooms.new.passes.now core.new) }
{
    take(rooms, core)
}

/// Takes what waits in the room that the session is attached to. The reply is none where it isn't attached.
fn take_waiting<B: HostedRoom<AnyGame>, R: Wait>(
    rt: &R,
    desks: &[Desk<B>],
    passes: &mut [Pass<B>],
    core: &mut SessionCore,
) -> Option<RoomReply>
    requires belong { Belong desks.now core.old.pass passes.old }
    requires idle { IsIdle (length desks.now) core.old }
    requires attached { AttachedBy passes.old core.old.at }
    ensures belong { Belong desks.now core.new.pass passes.new }
    ensures idle { IsIdle (length desks.now) core.new }
    ensures attached { AttachedBy passes.new core.new.at }
    ensures pass { core.new.pass ≡ core.old.pass }
    ensures sat { core.new.sat ≡ core.old.sat }
    ensures taken { IfSome result IsTaken }
    ensures goes_on { AllBegin (seen_of passes.new) (seen_of passes.old) }
    ensures takes { Frees (Calls B.may_starve) call.Take (side passes.old core.old) result (side passes.new core.new) }
{
    let mut rooms = Desks {
        rt,
        desks,
        passes,
        changed: 0,
    };
    take_there(&mut rooms, core)
}

/// Sends the direct answer, if there is one.
fn say_answer<L: Link, R: Wait>(rt: &R, link: &mut L, core: &mut SessionCore) -> Option<SessionEnd>
    ensures core { core.new ≡ plain core.old }
    ensures why { IsSendEnd result }
    ensures never_falls { L.faults link.old ≤ L.faults link.new }
    ensures shows { ShowsWhy (L.faults link.old) (L.faults link.new) result }
    ensures stage { L.stage link.new ≡ L.stage link.old }
    ensures answers { L.answers link.new ≡ L.answers link.old }
    ensures tells { is_some (L.sent link.new) ≡ is_some (L.sent link.old) }
    ensures is_bot { L.is_bot link.new ≡ L.is_bot link.old }
    ensures asked_out { L.asked_out link.new ≡ L.asked_out link.old }
    ensures told { IsSome (L.sent link.old) → SentAs result (written core.old) (told_bytes (L.sent link.old)) (L.sent link.new) }
{
    let line = core.written();
    let why = say_all(rt, link, &line);
    drop(line);
    why
}

/// Sends the direct answer, and then, if attached, what waits.
pub(crate) fn speak<B: HostedRoom<AnyGame>, L: Link, R: Wait>(
    rt: &R,
    desks: &[Desk<B>],
    passes: &mut [Pass<B>],
    link: &mut L,
    core: &mut SessionCore,
) -> Option<SessionEnd>
    requires belong { Belong desks.now core.old.pass passes.old }
    requires done { IsDone (length desks.now) core.old }
    requires rests { IsAtRest core.old.bench }
    requires attached { AttachedBy passes.old core.old.at }
    ensures belong { Belong desks.now core.new.pass passes.new }
    ensures idle { IsIdle (length desks.now) core.new }
    ensures attached { AttachedBy passes.new core.new.at }
    ensures pass { core.new.pass ≡ core.old.pass }
    ensures sat { core.new.sat ≡ core.old.sat }
    ensures goes_on { AllBegin (seen_of passes.new) (seen_of passes.old) }
    ensures never_falls { L.faults link.old ≤ L.faults link.new }
    ensures shows { ShowsWhy (L.faults link.old) (L.faults link.new) result }
    ensures bye { ByeSent result (L.sent link.new) }
    ensures stage { L.stage link.new ≡ L.stage link.old }
    ensures answers { L.answers link.new ≡ L.answers link.old }
    ensures tells { is_some (L.sent link.new) ≡ is_some (L.sent link.old) }
    ensures is_bot { L.is_bot link.new ≡ L.is_bot link.old }
    ensures asked_out { L.asked_out link.new ≡ L.asked_out link.old }
    ensures told { IsSome (L.sent link.old) → Says B.may_starve (side passes.old core.old) (told_bytes (L.sent link.old)) result (side passes.new core.new) (L.sent link.new) }
{
    if let Some(why) = say_answer(rt, link, core) {
        return Some(why);
    }
    let Some(reply) = take_waiting(rt, desks, passes, core) else {
        return None;
    };
    handed(rt, link, reply)
}
