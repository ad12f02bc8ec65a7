//! Takes and Detaches of a session in the room that it is attached to.

ghost use Rattle.std.specs.Prelude.{◌≡◌, true};
ghost use Rattle.room_history.specs.Presence.{after_end, after_release};
ghost use Rattle.room_history.specs.declared.call.RoomCall.TheVariants as call;
ghost use Rattle.session_driver.specs.Freeing.{Frees};
ghost use Rattle.session_driver.specs.Hearing.{side};

use crate::rooms::Rooms;
use game_hall::SessionCore;
use room_history::{RoomCall, RoomReply};

/// Hands out what waits for a session. The reply is none where the session isn't attached; once its end is handed out, it is attached no
/// more.
pub fn take<M: Rooms>(rooms: &mut M, core: &mut SessionCore) -> Option<RoomReply>
    requires serves { M.serves rooms.old core.old.pass }
    requires rooms { core.old.rooms ≡ M.many rooms.old }
    ensures serves { M.serves rooms.new core.old.pass }
    ensures many { M.many rooms.new ≡ M.many rooms.old }
    ensures takes { Frees M.calls call.Take (side rooms.old core.old) result (side rooms.new core.new) }
{
    let room = core.attached()?;
    let reply = rooms.call(core.pass(), room, RoomCall::Take);
    if stays_after_take(&reply) {
        return Some(reply);
    }
    core.released();
    Some(reply)
}

/// Ends a session's attachment. The reply is none where the session isn't attached.
pub fn detach<M: Rooms>(rooms: &mut M, core: &mut SessionCore) -> Option<RoomReply>
    requires serves { M.serves rooms.old core.old.pass }
    requires rooms { core.old.rooms ≡ M.many rooms.old }
    ensures serves { M.serves rooms.new core.old.pass }
    ensures many { M.many rooms.new ≡ M.many rooms.old }
    ensures detaches { Frees M.calls call.Detach (side rooms.old core.old) result (side rooms.new core.new) }
{
    let room = core.attached()?;
    let reply = rooms.call(core.pass(), room, RoomCall::Detach);
    if stays_after_detach(&reply) {
        return Some(reply);
    }
    core.released();
    Some(reply)
}

/// Whether a session is still attached after a Take with this reply: one that handed out the session's end sets it free.
fn stays_after_take(reply: &RoomReply) -> bool
    ensures { result ≡ after_end true reply.now }
{
    match reply {
        RoomReply::Taken { end, .. } => end.is_none(),
        _ => true,
    }
}

/// Whether a session is still attached after a Detach with this reply.
fn stays_after_detach(reply: &RoomReply) -> bool
    ensures { result ≡ after_release true reply.now }
{
    match reply {
        RoomReply::Detached => false,
        _ => true,
    }
}
