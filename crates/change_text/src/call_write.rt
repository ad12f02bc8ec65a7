//! Appends the payload of the change that a call asks for.

ghost use Rattle.std.specs.Prelude.{IfOk};
ghost use Rattle.change_text.specs.Payload.{AsksInForm, Puts};
ghost use Rattle.room_changes.specs.ChangesOf.{change_asked};

use crate::change_write::{put_act, put_clear, put_create, put_join, put_leave, put_rename};
use game_sheet::{NoMemory, Seat};
use game_trait::Game;
use room_history::RoomCall;
use std::alloc::Global;

/// Appends the payload of the change that a call asks for, by who looks by its pass, and says whether it asks for one.
pub fn put_asked_change<X: Game + Drop>(
    alloc: Global,
    out: &mut Vec<u8>,
    viewer: Option<Option<Seat>>,
    call: &RoomCall<X>,
) -> Result<bool, NoMemory>
    requires { AsksInForm call.now }
    ensures { IfOk result (Puts X.rules (change_asked viewer call.now) out.old.items out.new.items) }
{
    match call {
        RoomCall::Create { game, seats, seed } => {
            put_create(alloc, out, game, *seats, seed)?;
            Ok(true)
        }
        RoomCall::Join {
            serial: _,
            seat,
            name,
            key,
        } => {
            put_join::<X>(alloc, out, key, name, *seat)?;
            Ok(true)
        }
        RoomCall::Rename {
            serial: _,
            seat,
            key,
            name,
        } => {
            put_rename::<X>(alloc, out, key, name, *seat)?;
            Ok(true)
        }
        RoomCall::Leave {
            serial: _,
            seat,
            key,
        } => {
            put_leave::<X>(alloc, out, key, *seat)?;
            Ok(true)
        }
        RoomCall::Clear { serial: _ } => {
            put_clear::<X>(out)?;
            Ok(true)
        }
        RoomCall::Submit(submission) => match viewer {
            Some(Some(seat)) => {
                put_act::<X>(alloc, out, &submission.asked, seat)?;
                Ok(true)
            }
            _ => Ok(false),
        },
        RoomCall::Look { .. } | RoomCall::Attach { .. } | RoomCall::Take | RoomCall::Detach => {
            Ok(false)
        }
    }
}
