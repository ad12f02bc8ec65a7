//! Rooms behind desks.

use any_game::AnyGame;
use hosted_room::HostedRoom;
use room_desk::{Desk, Pass};
use room_history::{RoomCall, RoomReply};
use session_driver::Rooms;
use std::sync::Wait;

/// Rooms behind desks, for which one may have to wait: a desk for each, and a pass of each. The pass of their number may call.
#[derive(Drop)]
pub struct Desks<'a, B: HostedRoom<AnyGame>, R: Wait> {
    /// The runtime.
    pub rt: &'a R,
    /// Each room's desk, room 0's first. There are 255 at most.
    pub desks: &'a [Desk<B>],
    /// A pass of each desk.
    pub passes: &'a mut [Pass<B>],
    /// The rooms in which calls may have changed what sessions are shown, one bit each, of the first 64. It says whom to ask next and nothing
    /// else, so no clause speaks of it.
    pub changed: u64,
}

/// The bit of a room, if a call of this kind may change what its sessions are shown.
fn change_of<X>(room: u8, call: &RoomCall<X>) -> u64 {
    match call {
        RoomCall::Create { .. }
        | RoomCall::Join { .. }
        | RoomCall::Rename { .. }
        | RoomCall::Leave { .. }
        | RoomCall::Submit { .. } => 1u64.checked_shl(u32::from(room)).unwrap_or(0),
        _ => 0,
    }
}

impl<'a, B: HostedRoom<AnyGame>, R: Wait> Rooms for Desks<'a, B, R> {
    ghost use Rattle.std.specs.Prelude.{◌≡◌, ◌≤◌, length};
    ghost use Rattle.session_pool.specs.Passes.{Belong, CallsDesk};

    ghost many = { λ d. length d.desks.now };

    ghost serves = { λ d pass. (length d.desks.now ≤ 255) × Belong d.desks.now pass d.passes.now };

    ghost calls = { λ d pass made e. CallsDesk B.may_starve d.passes.now made e.passes.now × (e.desks.now ≡ d.desks.now) × (e.passes.ghost_name ≡ d.passes.ghost_name) };

    fn count(&self) -> u8 {
        self.desks.len() as u8
    }

    fn call(&mut self, _pass: u32, room: u8, call: RoomCall<AnyGame>) -> RoomReply {
        self.changed |= change_of(room, &call);
        let place = room as usize;
        self.desks[place].call(self.rt, &mut self.passes[place], call)
    }
}
