//! A room that shows on a gauge what becomes of it.

ghost use Rattle.std.specs.Prelude.{◌≡◌};

use crate::gauge::Gauge;
use game_sheet::Number;
use game_trait::Game;
use hosted_room::HostedRoom;
use room_history::{RoomCall, RoomReply};
use room_object::Object;
use std::alloc::Global;
use std::marker::PhantomData;
use std::sync::Arc;

/// A room that shows on a gauge, after each call, whether a match stands and how many sessions are attached. In all else it is the room within.
pub struct GaugedRoom<X, B> {
    room: B,
    gauge: Arc<Gauge, Global>,
    matches: PhantomData<X>,
}

impl<X, B: Drop> Drop for GaugedRoom<X, B> {
    fn drop(self) {
        let GaugedRoom {
            room,
            gauge,
            matches: _,
        } = self;
        drop(room);
        drop(gauge);
    }
}

impl<X: Game + Drop, B: HostedRoom<X>> GaugedRoom<X, B> {
    /// A room in which no session is attached, and its gauge, which nobody has written. The gauge shows the match that stands from now on.
    pub fn new(room: B, gauge: Arc<Gauge, Global>) -> GaugedRoom<X, B>
        ensures { result.room ≡ room }
    {
        gauge.show(room.row());
        GaugedRoom {
            room,
            gauge,
            matches: PhantomData,
        }
    }

    /// The room within.
    pub fn into_room(self) -> B
        ensures { result ≡ self.room }
    {
        let GaugedRoom {
            room,
            gauge,
            matches: _,
        } = self;
        drop(gauge);
        room
    }
}

impl<X: Game + Drop, B: HostedRoom<X>> Object for GaugedRoom<X, B> {
    type Call = RoomCall<X>;

    type Reply = RoomReply;

    ghost number = { λ r. B.number r.room };

    ghost stands_for = { λ r h. B.stands_for r.room h };

    ghost reply = { λ room h e. B.reply room h e };

    ghost is_starved = { λ told. B.is_starved told };

    ghost may_starve = { λ call. B.may_starve call };

    fn apply(&mut self, pass: u32, call: RoomCall<X>) -> RoomReply {
        let reply = self.room.apply(pass, call);
        self.gauge.count(&reply);
        self.gauge.show(self.room.row());
        reply
    }
}

impl<X: Game + Drop, B: HostedRoom<X>> HostedRoom<X> for GaugedRoom<X, B> {
    ghost has_stopped = { λ r. B.has_stopped r.room };

    ghost replies = { λ room h e. B.replies room h e };

    ghost starves = { λ told. B.starves told };

    ghost detaches = { B.detaches };

    fn row(&self) -> Option<(u64, Option<Number>)> {
        self.room.row()
    }
}
