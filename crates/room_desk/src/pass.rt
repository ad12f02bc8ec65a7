//! A pass: the right to make calls on a desk, one at a time, and what has been seen of its history.

ghost use Rattle.std.specs.Prelude.{◌≡◌, ◌∷◌, [], Some, None, false};
ghost use Rattle.room_desk.specs.Turns.{past, view};

use crate::view::View;
use atomic_table::Seat;
use room_object::Object;
use std::marker::Model;

/// A pass of a desk. A thread that has it makes calls there, one after another. Contracts see it as its desk, its number, what the desk's
/// object stood for when the desk was set up, and the history that it has seen. A pass that is dropped is missing where the desk is closed.
pub struct Pass<O: Object> {
    pub(crate) number: u32,
    pub(crate) seat: Seat<Option<O>, View<O::Call>>,
}

impl<O: Object> Drop for Pass<O> {
    fn drop(self) {
        let Pass { number: _, seat } = self;
        drop(seat);
    }
}

impl<O: Object> Model for Pass<O> {
    ghost use Rattle.room_desk.specs.History.{Held, held};
    ghost use Rattle.room_desk.specs.Turns.{before_in, seen_in};
    ghost use Rattle.room_desk.specs.Plays.{noted, Rests};

    ghost Value = { Held O.Call };

    ghost view = { λ p. held (record { table = p.seat.table_id; object = noted p.seat.me.0.object }) p.number
        (before_in p.seat.me.0.pasts) (seen_in p.seat.me.0.pasts) };

    ghost invariant = { λ p. Rests p.number p.seat.me };
}

impl<O: Object> Pass<O> {
    /// The pass's number, from 0.
    pub fn number(&self) -> u32
        ensures { result ≡ self.now.number }
    {
        self.number
    }

    pub(crate) fn into_seat(self) -> Seat<Option<O>, View<O::Call>>
        ensures table { result.table_id ≡ self.desk.table }
        ensures rests { result.me ≡ (view (Some self.desk.object) (past self.number self.before self.seen ∷ []) None false, []) }
    {
        let Pass { number: _, seat } = self;
        seat
    }
}
