//! How one pass shows another all that there is of the history.
//!
//! For one step both passes are at one seat, where they see that one history begins as what either had seen.

ghost use Rattle.std.specs.Prelude.{◌≡◌, ◌∷◌, [], None, false};
ghost use Rattle.room_desk.specs.History.{Begins, held};
ghost use Rattle.room_desk.specs.Turns.{past, view, number_in, before_in, seen_in};
ghost use Rattle.room_desk.specs.Plays.{Rests};

use crate::desk::Desk;
use crate::pass::Pass;
use crate::turns::{Look, Part, Unite};
use crate::view::View;
use atomic_table::Seat;
use room_object::Object;

impl<O: Object> Desk<O> {
    /// Has a pass see all that there is of the history, and so all that another pass has seen. Neither makes a call, and nobody waits.
    pub fn show(&self, shown: &mut Pass<O>, witness: Pass<O>) -> Pass<O>
        requires shown { shown.old.desk ≡ self.now.desk }
        requires witness { witness.desk ≡ self.now.desk }
        ensures same { shown.new ≡ shown.old }
        ensures pass { result ≡ held witness.desk witness.number witness.before result.seen }
        ensures goes_on { Begins result.seen witness.seen }
        ensures sees { Begins result.seen shown.old.seen }
    {
        let number = witness.number;
        let seat = self.look(&mut shown.seat, witness.into_seat());
        Pass { number, seat }
    }

    /// The first seat takes in the other's pass, which sees the whole history there, and gets a seat of its own again.
    fn look(
        &self,
        seat: &mut Seat<Option<O>, View<O::Call>>,
        other: Seat<Option<O>, View<O::Call>>,
    ) -> Seat<Option<O>, View<O::Call>>
        requires table { seat.old.table_id ≡ self.now.desk.table }
        requires other_table { other.table_id ≡ self.now.desk.table }
        requires rests { Rests (number_in seat.old.me.0.pasts) seat.old.me }
        requires other_rests { Rests (number_in other.me.0.pasts) other.me }
        requires object { other.me.0.object ≡ seat.old.me.0.object }
        ensures table { result.table_id ≡ other.table_id }
        ensures same { (seat.new.table_id ≡ seat.old.table_id) × (seat.new.me ≡ seat.old.me) }
        ensures rests { result.me ≡ (view other.me.0.object (past (number_in other.me.0.pasts) (before_in other.me.0.pasts) (seen_in result.me.0.pasts) ∷ []) None false, []) }
        ensures goes_on { Begins (seen_in result.me.0.pasts) (seen_in other.me.0.pasts) }
        ensures sees { Begins (seen_in result.me.0.pasts) (seen_in seat.old.me.0.pasts) }
    {
        let shared = &self.table.shared;
        shared.join_seat::<Unite>(seat, other);
        shared.load::<Look>(seat, 0);
        shared.split_seat::<Part>(seat)
    }
}
