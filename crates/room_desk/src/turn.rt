//! A call on a desk: a ticket, the turn, the call on the object, and the turn passed on.
//!
//! A thread whose turn hasn't come parks on the word that counts the turns passed on. It takes no processor time while it waits, so a program may have more
//! threads than processors. Who passes the turn on wakes all that wait, since only one of them is next, and a single wake could reach another. It wakes nobody
//! where no further ticket was drawn: who waits has drawn its ticket before, and who draws one later finds the word changed. So a call that meets no other asks
//! nothing of the system. No clause speaks of waiting.

ghost use Rattle.std.specs.Prelude.{◌≡◌, ℕ, ◌∷◌, ◌++◌, ◌%◌, ◌^◌, [], Some, None, true, false};
ghost use Rattle.room_object.specs.Entry.{entry};
ghost use Rattle.room_desk.specs.History.{Called, held};
ghost use Rattle.room_desk.specs.Turns.{past, view, number_in, before_in, seen_in};
ghost use Rattle.room_desk.specs.Plays.{noted, Rests, Takes, Waits, Entered, Tells};

use crate::desk::Desk;
use crate::pass::Pass;
use crate::turns::{Asked, Draw, PassOn, Said, Try};
use crate::view::View;
use atomic_table::Seat;
use room_object::Object;
use std::marker::Brand;
use std::sync::Wait;

impl<O: Object> Desk<O> {
    /// Makes a call on the object, in this pass's turn. It may wait for other calls on this desk, and takes no memory of its own.
    pub fn call<R: Wait>(&self, rt: &R, pass: &mut Pass<O>, call: O::Call) -> O::Reply
        requires desk { pass.old.desk ≡ self.now.desk }
        ensures pass { pass.new ≡ held pass.old.desk pass.old.number pass.old.before pass.new.seen }
        ensures called { Called (O.reply pass.old.desk.object) pass.old.seen (entry pass.old.number call (O.is_starved result)) result pass.new.seen }
        ensures fed { O.is_starved result ≡ true → O.may_starve call ≡ true }
    {
        let number = pass.number;
        self.turn::<Brand, R>(rt, &mut pass.seat, number, call)
    }

    /// The call, as `J` has it too, which names it for the proof once it has been moved.
    fn turn<J: Asked<O::Call>, R: Wait>(
        &self,
        rt: &R,
        seat: &mut Seat<Option<O>, View<O::Call>>,
        number: u32,
        call: O::Call,
    ) -> O::Reply
        requires asked { J.asked ≡ call ∷ [] }
        requires table { seat.old.table_id ≡ self.now.desk.table }
        requires rests { Rests number seat.old.me }
        ensures table { seat.new.table_id ≡ seat.old.table_id }
        ensures rests { Rests number seat.new.me }
        ensures object { noted seat.new.me.0.object ≡ noted seat.old.me.0.object }
        ensures before { before_in seat.new.me.0.pasts ≡ before_in seat.old.me.0.pasts }
        ensures called { Called (O.reply (noted seat.old.me.0.object)) (seen_in seat.old.me.0.pasts) (entry number call (O.is_starved result)) result (seen_in seat.new.me.0.pasts) }
        ensures fed { O.is_starved result ≡ true → O.may_starve call ≡ true }
    {
        let mut object = self.enter(rt, seat, number);
        let reply = object.apply(number, call);
        self.leave::<Brand>(seat, number, object, &reply);
        reply
    }

    /// Waits for the turn, and takes the object out of its slot.
    fn enter<R: Wait>(&self, rt: &R, seat: &mut Seat<Option<O>, View<O::Call>>, number: u32) -> O
        requires table { seat.old.table_id ≡ self.now.desk.table }
        requires rests { Rests number seat.old.me }
        ensures table { seat.new.table_id ≡ seat.old.table_id }
        ensures entered { Entered O.number O.stands_for (noted seat.old.me.0.object) number (before_in seat.old.me.0.pasts) (seen_in seat.old.me.0.pasts)
            result seat.new.me }
    {
        let ticket = self.draw(seat, number);
        self.wait(rt, seat, ticket);
        self.table.shared.exchange(seat, 0, None).unwrap()
    }

    /// Draws the next ticket.
    fn draw(&self, seat: &mut Seat<Option<O>, View<O::Call>>, number: u32) -> u64
        requires table { seat.old.table_id ≡ self.now.desk.table }
        requires rests { Rests number seat.old.me }
        ensures table { seat.new.table_id ≡ seat.old.table_id }
        ensures drawn { (t : ℕ) × (result ≡ t % 2 ^ 64) × (seat.new.me
            ≡ (view (Some (noted seat.old.me.0.object)) (past number (before_in seat.old.me.0.pasts) (seen_in seat.old.me.0.pasts) ∷ []) (Some t) false, [])) }
    {
        self.table.shared.fetch_add::<Draw>(seat, 0, 1)
    }

    /// Waits until the ticket is next, and takes the turn.
    fn wait<R: Wait>(&self, rt: &R, seat: &mut Seat<Option<O>, View<O::Call>>, ticket: u64)
        requires table { seat.old.table_id ≡ self.now.desk.table }
        requires waits { Waits ticket seat.old.me }
        ensures table { seat.new.table_id ≡ seat.old.table_id }
        ensures taken { Takes O.number O.stands_for seat.old.me seat.new.me }
    {
        let shared = &self.table.shared;
        for _ in rt.forever() {
            let found = shared.compare_exchange::<Try>(seat, 1, ticket, ticket);
            if found == ticket {
                return;
            }
            shared.park(rt, 1, (found & 0xffff_ffff) as u32);
        }
        unreachable!()
    }

    /// Puts the object back, and passes the turn on.
    fn leave<J: Said<O::Call>>(
        &self,
        seat: &mut Seat<Option<O>, View<O::Call>>,
        number: u32,
        object: O,
        reply: &O::Reply,
    )
        requires table { seat.old.table_id ≡ self.now.desk.table }
        requires tells { (c : O.Call) × (J.said ≡ entry number c (O.is_starved reply.now) ∷ []) × Tells O.number O.stands_for object (entry number c (O.is_starved reply.now)) seat.old.me }
        ensures table { seat.new.table_id ≡ seat.old.table_id }
        ensures told { seat.new.me
            ≡ (view seat.old.me.0.object (past number (before_in seat.old.me.0.pasts) (J.said ++ seen_in seat.old.me.0.pasts) ∷ []) None false, []) }
    {
        let shared = &self.table.shared;
        drop(shared.exchange(seat, 0, Some(object)));
        let turn = shared.fetch_add::<PassOn<J>>(seat, 1, 1);
        self.wake(turn);
    }

    /// Wakes who waits for the turn after this one, if a ticket for it was drawn.
    fn wake(&self, turn: u64) {
        let shared = &self.table.shared;
        if shared.peek(0) != turn.wrapping_add(1) {
            shared.wake_all(1);
        }
    }
}
