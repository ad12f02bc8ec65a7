//! A desk: an object, and the order in which threads make calls on it.

ghost use Rattle.std.specs.Prelude.{◌≡◌, ◌+◌, ◌<◌, ◌≤◌, ◌↔◌, ◌++◌, List, [], None, Some, false, length, map, All, IfOk, IfErr, IsErr, vec_len};
ghost use Rattle.room_object.specs.Entry.{Entry};
ghost use Rattle.room_desk.specs.History.{dealt, Unites};
ghost use Rattle.room_desk.specs.Turns.{fresh, seen_in, view};
ghost use Rattle.room_desk.specs.Plays.{past_of, United};

use crate::pass::Pass;
use crate::turns::{Beginning, Open, Part, Reach, Turns, Unite};
use crate::view::View;
use atomic_table::{Seat, Table};
use game_sheet::NoMemory;
use room_object::Object;
use std::alloc::Global;
use std::marker::Model;
use std::snapshot::Snapshot;

/// The most passes of a desk.
pub const MOST_PASSES: u32 = 65_536;

/// A desk. Contracts see it as which it is, its object's number, and how many passes it was set up with.
pub struct Desk<O: Object> {
    pub(crate) table: Table<Option<O>, View<O::Call>, Beginning<O>, Turns<O>, Global>,
    pub(crate) passes: u32,
}

impl<O: Object> Drop for Desk<O> {
    fn drop(self) {
        let Desk { table, passes: _ } = self;
        drop(table);
    }
}

impl<O: Object> Model for Desk<O> {
    ghost use Rattle.std.specs.Prelude.{◌≡◌, ◌<◌};
    ghost use Rattle.room_desk.specs.History.{SetUp};

    ghost Value = { SetUp };

    ghost view = { λ d. record { desk = record { table = d.table.shared.table_id; object = O.number d.table.shared.key.object.value }; passes = d.passes } };

    ghost invariant = { λ d. (d.table.shared.table_id.words ≡ 2) × (d.table.shared.table_id.slots ≡ 1) × (d.table.shared.key.passes ≡ d.passes) × (0 < d.passes) };
}

/// Passes are missing where a desk was to be closed: how many, and all that was handed in.
#[derive(Drop)]
pub struct PassesOut<O: Object> {
    /// How many passes are missing.
    pub count: u32,
    /// The desk, as it was.
    pub desk: Desk<O>,
    /// The passes that came back.
    pub passes: Vec<Pass<O>>,
}

impl<O: Object> Desk<O> {
    /// Sets up a desk over an object, with 1 to `MOST_PASSES` passes, numbered from 0. The desk's history goes on from one that the object stands for, which
    /// all passes have before them and have seen. Without memory the object is dropped.
    pub fn set_up(
        alloc: Global,
        object: O,
        passes: u32,
    ) -> Result<(Desk<O>, Vec<Pass<O>>), NoMemory>
        requires count { (0 < passes) × (passes ≤ MOST_PASSES) }
        requires stands { (past : List (Entry O.Call)) × O.stands_for object past }
        ensures desk { IfOk result (λ r. (r.0.passes ≡ passes) × (r.0.desk.object ≡ O.number object)) }
        ensures passes { IfOk result (λ r. (past : List (Entry O.Call)) × O.stands_for object past × (r.1.items ≡ dealt past r.0.desk passes)) }
        ensures own { IfOk result (λ r. All (λ p. p.desk ≡ r.0.desk) r.1.items) }
    {
        let (desk, seat) = Desk::opened(alloc, object, passes)?;
        let passes = desk.deal(alloc, seat)?;
        Ok((desk, passes))
    }

    /// A desk with the object in its slot, and the one seat, which stands for all passes. They have seen the history that the object stands for.
    fn opened(
        alloc: Global,
        object: O,
        passes: u32,
    ) -> Result<(Desk<O>, Seat<Option<O>, View<O::Call>>), NoMemory>
        requires count { (0 < passes) × (passes ≤ MOST_PASSES) }
        requires stands { (past : List (Entry O.Call)) × O.stands_for object past }
        ensures desk { IfOk result (λ r. (r.0.passes ≡ passes) × (r.0.desk.object ≡ O.number object)) }
        ensures table { IfOk result (λ r. r.1.table_id ≡ r.0.desk.table) }
        ensures stands { IfOk result (λ r. O.stands_for object (seen_in r.1.me.0.pasts)) }
        ensures seat { IfOk result (λ r. r.1.me ≡ (view (Some (O.number object)) (fresh (seen_in r.1.me.0.pasts) 0 passes) None false, [])) }
    {
        let beginning = Beginning {
            passes,
            object: Snapshot::of(&object),
        };
        let (table, mut seat) = Table::vacant(alloc, &[0, 0], 1, &beginning)?;
        let shared = &table.shared;
        shared.load::<Reach>(&mut seat, 1);
        drop(shared.exchange(&mut seat, 0, Some(object)));
        shared.fetch_add::<Open>(&mut seat, 1, 0);
        Ok((Desk { table, passes }, seat))
    }

    /// Splits the passes off the first seat, in order. They have seen what the seat has.
    fn deal(
        &self,
        alloc: Global,
        mut seat: Seat<Option<O>, View<O::Call>>,
    ) -> Result<Vec<Pass<O>>, NoMemory>
        requires table { seat.table_id ≡ self.now.desk.table }
        requires opened { seat.me ≡ (view (Some self.now.desk.object) (fresh (seen_in seat.me.0.pasts) 0 self.now.passes) None false, []) }
        ensures { IfOk result (λ p. p.items ≡ dealt (seen_in seat.me.0.pasts) self.now.desk self.now.passes) }
    {
        let mut passes = Vec::with_capacity(alloc, self.passes as usize)?;
        for number in 0..self.passes {
            let seat = self.table.shared.split_seat::<Part>(&mut seat);
            passes.push(Pass { number, seat })?;
        }
        Ok(passes)
    }

    /// Gives the object back, where all passes came back. The object then stands for one history, which goes on from what it stood for when the desk was set
    /// up, by calls of these passes.
    pub fn close(self, mut passes: Vec<Pass<O>>) -> Result<O, PassesOut<O>>
        requires desk { All (λ p. p.desk ≡ self.desk) passes.items }
        ensures out { IsErr result ↔ (vec_len passes < self.passes) }
        ensures err { IfErr result (λ e. (e.count + vec_len passes ≡ self.passes) × (e.desk ≡ self) × (e.passes.items ≡ passes.items)) }
        ensures ok { IfOk result (λ o. (h : List (Entry O.Call)) × O.stands_for o h × Unites passes.items h) }
        ensures number { IfOk result (λ o. O.number o ≡ self.desk.object) }
    {
        let back = passes.len();
        if back < self.passes as usize {
            return Err(PassesOut {
                count: self.passes - back as u32,
                desk: self,
                passes,
            });
        }
        let Some(last) = passes.pop() else {
            unreachable!()
        };
        let seat = self.unite(last.into_seat(), passes);
        Ok(self.take_out(seat))
    }

    /// The first seat takes in the passes, from the last on.
    fn unite(
        &self,
        mut seat: Seat<Option<O>, View<O::Call>>,
        mut passes: Vec<Pass<O>>,
    ) -> Seat<Option<O>, View<O::Call>>
        requires table { seat.table_id ≡ self.now.desk.table }
        requires rests { seat.me ≡ (view (Some self.now.desk.object) seat.me.0.pasts None false, []) }
        requires some_past { 0 < length seat.me.0.pasts }
        requires desk { All (λ p. p.desk ≡ self.now.desk) passes.items }
        ensures table { result.table_id ≡ seat.table_id }
        ensures united { result.me ≡ (view (Some self.now.desk.object) (map past_of passes.items ++ seat.me.0.pasts) None false, []) }
    {
        while let Some(pass) = passes.pop() {
            self.table
                .shared
                .join_seat::<Unite>(&mut seat, pass.into_seat());
        }
        seat
    }

    /// Takes the object out of its slot, by a seat that has all passes.
    fn take_out(self, seat: Seat<Option<O>, View<O::Call>>) -> O
        requires table { seat.table_id ≡ self.desk.table }
        requires rests { seat.me ≡ (view (Some self.desk.object) seat.me.0.pasts None false, []) }
        requires all { self.passes ≤ length seat.me.0.pasts }
        ensures united { (h : List (Entry O.Call)) × O.stands_for result h × United seat.me.0.pasts h }
        ensures number { O.number result ≡ self.desk.object }
    {
        let Desk { table, passes: _ } = self;
        let mut closed = table.close_with(seat);
        let object = closed.take(0).unwrap();
        closed.free();
        object
    }
}
