//! The map of active players, with its follower and the earlier maps that may return.

ghost use Rattle.std.specs.Prelude.{◌≡◌, ◌≢◌, ◌+◌, ◌<◌, ◌^◌, ◌∷◌, List, [], Some, None, Ok, IfOk, OnOk, OnErr, option_map, option_copied, if◌then◌else◌};
ghost use Rattle.stage_map.specs.declared.ended.Ended.TheVariants.{Done, NotListed, Below};
ghost use Rattle.stage_map.specs.Active.{none, shown, row_on, is_listed, is_below, count_of};
ghost use Rattle.stage_map.specs.Rows.{put};
ghost use Rattle.stage_map.specs.Set.{kept_on, returned, set, settle, unfollowed};
ghost use Rattle.stage_map.specs.Stages.{count_move, end_stage, ending, set_stage, stage_left};

use crate::ended::Ended;
use crate::plan::{Plan, plan_set};
use crate::rows::{Row, put, row_of, shown_rows};
use crate::stages::{is_reached, rows_after, unlimited};
use game_sheet::{List, NoMemory, Seat, Sheet, SpecId, StageId};
use std::alloc::Global;
use std::collections::VecDeque;
use std::marker::Model;

/// An earlier map with its follower.
#[derive(Drop)]
pub struct Kept {
    /// The map's rows.
    pub rows: List<Row>,
    /// The spec that is set when the map is empty.
    pub next: Option<SpecId>,
}

/// Who is active, in which stages and with which counts. The map is null where the current seat alone may act.
pub struct Active {
    rows: Option<List<Row>>,
    next: Option<SpecId>,
    stack: VecDeque<Kept>,
    alloc: Global,
}

impl Drop for Active {
    fn drop(self) {
        let Active {
            rows,
            next: _,
            stack,
            alloc: _,
        } = self;
        drop(rows);
        drop(stack);
    }
}

impl Model for Active {
    ghost use Rattle.stage_map.specs.Active.{Map};

    ghost Value = { Map };

    ghost view = { λ a. record { rows = a.rows; next = a.next; stack = a.stack.items } };
}

impl Active {
    /// The null map.
    pub fn none(alloc: Global) -> Self
        ensures { result ≡ none }
    {
        Active {
            rows: None,
            next: None,
            stack: VecDeque::new(alloc),
            alloc,
        }
    }

    /// Makes the map null, with no follower and no earlier map. It takes no memory.
    pub fn clear(&mut self)
        ensures { self.new ≡ none }
    {
        self.rows = None;
        self.next = None;
        self.stack.clear();
    }

    /// An equal map.
    pub fn copy(&self) -> Result<Active, NoMemory>
        ensures { IfOk result (λ copy. copy ≡ self.now) }
    {
        let rows = match &self.rows {
            None => None,
            Some(rows) => Some(List::from_slice(self.alloc, rows.as_slice())?),
        };
        Ok(Active {
            rows,
            next: self.next,
            stack: copied(self.alloc, &self.stack)?,
            alloc: self.alloc,
        })
    }

    /// What the context shows of the map: nothing where it is null, else the active seats in rising order with their stages.
    pub fn rows(&self) -> Result<Option<List<(Seat, Option<StageId>)>>, NoMemory>
        ensures { IfOk result (λ rows. rows ≡ shown self.now) }
    {
        match &self.rows {
            None => Ok(None),
            Some(rows) => Ok(Some(shown_rows(self.alloc, rows.as_slice())?)),
        }
    }

    /// Whether the map lists a seat.
    pub fn is_listed(&self, seat: Seat) -> bool
        ensures { result ≡ is_listed self.now seat }
    {
        self.row(seat).is_some()
    }

    /// Whether the map lists a seat that has made fewer moves than its least.
    pub fn is_below(&self, seat: Seat) -> bool
        ensures { result ≡ is_below self.now seat }
    {
        match self.row(seat) {
            None => false,
            Some(row) => row.count < row.least,
        }
    }

    /// Sets a spec, with this current seat and play order. Without memory the map stays as it was.
    pub fn set(
        &mut self,
        sheet: &Sheet,
        spec: SpecId,
        current: Seat,
        order: &[Seat],
    ) -> Result<(), NoMemory>
        ensures ok { OnOk result (self.new ≡ set sheet.now spec current order.now self.old) }
        ensures err { OnErr result (self.new ≡ self.old) }
    {
        match plan_set(self.alloc, sheet, spec, sheet.specs.len(), current, order)? {
            None => {
                self.unfollow();
                Ok(())
            }
            Some(plan) => {
                if plan.keeps {
                    self.keep()?;
                }
                self.carry_out(plan);
                Ok(())
            }
        }
    }

    /// Puts a seat into the map with a stage, with no move counted and no limits. Where the map was null, it becomes one with
    /// that seat alone. Without memory the map stays as it was.
    pub fn set_stage(&mut self, seat: Seat, to: StageId) -> Result<(), NoMemory>
        ensures ok { OnOk result (self.new ≡ set_stage seat to self.old) }
        ensures err { OnErr result (self.new ≡ self.old) }
    {
        if self.rows.is_some() {
            self.replace(unlimited(seat, to))
        } else {
            self.begin(unlimited(seat, to))
        }
    }

    /// Ends a seat's stage, with this current seat and play order. Where the map doesn't list the seat, or the seat has made
    /// fewer moves than its least, the answer says so and the map stays. Without memory too it stays as it was.
    pub fn end_stage(
        &mut self,
        sheet: &Sheet,
        seat: Seat,
        current: Seat,
        order: &[Seat],
    ) -> Result<Ended, NoMemory>
        ensures answer { IfOk result (λ ended. ended ≡ ending self.old seat) }
        ensures ok { OnOk result (self.new ≡ end_stage sheet.now seat current order.now self.old) }
        // A refusal takes no memory.
        ensures refused { ending self.old seat ≢ Done → result ≡ Ok (ending self.old seat) }
        ensures not_listed { result ≡ Ok NotListed → self.new ≡ self.old }
        ensures below { result ≡ Ok Below → self.new ≡ self.old }
        ensures err { OnErr result (self.new ≡ self.old) }
    {
        let Some(row) = self.row(seat) else {
            return Ok(Ended::NotListed);
        };
        if row.count < row.least {
            return Ok(Ended::Below);
        }
        self.leave_stage(sheet, row, current, order)?;
        Ok(Ended::Done)
    }

    /// Counts a move of a seat, with this current seat and play order; nothing where the map doesn't list it. When the count
    /// reaches the seat's greatest, its stage ends. Without memory the map stays as it was.
    pub fn count_move(
        &mut self,
        sheet: &Sheet,
        seat: Seat,
        current: Seat,
        order: &[Seat],
    ) -> Result<(), NoMemory>
        requires { count_of self.old seat + 1 < 2 ^ 32 }
        ensures ok { OnOk result (self.new ≡ count_move sheet.now seat current order.now self.old) }
        ensures err { OnErr result (self.new ≡ self.old) }
    {
        let Some(row) = self.row(seat) else {
            return Ok(());
        };
        let count = row.count + 1;
        if is_reached(row.most, count) {
            self.leave_stage(sheet, row, current, order)
        } else {
            self.replace(Row { count, ..row })
        }
    }

    /// Ends the stage of the seat of this row of the map.
    fn leave_stage(
        &mut self,
        sheet: &Sheet,
        row: Row,
        current: Seat,
        order: &[Seat],
    ) -> Result<(), NoMemory>
        ensures ok { OnOk result (self.new ≡ stage_left sheet.now row current order.now self.old) }
        ensures err { OnErr result (self.new ≡ self.old) }
    {
        let Some(rows) = &self.rows else {
            return Ok(());
        };
        let rows = rows_after(self.alloc, sheet, row, rows.as_slice())?;
        self.settle(rows, sheet, current, order)
    }

    /// Makes the map one of this row alone, with no follower and no earlier map.
    fn begin(&mut self, row: Row) -> Result<(), NoMemory>
        ensures ok { OnOk result (self.new ≡ record none { rows = Some (row ∷ []) }) }
        ensures err { OnErr result (self.new ≡ self.old) }
    {
        let rows = put(self.alloc, row, &[])?;
        self.clear();
        self.rows = Some(rows);
        Ok(())
    }

    /// Puts a row in the place of its seat's; nothing where the map is null.
    fn replace(&mut self, row: Row) -> Result<(), NoMemory>
        ensures ok { OnOk result (self.new ≡ record self.old { rows = option_map (put row) self.old.rows }) }
        ensures err { OnErr result (self.new ≡ self.old) }
    {
        let Some(rows) = &self.rows else {
            return Ok(());
        };
        let rows = put(self.alloc, row, rows.as_slice())?;
        self.rows = Some(rows);
        Ok(())
    }

    /// Takes these rows, and settles the map where there are none.
    fn settle(
        &mut self,
        rows: List<Row>,
        sheet: &Sheet,
        current: Seat,
        order: &[Seat],
    ) -> Result<(), NoMemory>
        ensures ok { OnOk result (self.new ≡ settle sheet.now current order.now (record self.old { rows = Some rows })) }
        ensures err { OnErr result (self.new ≡ self.old) }
    {
        match self.next {
            Some(spec) if rows.is_empty() => {
                drop(rows);
                self.follow(sheet, spec, current, order)
            }
            next => {
                self.stand(rows, next);
                Ok(())
            }
        }
    }

    /// Sets the follower of a map that has no row left.
    fn follow(
        &mut self,
        sheet: &Sheet,
        spec: SpecId,
        current: Seat,
        order: &[Seat],
    ) -> Result<(), NoMemory>
        ensures ok { OnOk result (self.new ≡ set sheet.now spec current order.now (record self.old { rows = Some [] })) }
        ensures err { OnErr result (self.new ≡ self.old) }
    {
        match plan_set(self.alloc, sheet, spec, sheet.specs.len(), current, order) {
            Ok(None) => {
                self.come_back();
                Ok(())
            }
            Ok(Some(plan)) => {
                self.carry_out(plan);
                Ok(())
            }
            Err(failed) => Err(failed),
        }
    }

    /// The row of a seat, if the map lists it.
    fn row(&self, seat: Seat) -> Option<Row>
        ensures { result ≡ row_on self.now seat }
    {
        match &self.rows {
            None => None,
            Some(rows) => row_of(seat, rows.as_slice()),
        }
    }

    /// Puts the map on the stack, where it has rows, so that another may take its place.
    fn keep(&mut self) -> Result<(), NoMemory>
        ensures ok { OnOk result (self.new.stack ≡ kept_on self.old.rows self.old.next self.old.stack) }
        ensures err { OnErr result (self.new ≡ self.old) }
    {
        let next = self.next;
        let Some(rows) = self.rows.take() else {
            return Ok(());
        };
        if rows.is_empty() {
            return Ok(());
        }
        match self.stack.push_front(Kept { rows, next }) {
            Ok(()) => Ok(()),
            Err(failed) => {
                let Kept { rows, next: _ } = failed.value;
                self.rows = Some(rows);
                Err(NoMemory)
            }
        }
    }

    /// Takes the rows and the follower of a plan, and settles the map.
    fn carry_out(&mut self, plan: Plan)
        ensures { self.new ≡ unfollowed (record { rows = Some plan.rows; next = plan.next; stack = (if plan.keeps then self.old.stack else []) }) }
    {
        if !plan.keeps {
            self.stack.clear();
        }
        self.stand(plan.rows, plan.next);
    }

    /// Takes these rows and this follower, where there are rows; else the map on top of the stack returns.
    fn stand(&mut self, rows: List<Row>, next: Option<SpecId>)
        ensures { self.new ≡ unfollowed (record { rows = Some rows; next = next; stack = self.old.stack }) }
    {
        if rows.is_empty() {
            self.come_back();
        } else {
            self.rows = Some(rows);
            self.next = next;
        }
    }

    /// The map on top of the stack returns, where there is one; else the map is null.
    fn come_back(&mut self)
        ensures { self.new ≡ returned self.old.stack }
    {
        match self.stack.pop_front() {
            None => self.clear(),
            Some(Kept { rows, next }) => {
                self.rows = Some(rows);
                self.next = next;
            }
        }
    }

    /// Settles the map as though it had no follower.
    fn unfollow(&mut self)
        ensures { self.new ≡ unfollowed self.old }
    {
        let is_empty = match &self.rows {
            None => false,
            Some(rows) => rows.is_empty(),
        };
        if is_empty {
            self.come_back();
        }
    }
}

/// Equal earlier maps.
fn copied(alloc: Global, stack: &VecDeque<Kept>) -> Result<VecDeque<Kept>, NoMemory>
    ensures { IfOk result (λ copy. copy.items ≡ stack.now.items) }
{
    let mut copy = VecDeque::new(alloc);
    for i in 0..stack.len() {
        let kept = &stack[i];
        let rows = List::from_slice(alloc, kept.rows.as_slice())?;
        copy.push_back(Kept {
            rows,
            next: kept.next,
        })?;
    }
    Ok(copy)
}
