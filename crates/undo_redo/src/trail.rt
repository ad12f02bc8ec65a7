//! The trail: what was done and what was undone, and the states between.

ghost use Rattle.std.specs.Prelude.{◌≡◌, ◌<◌, IfOk, IsOk, Some, length, option_map, slice_get};
ghost use Rattle.std.specs.Arc.{arc_value};
ghost use Rattle.std.specs.Option.{option_copied};
ghost use Rattle.undo_redo.specs.IsTrail.{IsTrail};
ghost use Rattle.undo_redo.specs.Kept.{new_trail};
ghost use Rattle.undo_redo.specs.Moves.{Advanced, Does, Redone, Undone};
ghost use Rattle.undo_redo.specs.Runs.{KeepsStruckList};

use crate::machine::Machine;
use crate::steps::{Step, copies, put, put_growing};
use game_sheet::{MOST_ACTIONS, NoMemory};
use std::alloc::Global;
use std::marker::Model;
use std::sync::Arc;

/// For how many steps a trail has room from its beginning.
pub const ROOM: usize = MOST_ACTIONS as usize;

/// Acts done and undone from a first state on, with each state that they led to, which copies share.
///
/// Contracts see its first state, the two lists, the present state and the states that are kept besides. An undo, a redo and a step
/// that is put in while fewer than [`ROOM`] are done take no memory, and none of them runs a step of the machine.
pub struct Trail<S, A> {
    first: Arc<S>,
    steps: Vec<Step<S, A>>,
    count: usize,
}

impl<S: Drop, A: Drop> Drop for Trail<S, A> {
    fn drop(self) {
        let Trail {
            first,
            steps,
            count: _,
        } = self;
        drop(first);
        drop(steps);
    }
}

impl<S, A> Model for Trail<S, A> {
    ghost use Rattle.std.specs.Prelude.{◌≤◌, length};
    ghost use Rattle.std.specs.Arc.{arc_value};
    ghost use Rattle.std.specs.Vec.{vec_capacity};
    ghost use Rattle.undo_redo.specs.Kept.{Kept};
    ghost use Rattle.undo_redo.specs.Wound.{wound};
    ghost use Rattle.undo_redo.specs.declared.trail.TheConstants.{ROOM};

    ghost Value = { Kept S A };

    ghost view = { λ t. wound (arc_value t.first) t.steps.items t.count };

    ghost invariant = { λ t. (t.count ≤ length t.steps.items) × (ROOM ≤ vec_capacity t.steps) };
}

impl<S, A> Trail<S, A> {
    /// The present state.
    pub fn now(&self) -> &S
        ensures { result.now ≡ self.now.now }
    {
        if self.count == 0 {
            &self.first
        } else {
            self.steps[self.count - 1].after()
        }
    }

    /// The act that was done last, if any.
    pub fn last_done(&self) -> Option<&A>
        ensures { option_copied result ≡ slice_get self.now.done 0 }
    {
        if self.count == 0 {
            None
        } else {
            Some(self.steps[self.count - 1].act())
        }
    }

    /// The act that is done again next, if any.
    pub fn first_undone(&self) -> Option<&A>
        ensures { option_copied result ≡ slice_get self.now.undone 0 }
    {
        if self.count < self.steps.len() {
            Some(self.steps[self.count].act())
        } else {
            None
        }
    }

    /// The state that an undo leads to, if any act is done.
    pub fn before(&self) -> Option<&Arc<S>>
        ensures { option_map (λ kept. arc_value kept) (option_copied result) ≡ slice_get self.now.past 0 }
    {
        if self.count == 0 {
            None
        } else if self.count == 1 {
            Some(&self.first)
        } else {
            Some(self.steps[self.count - 2].kept())
        }
    }

    /// The state that a redo leads to, if any act is undone.
    pub fn ahead(&self) -> Option<&Arc<S>>
        ensures { option_map (λ kept. arc_value kept) (option_copied result) ≡ slice_get self.now.ahead 0 }
    {
        if self.count < self.steps.len() {
            Some(self.steps[self.count].kept())
        } else {
            None
        }
    }
}

impl<S: Drop, A: Drop> Trail<S, A> {
    /// A trail on which nothing was done yet, whatever the machine.
    pub fn new(alloc: Global, first: S) -> Result<Self, NoMemory>
        ensures { IfOk result (λ t. t ≡ new_trail first) }
    {
        let steps = Vec::with_capacity(alloc, ROOM)?;
        let first = Arc::new(alloc, first)?;
        Ok(Trail {
            first,
            steps,
            count: 0,
        })
    }

    /// Does an act, which empties the undone ones. It is false exactly where the machine refuses.
    pub fn advance<M: Machine<State = S, Act = A>>(
        &mut self,
        alloc: Global,
        machine: &M,
        act: A,
    ) -> Result<bool, NoMemory>
        requires trail { IsTrail (M.stepped machine.now) (M.state_fits machine.now) (M.act_fits machine.now) self.old }
        requires act { M.act_fits machine.now act }
        ensures moves { Advanced (M.stepped machine.now) act result self.old self.new }
        ensures trail { IsTrail (M.stepped machine.now) (M.state_fits machine.now) (M.act_fits machine.now) self.new }
    {
        match machine.step(alloc, self.now(), &act) {
            Ok(Some(next)) => self.append(alloc, machine, act, next),
            Ok(None) => Ok(false),
            Err(failed) => Err(failed),
        }
    }

    /// Puts in an act with the state that it leads to, which empties the undone ones.
    fn append<M: Machine<State = S, Act = A>>(
        &mut self,
        alloc: Global,
        machine: &M,
        act: A,
        next: S,
    ) -> Result<bool, NoMemory>
        requires trail { IsTrail (M.stepped machine.now) (M.state_fits machine.now) (M.act_fits machine.now) self.old }
        requires act { M.act_fits machine.now act }
        requires state { M.state_fits machine.now next }
        requires step { M.stepped machine.now self.old.now act ≡ Some next }
        ensures moves { Advanced (M.stepped machine.now) act result self.old self.new }
        ensures trail { IsTrail (M.stepped machine.now) (M.state_fits machine.now) (M.act_fits machine.now) self.new }
    {
        let _machine = machine;
        let step = Step::new(alloc, act, next)?;
        put_growing(&mut self.steps, self.count, step)?;
        self.count += 1;
        Ok(true)
    }

    /// Puts in the machine's step from the present state, which empties the undone acts. It takes no memory.
    pub fn commit<M: Machine<State = S, Act = A>>(&mut self, machine: &M, step: Step<S, A>)
        requires trail { IsTrail (M.stepped machine.now) (M.state_fits machine.now) (M.act_fits machine.now) self.old }
        requires act { M.act_fits machine.now step.act }
        requires state { M.state_fits machine.now step.after }
        requires step { M.stepped machine.now self.old.now step.act ≡ Some step.after }
        requires room { length self.old.done < ROOM }
        ensures moves { Does (M.stepped machine.now) step.act self.old self.new }
        ensures trail { IsTrail (M.stepped machine.now) (M.state_fits machine.now) (M.act_fits machine.now) self.new }
    {
        let _machine = machine;
        put(&mut self.steps, self.count, step);
        self.count += 1;
    }

    /// Undoes the last act that was done. It is false exactly where none is done. It takes no memory.
    pub fn undo<M: Machine<State = S, Act = A>>(&mut self, machine: &M) -> Result<bool, NoMemory>
        requires { IsTrail (M.stepped machine.now) (M.state_fits machine.now) (M.act_fits machine.now) self.old }
        ensures moves { Undone (M.stepped machine.now) result self.old self.new }
        ensures trail { IsTrail (M.stepped machine.now) (M.state_fits machine.now) (M.act_fits machine.now) self.new }
        ensures sure { IsOk result }
    {
        let _machine = machine;
        if self.count == 0 {
            return Ok(false);
        }
        self.count -= 1;
        Ok(true)
    }

    /// Does the first undone act again. It is false exactly where none is undone. It takes no memory.
    pub fn redo<M: Machine<State = S, Act = A>>(&mut self, machine: &M) -> Result<bool, NoMemory>
        requires { IsTrail (M.stepped machine.now) (M.state_fits machine.now) (M.act_fits machine.now) self.old }
        ensures moves { Redone (M.stepped machine.now) result self.old self.new }
        ensures trail { IsTrail (M.stepped machine.now) (M.state_fits machine.now) (M.act_fits machine.now) self.new }
        ensures sure { IsOk result }
    {
        let _machine = machine;
        if self.count == self.steps.len() {
            return Ok(false);
        }
        self.count += 1;
        Ok(true)
    }

    /// An equal trail, which shares all states and acts.
    pub fn copy(&self, alloc: Global) -> Result<Self, NoMemory>
        ensures { IfOk result (λ t. t ≡ self.now) }
    {
        let steps = copies(alloc, self.steps.as_slice(), ROOM)?;
        let first = Arc::try_clone(&self.first)?;
        Ok(Trail {
            first,
            steps,
            count: self.count,
        })
    }
}

/// A new trail is one of every machine that its first state fits. It is a law; there is nothing to run.
pub fn new_is_a_trail<M: Machine>(machine: &M)
    ensures { (first : M.State) → M.state_fits machine.now first
        → IsTrail (M.stepped machine.now) (M.state_fits machine.now) (M.act_fits machine.now) (new_trail first) }
{
    let _machine = machine;
}

/// After any list of calls on a new trail of a machine, each with its answer, the trail keeps the struck list of the calls
/// that were answered yes, and its present state is the fold over what that list has done. It is a law; there is nothing to run.
#[tactic(auto, using(crate::proofs::Strikes::keeps_struck_list))]
pub fn keeps_struck_list<M: Machine>(machine: &M)
    ensures { KeepsStruckList (M.stepped machine.now) }
{
    let _machine = machine;
}
