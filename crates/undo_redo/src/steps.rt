//! One step of a trail: an act and the state that it led to, both shared.

ghost use Rattle.std.specs.Prelude.{◌≡◌, ◌≤◌, ◌<◌, ◌∷◌, ◌++◌, [], IfOk, OnErr, OnOk, length, take};
ghost use Rattle.std.specs.Vec.{vec_capacity};
ghost use Rattle.std.specs.Arc.{arc_value};

use game_sheet::NoMemory;
use std::alloc::Global;
use std::marker::Model;
use std::sync::Arc;

/// An act and the state that it led to. Contracts see both; a copy shares them.
pub struct Step<S, A> {
    act: Arc<A>,
    after: Arc<S>,
}

impl<S: Drop, A: Drop> Drop for Step<S, A> {
    fn drop(self) {
        let Step { act, after } = self;
        drop(act);
        drop(after);
    }
}

impl<S, A> Model for Step<S, A> {
    ghost use Rattle.std.specs.Arc.{arc_value};
    ghost use Rattle.undo_redo.specs.Taken.{Taken};

    ghost Value = { Taken S A };

    ghost view = { λ s. record { act = arc_value s.act; after = arc_value s.after } };
}

impl<S: Drop, A: Drop> Step<S, A> {
    /// A step to a state of its own.
    pub fn new(alloc: Global, act: A, after: S) -> Result<Self, NoMemory>
        ensures act { IfOk result (λ step. step.act ≡ act) }
        ensures after { IfOk result (λ step. step.after ≡ after) }
    {
        let after = Arc::new(alloc, after)?;
        let act = Arc::new(alloc, act)?;
        Ok(Step { act, after })
    }

    /// The same act and state.
    pub(crate) fn share(&self) -> Result<Self, NoMemory>
        ensures { IfOk result (λ step. step ≡ self.now) }
    {
        let act = Arc::try_clone(&self.act)?;
        let after = Arc::try_clone(&self.after)?;
        Ok(Step { act, after })
    }
}

impl<S, A> Step<S, A> {
    /// The act.
    pub fn act(&self) -> &A
        ensures { result.now ≡ self.now.act }
    {
        &self.act
    }

    /// The state that it led to.
    pub fn after(&self) -> &S
        ensures { result.now ≡ self.now.after }
    {
        &self.after
    }

    /// The state that it led to, to be kept elsewhere too.
    pub(crate) fn kept(&self) -> &Arc<S>
        ensures { arc_value result.now ≡ self.now.after }
    {
        &self.after
    }
}

/// The same steps, with room for at least so many.
pub(crate) fn copies<S: Drop, A: Drop>(
    alloc: Global,
    steps: &[Step<S, A>],
    room: usize,
) -> Result<Vec<Step<S, A>>, NoMemory>
    ensures steps { IfOk result (λ copied. copied.items ≡ steps.now) }
    ensures room { IfOk result (λ copied. room ≤ vec_capacity copied) }
{
    let mut copied = Vec::with_capacity(alloc, room)?;
    'steps: for step in steps {
        push_shared(&mut copied, step)?;
    }
    Ok(copied)
}

/// Adds the same act and state at the end.
fn push_shared<S: Drop, A: Drop>(
    copied: &mut Vec<Step<S, A>>,
    step: &Step<S, A>,
) -> Result<(), NoMemory>
    ensures steps { OnOk result (copied.new.items ≡ copied.old.items ++ step.now ∷ []) }
    ensures room { OnOk result (vec_capacity copied.old ≤ vec_capacity copied.new) }
{
    let shared = step.share()?;
    copied.push(shared)?;
    Ok(())
}

/// Keeps the first steps and puts one more after them. It takes no memory.
pub(crate) fn put<S: Drop, A: Drop>(steps: &mut Vec<Step<S, A>>, count: usize, step: Step<S, A>)
    requires inside { count ≤ length steps.old.items }
    requires room { count < vec_capacity steps.old }
    ensures steps { steps.new.items ≡ take count steps.old.items ++ step ∷ [] }
    ensures room { vec_capacity steps.new ≡ vec_capacity steps.old }
{
    steps.truncate(count);
    steps.push_reserved(step);
}

/// Keeps the first steps and puts one more after them, with more room where there is none. Without memory the steps stay.
pub(crate) fn put_growing<S: Drop, A: Drop>(
    steps: &mut Vec<Step<S, A>>,
    count: usize,
    step: Step<S, A>,
) -> Result<(), NoMemory>
    requires inside { count ≤ length steps.old.items }
    ensures ok { OnOk result (steps.new.items ≡ take count steps.old.items ++ step ∷ []) }
    ensures err { OnErr result (steps.new.items ≡ steps.old.items) }
    ensures room { vec_capacity steps.old ≤ vec_capacity steps.new }
{
    match steps.reserve(1) {
        Ok(()) => {
            put(steps, count, step);
            Ok(())
        }
        Err(failed) => {
            drop(step);
            Err(NoMemory::from(failed))
        }
    }
}
