//! Machines of steps, over which a trail goes.

ghost use Rattle.std.specs.Prelude.{◌≡◌, Option, IfOk, IfSome};

use game_sheet::NoMemory;
use std::alloc::Global;

/// States and acts, and the step from a state by an act.
pub trait Machine {
    /// The type of the states.
    type State: Drop;
    /// The type of the acts.
    type Act: Drop;

    /// The state after a state by an act; none where the machine refuses.
    ghost stepped: { Self → Self.State → Self.Act → Option Self.State };

    /// Which states fit the machine.
    ghost state_fits: { Self → Self.State → Type 0 };

    /// Which acts fit the machine.
    ghost act_fits: { Self → Self.Act → Type 0 };

    /// The state after an act; none where the machine refuses. A state that it gives fits.
    fn step(
        &self,
        alloc: Global,
        state: &Self::State,
        act: &Self::Act,
    ) -> Result<Option<Self::State>, NoMemory>
        requires state { state_fits self.now state.now }
        requires act { act_fits self.now act.now }
        ensures value { IfOk result (λ next. next ≡ stepped self.now state.now act.now) }
        ensures fits { IfOk result (λ next. IfSome next (state_fits self.now)) };
}
