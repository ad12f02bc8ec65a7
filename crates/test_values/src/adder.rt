//! A machine whose state is a number and whose act adds to it.

use game_sheet::NoMemory;
use std::alloc::Global;
use std::sync::atomic::{AtomicU64, Ordering};
use undo_redo::Machine;

/// Adds numbers from 1 to 1,000 to a number below a thousand million, and counts its steps.
#[derive(Drop)]
pub struct Adder {
    steps: AtomicU64,
}

impl Adder {
    /// An adder that made no step yet.
    pub fn new() -> Self {
        Adder {
            steps: AtomicU64::new(0),
        }
    }

    /// How many steps it made.
    pub fn steps(&self) -> u64 {
        self.steps.load(Ordering::SeqCst)
    }
}

impl Machine for Adder {
    ghost use Rattle.std.specs.Prelude.{◌+◌, ◌≤◌, nat_lt, if◌then◌else◌, Some, None};

    type State = u64;

    type Act = u32;

    ghost stepped = { λ _ state act. if nat_lt state 1000000000 then Some (state + act) else None };

    ghost state_fits = { λ _ _. Unit {0} };

    ghost act_fits = { λ _ act. (1 ≤ act) × (act ≤ 1000) };

    fn step(&self, alloc: Global, state: &u64, act: &u32) -> Result<Option<u64>, NoMemory> {
        let _alloc = alloc;
        self.steps.fetch_add(1, Ordering::SeqCst);
        if *state < 1_000_000_000 {
            Ok(Some(*state + u64::from(*act)))
        } else {
            Ok(None)
        }
    }
}
