//! How many steps code takes at most, and how deep it is.

ghost use Rattle.std.specs.Prelude.{◌≡◌, ◌+◌, ◌*◌, ◌-◌, ◌^◌, min, max};

/// The greatest count of steps of a part of code, and how many nodes stand in one another. Both stop at the greatest number of their type.
#[derive(Clone, Copy, PartialEq, Eq)]
pub struct Cost {
    /// How many steps.
    pub steps: u64,
    /// How many nodes in one another.
    pub depth: u32,
}

impl Cost {
    /// Of nothing.
    pub const NOTHING: Cost = Cost { steps: 0, depth: 0 };

    /// Of a node that is made of no other.
    pub const LEAF: Cost = Cost { steps: 1, depth: 1 };

    /// Of both, one after the other.
    pub fn and(self, other: Cost) -> Cost
        ensures { result.depth ≡ max self.depth other.depth }
    {
        Cost {
            steps: self.steps.saturating_add(other.steps),
            depth: self.depth.max(other.depth),
        }
    }

    /// Of the dearer one.
    pub fn or(self, other: Cost) -> Cost
        ensures steps { result.steps ≡ max self.steps other.steps }
        ensures depth { result.depth ≡ max self.depth other.depth }
    {
        Cost {
            steps: self.steps.max(other.steps),
            depth: self.depth.max(other.depth),
        }
    }

    /// Of so many more steps.
    pub fn more(self, steps: u64) -> Cost
        ensures { result.depth ≡ self.depth }
    {
        Cost {
            steps: self.steps.saturating_add(steps),
            depth: self.depth,
        }
    }

    /// Of so many rounds of it.
    pub fn times(self, rounds: u32) -> Cost
        ensures { result.depth ≡ self.depth }
    {
        Cost {
            steps: self.steps.saturating_mul(u64::from(rounds)),
            depth: self.depth,
        }
    }

    /// Of a node that is made of it.
    pub fn within(self) -> Cost {
        Cost {
            steps: self.steps.saturating_add(1),
            depth: self.depth.saturating_add(1),
        }
    }
}
