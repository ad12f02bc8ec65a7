//! What a workload counts.

ghost use Rattle.std.specs.Prelude.{◌≡◌, ◌<◌, ◌≤◌, ◌+◌, ◌*◌, ◌^◌, ℕ};
ghost use Rattle.workload.specs.IsLoad.{most_more};

/// How many actions were accepted and refused, how many no client made, how many lines clients read, and how many bytes Takes handed out.
#[derive(Clone, Copy)]
pub struct Counts {
    /// The actions that broke no rule.
    pub accepted: u128,
    /// The actions that broke a rule.
    pub refused: u128,
    /// The actions that no client made.
    pub held: u128,
    /// The lines that clients read.
    pub read: u128,
    /// The bytes that Takes handed out.
    pub bytes: u128,
}

impl Counts {
    /// Nothing was counted yet.
    pub(crate) fn new() -> Self
        ensures accepted { result.accepted ≡ 0 }
        ensures refused { result.refused ≡ 0 }
        ensures held { result.held ≡ 0 }
        ensures read { result.read ≡ 0 }
        ensures bytes { result.bytes ≡ 0 }
    {
        Counts {
            accepted: 0,
            refused: 0,
            held: 0,
            read: 0,
            bytes: 0,
        }
    }
}

/// So many more. A count stands still at its type's end, which the lines of a run don't come near.
pub(crate) fn more(count: u128, by: u64) -> u128
    ensures { (lines : ℕ) → lines < 2 ^ 64 → count ≤ lines * most_more
        → (result ≡ count + by) × (result ≤ (lines + 1) * most_more) }
{
    count.saturating_add(u128::from(by))
}
