//! What a desk keeps: an object that takes one call at a time and stands for the list of the calls that it took.

ghost use Rattle.std.specs.Prelude.{◌≡◌, ◌∷◌, true};
ghost use Rattle.room_object.specs.Entry.{Entry};

/// An object under a desk. Its answers are those of one history, the list of its entries, latest first.
pub trait Object: Drop {
    ghost use Rattle.std.specs.Prelude.{ℕ, Bool, List};
    ghost use Rattle.room_object.specs.Entry.{Entry};

    /// What is asked of it.
    type Call: Drop;

    /// What it answers.
    type Reply: Drop;

    /// The object's number, 0 to 255, which no call changes.
    ghost number: { Self → ℕ };

    /// Whether it stands for this list of entries, the latest first.
    ghost stands_for: { Self → List (Entry Self.Call) → Type 0 };

    /// What an object of this number replies to an entry after this list.
    ghost reply: { ℕ → List (Entry Self.Call) → Entry Self.Call → Self.Reply };

    /// Whether a reply is want of memory.
    ghost is_starved: { Self.Reply → Bool };

    /// Whether a call may be answered by want of memory.
    ghost may_starve: { Self.Call → Bool };

    /// Makes a call for the pass of this number.
    fn apply(&mut self, pass: u32, call: Self::Call) -> Self::Reply
        requires history { (h : List (Entry Self.Call)) × stands_for self.old h }
        ensures number { number self.new ≡ number self.old }
        ensures answered { (h : List (Entry Self.Call)) → stands_for self.old h → result ≡ reply (number self.old) h (record { pass = pass; call = call; starved = is_starved result }) }
        ensures stands { (h : List (Entry Self.Call)) → stands_for self.old h → stands_for self.new (record { pass = pass; call = call; starved = is_starved result } ∷ h) }
        ensures fed { is_starved result ≡ true → may_starve call ≡ true };
}
