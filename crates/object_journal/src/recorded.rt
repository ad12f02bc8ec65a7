//! What an object has to tell so that its accepted calls can be kept.

use game_sheet::NoMemory;
use room_object::Object;
use std::alloc::Global;

/// An object that says which record each of its calls adds.
pub trait Recorded: Object {
    ghost use Rattle.std.specs.Prelude.{◌≡◌, ℕ, Bool, true, false, List, [], Option, IfOk};
    ghost use Rattle.room_object.specs.Entry.{Entry};
    ghost use Rattle.object_journal.specs.Keeping.{Adds};

    /// The payloads of the records of a history, the oldest first.
    ghost records: { ℕ → List (Entry Self.Call) → List (List ℕ) };

    /// The payload of the record that a call would add after a history; none where it adds none, whatever it is replied.
    ghost payload_of: { ℕ → List (Entry Self.Call) → ℕ → Self.Call → Option (List ℕ) };

    /// Whether a reply says that the call changed what is kept.
    ghost is_accepted: { Self.Reply → Bool };

    /// Whether a call is one that its record can name.
    ghost is_in_form: { Self.Call → Type 0 };

    /// The record that a call would add, with a closed gate behind it; none where it adds none, whatever it is replied.
    fn frame_of(
        &self,
        alloc: Global,
        pass: u32,
        call: &Self::Call,
    ) -> Result<Option<Vec<u8>>, NoMemory>
        requires { is_in_form call.now }
        ensures { (h : List (Entry Self.Call)) → Self.stands_for self.now h
            → IfOk result (Adds (payload_of (Self.number self.now) h pass call.now) (records (Self.number self.now)) (Self.reply (Self.number self.now)) is_accepted h pass call.now) };

    /// Whether a reply says that the call changed what is kept.
    fn accepted(reply: &Self::Reply) -> bool
        ensures { result ≡ is_accepted reply.now };

    /// Whether a reply is want of memory.
    fn starved(reply: &Self::Reply) -> bool
        ensures { result ≡ Self.is_starved reply.now };

    /// Nothing is kept at first.
    ghost begins: { (n : ℕ) → records n [] ≡ [] };

    /// A call that met a want of memory wasn't accepted.
    ghost starved_alone: { (reply : Self.Reply) → Self.is_starved reply ≡ true → is_accepted reply ≡ false };
}
