//! Where bytes go.

ghost use Rattle.std.specs.Prelude.{◌≤◌, IsSome};

/// What a sink answers.
#[derive(Clone, Copy, PartialEq, Eq, Debug)]
pub enum Put {
    /// All the bytes were taken.
    Done,
    /// The write failed, and the count of faults rose. A first part of the bytes may have been taken.
    Failed,
}

/// A sink of bytes, such as standard output.
pub trait Sink {
    ghost use Rattle.std.specs.Prelude.{ℕ, List, Option};
    ghost use Rattle.board_links.specs.Pieces.{told_bytes, WriteRaises, Writes};

    /// The bytes that it holds, where the sink tells them; a real file tells nothing.
    ghost held: { Self → Option (List ℕ) };

    /// How many writes have failed.
    ghost faults: { Self → ℕ };

    /// Puts bytes after those that went before.
    fn put(&mut self, bytes: &[u8]) -> Put
        ensures never_falls { faults self.old ≤ faults self.new }
        ensures raises { WriteRaises result (faults self.old) (faults self.new) }
        ensures told { IsSome (held self.old) → Writes result bytes.now (told_bytes (held self.old)) (held self.new) };
}
