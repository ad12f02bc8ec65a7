//! Where bytes come from.

ghost use Rattle.std.specs.Prelude.{◌≤◌, ◌<◌, length, IsSome};

/// What a source answers.
#[derive(Clone, Copy, PartialEq, Eq, Debug)]
pub enum Piece {
    /// So many bytes stand at the beginning of the room that was given.
    Got(usize),
    /// There are no more bytes.
    End,
    /// The read failed, and the count of faults rose.
    Failed,
}

/// A source of bytes, such as standard input.
pub trait Source {
    ghost use Rattle.std.specs.Prelude.{ℕ, List, Option};
    ghost use Rattle.board_links.specs.Pieces.{told_bytes, HasSize, ReadRaises, Reads};

    /// The bytes that are left, where the source tells them; a real file tells nothing.
    ghost left: { Self → Option (List ℕ) };

    /// How many reads have failed.
    ghost faults: { Self → ℕ };

    /// Puts the next bytes at the beginning of `buf`, 1 to as many as it has room for.
    fn next(&mut self, buf: &mut [u8]) -> Piece
        requires { 0 < length buf.old }
        ensures size { HasSize result (length buf.new) }
        ensures never_falls { faults self.old ≤ faults self.new }
        ensures raises { ReadRaises result (faults self.old) (faults self.new) }
        ensures told { IsSome (left self.old) → Reads result buf.new (told_bytes (left self.old)) (left self.new) };
}
