//! Bytes that are handed out, line by line.

ghost use Rattle.std.specs.Prelude.{◌≡◌, ◌+◌, ◌<◌, ◌≤◌, ◌∷◌, true, [], length, map, take, drop, slice_get, IfSome};
ghost use Rattle.std.specs.List.{concat, list_all};
ghost use Rattle.game_sheet.specs.Lines.{first_length, is_line, lines};

use std::marker::Model;
use std::sync::Arc;

/// Finished bytes on their way out, such as whole lines for a client. Contracts see the bytes.
///
/// They are read piece by piece: the pieces are the lines, each with its newline. None is empty, and the last alone may have no
/// newline.
pub struct Bytes {
    held: Held,
}

impl Drop for Bytes {
    fn drop(self) {
        let Bytes { held } = self;
        drop(held);
    }
}

/// Where the bytes stand.
#[derive(Drop)]
enum Held {
    /// In a vector.
    Owned(Vec<u8>),
    /// In the program.
    Fixed(&'static [u8]),
    /// In lines that others hold too.
    Shared(Vec<Arc<Vec<u8>>>),
    /// In the value itself.
    InPlace(InPlace),
}

/// A few bytes in an array, with zeros behind them.
#[derive(Clone, Copy)]
struct InPlace {
    bytes: [u8; 128],
    len: usize,
    ghost within: { len ≤ 128 },
}

impl Model for Bytes {
    ghost use Rattle.std.specs.Prelude.{◌≡◌, List, ℕ, true};

    ghost Value = { List ℕ };

    ghost use Rattle.game_sheet.specs.Held.{are_lines, bytes_held};

    ghost view = { λ b. bytes_held b.held };

    ghost invariant = { λ b. are_lines b.held ≡ true };
}

impl Bytes {
    /// No bytes. It takes no memory.
    pub fn none() -> Self
        ensures { result ≡ [] }
    {
        Bytes {
            held: Held::Fixed(&[]),
        }
    }

    /// The bytes of a vector.
    pub fn from_vec(bytes: Vec<u8>) -> Self
        ensures { result ≡ bytes.items }
    {
        Bytes {
            held: Held::Owned(bytes),
        }
    }

    /// Bytes that stand in the program. It takes no memory.
    pub fn fixed(bytes: &'static [u8]) -> Self
        ensures { result ≡ bytes.now }
    {
        Bytes {
            held: Held::Fixed(bytes),
        }
    }

    /// At most 128 bytes, which are copied into the value. It takes no memory.
    pub fn short(bytes: &[u8]) -> Self
        requires { length bytes.now ≤ 128 }
        ensures { result ≡ bytes.now }
    {
        let mut kept = [0; 128];
        let front = &mut kept[..bytes.len()];
        front.copy_from_slice(bytes);
        Bytes {
            held: Held::InPlace(InPlace {
                bytes: kept,
                len: bytes.len(),
            }),
        }
    }

    /// Lines that others may hold too, each with its newline.
    pub fn from_lines(shared: Vec<Arc<Vec<u8>>>) -> Self
        requires { list_all (λ line. is_line line.value.items) shared.items ≡ true }
        ensures { result ≡ concat (map (λ line. line.value.items) shared.items) }
    {
        Bytes {
            held: Held::Shared(shared),
        }
    }

    /// How many lines there are. It takes no memory; it reads the bytes once, but for shared lines.
    pub fn count(&self) -> usize
        ensures { result ≡ length (lines self.now) }
    {
        match &self.held {
            Held::Owned(bytes) => line_count(bytes.as_slice()),
            Held::Fixed(bytes) => line_count(bytes),
            Held::Shared(shared) => shared.len(),
            Held::InPlace(kept) => line_count(&kept.bytes[..kept.len]),
        }
    }

    /// The line at a place, counted from 0. It takes no memory; it reads the bytes up to the end of the line, but for shared lines.
    pub fn piece(&self, place: usize) -> &[u8]
        requires { place < length (lines self.now) }
        ensures { slice_get (lines self.now) place ≡ Some result.now }
    {
        match &self.held {
            Held::Owned(bytes) => line_at(bytes.as_slice(), place),
            Held::Fixed(bytes) => line_at(bytes, place),
            Held::Shared(shared) => shared[place].as_slice(),
            Held::InPlace(kept) => line_at(&kept.bytes[..kept.len], place),
        }
    }

    /// The bytes in one slice, where they stand in one; none for shared lines. It takes no memory.
    pub fn whole(&self) -> Option<&[u8]>
        ensures { IfSome result (λ bytes. bytes.now ≡ self.now) }
    {
        match &self.held {
            Held::Owned(bytes) => Some(bytes.as_slice()),
            Held::Fixed(bytes) => Some(bytes),
            Held::Shared(_) => None,
            Held::InPlace(kept) => Some(&kept.bytes[..kept.len]),
        }
    }
}

/// How many bytes the first line has; 0 where there is none.
fn first_length(bytes: &[u8]) -> usize
    ensures value { result ≡ first_length bytes.now }
    ensures within { result ≤ length bytes.now }
    ensures some { 0 < length bytes.now → 0 < result }
    ensures line { 0 < length bytes.now → lines bytes.now ≡ take result bytes.now ∷ lines (drop result bytes.now) }
{
    let mut length = 0;
    for byte in bytes {
        length += 1;
        if *byte == b'\n' {
            return length;
        }
    }
    length
}

fn line_count(bytes: &[u8]) -> usize
    ensures { result ≡ length (lines bytes.now) }
{
    let mut rest = bytes;
    let mut count = 0;
    while !rest.is_empty() {
        rest = &rest[first_length(rest)..];
        count += 1;
    }
    count
}

fn line_at(bytes: &[u8], place: usize) -> &[u8]
    requires { place < length (lines bytes.now) }
    ensures { slice_get (lines bytes.now) place ≡ Some result.now }
{
    let mut rest = bytes;
    for _line in 0..place {
        rest = &rest[first_length(rest)..];
    }
    &rest[..first_length(rest)]
}
