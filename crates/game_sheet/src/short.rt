//! A short text that takes no memory, for arguments of moves.

ghost use Rattle.std.specs.Prelude.{◌≡◌, ◌≤◌, true, if◌then◌else◌, length};
ghost use Rattle.std.specs.Str.{is_utf8};
ghost use Rattle.game_sheet.specs.Short.{is_short, is_plain, padded};

use std::marker::Model;
use std::str;

/// A text of at most 64 bytes of UTF-8, none of them below 32. Contracts see its bytes.
#[derive(Clone, Copy, PartialEq, Eq)]
pub struct Short {
    bytes: [u8; 64],
    len: usize,
}

impl Model for Short {
    ghost use Rattle.std.specs.Prelude.{◌≡◌, List, ℕ, length, take, true};
    ghost use Rattle.std.proofs.Common.{sym};
    ghost use Rattle.game_sheet.specs.Short.{is_short, padded};

    ghost Value = { List ℕ };

    ghost view = { λ s. take s.len s.bytes };

    ghost invariant = { λ s. (s.bytes ≡ padded (take s.len s.bytes)) × (length (take s.len s.bytes) ≡ s.len) × (is_short (take s.len s.bytes) ≡ true) };

    ghost inverse = { λ text. record { bytes = padded text; len = length text } };

    ghost inverse_ok = { λ s h i. record { bytes = sym h.0 i; len = h.1 i } };
}

impl Short {
    /// The greatest count of bytes.
    pub const MOST: usize = 64;

    /// The short text of these bytes; none exactly where they are more than 64, aren't UTF-8, or have one below 32.
    pub fn of(bytes: &[u8]) -> Option<Self>
        ensures { result ≡ (if is_short bytes.now then Some bytes.now else None) }
    {
        if !is_short(bytes) {
            return None;
        }
        Some(Short {
            bytes: padded(bytes),
            len: bytes.len(),
        })
    }

    /// The text.
    pub fn as_str(&self) -> &str
        ensures value { result.now ≡ self.now }
        ensures short { is_short self.now ≡ true }
    {
        match str::from_utf8(&self.bytes[..self.len]) {
            Ok(text) => text,
            Err(_) => unreachable!(),
        }
    }
}

/// Whether a short text can hold these bytes.
fn is_short(bytes: &[u8]) -> bool
    ensures { result ≡ is_short bytes.now }
{
    bytes.len() <= Short::MOST && is_plain(bytes) && is_utf8(bytes)
}

/// Whether no byte is below 32.
fn is_plain(bytes: &[u8]) -> bool
    ensures { result ≡ is_plain bytes.now }
{
    bytes.iter().all(|byte| *byte >= 32)
}

fn is_utf8(bytes: &[u8]) -> bool
    ensures { result ≡ is_utf8 bytes.now }
{
    match str::from_utf8(bytes) {
        Ok(_) => true,
        Err(_) => false,
    }
}

/// The bytes with zeros behind them.
fn padded(bytes: &[u8]) -> [u8; 64]
    requires { length bytes.now ≤ 64 }
    ensures { result ≡ padded bytes.now }
{
    let mut kept = [0; 64];
    let front = &mut kept[..bytes.len()];
    front.copy_from_slice(bytes);
    kept
}
