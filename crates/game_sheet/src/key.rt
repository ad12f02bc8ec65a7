//! The secret that lets a session act for a seat.

ghost use Rattle.std.specs.Prelude.{◌≡◌, ◌↔◌, IsTrue, length};

use std::marker::Model;

/// Sixteen bytes that only the seat's owner knows. Contracts see the bytes; nothing prints them but the owner's own line.
#[derive(Clone, Copy)]
pub struct Key {
    bytes: [u8; 16],
}

impl Model for Key {
    ghost use Rattle.std.specs.Prelude.{List, ℕ};

    ghost Value = { List ℕ };

    ghost view = { λ k. k.bytes };

    ghost inverse = { λ bytes. record { bytes = bytes } };
}

impl Key {
    /// The key of sixteen bytes.
    pub fn new(bytes: [u8; 16]) -> Self
        ensures { result ≡ bytes }
    {
        Key { bytes }
    }

    /// The sixteen bytes.
    pub fn bytes(&self) -> &[u8; 16]
        ensures value { result.now ≡ self.now }
        ensures count { length self.now ≡ 16 }
    {
        &self.bytes
    }

    /// Whether two keys are the same.
    pub fn is(&self, other: &Key) -> bool
        ensures { IsTrue result ↔ (self.now ≡ other.now) }
    {
        self.bytes == other.bytes
    }
}
