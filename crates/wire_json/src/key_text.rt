//! Bytes in hexadecimal digits, and the texts of keys.

ghost use Rattle.std.specs.Prelude.{◌≡◌, ◌*◌, IfOk, OnOk, string_bytes};
ghost use Rattle.hex.specs.Hex.{encode_lower, IsBytes};
ghost use Rattle.wire_json.specs.KeyText.{lower_hex, key_from, IsKey};

use game_sheet::{Key, NoMemory};
use hex::FromHex;
use std::alloc::Global;

/// The `N` bytes that a text writes in `DIGITS`, twice as many, hexadecimal digits of lower case.
#[tactic(auto, unfolding(crate::specs::KeyText::lower_hex))]
pub fn lower_hex_of<const N: usize, const DIGITS: usize>(text: &[u8]) -> Option<[u8; N]>
    requires { DIGITS ≡ 2 * N }
    ensures { result ≡ lower_hex N text.now }
{
    let Ok(bytes) = <[u8; N] as FromHex>::from_hex(text) else {
        return None;
    };
    let mut back = [0u8; DIGITS];
    let Ok(()) = hex::encode_to_slice(&bytes, &mut back) else {
        unreachable!();
    };
    if &back[..] == text { Some(bytes) } else { None }
}

/// The key that a text writes in 32 hexadecimal digits of lower case.
pub fn key_of(text: &str) -> Option<Key>
    ensures { result ≡ key_from text.now }
{
    match lower_hex_of::<16, 32>(text.as_bytes()) {
        Some(bytes) => Some(Key::new(bytes)),
        None => None,
    }
}

/// The text of a key.
pub fn text_of_key(alloc: Global, key: &Key) -> Result<String, NoMemory>
    ensures text { IfOk result (λ text. string_bytes text ≡ encode_lower key.now) }
    ensures sixteen_bytes { OnOk result (IsKey key.now) }
{
    hex_of(alloc, key.bytes())
}

fn hex_of(alloc: Global, bytes: &[u8; 16]) -> Result<String, NoMemory>
    ensures text { IfOk result (λ text. string_bytes text ≡ encode_lower bytes.now) }
    ensures small { OnOk result (IsBytes bytes.now) }
{
    Ok(hex::encode(alloc, bytes)?)
}

/// The digits of a key's text.
pub fn digits_of_key(key: &Key) -> [u8; 32]
    ensures text { result ≡ encode_lower key.now }
    ensures sixteen_bytes { IsKey key.now }
{
    digits_of(key.bytes())
}

fn digits_of(bytes: &[u8; 16]) -> [u8; 32]
    ensures text { result ≡ encode_lower bytes.now }
    ensures small { IsBytes bytes.now }
{
    let mut digits = [0; 32];
    let Ok(()) = hex::encode_to_slice(bytes, &mut digits) else {
        unreachable!();
    };
    digits
}
