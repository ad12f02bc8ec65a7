//! Appends the texts of members that several rows have.

ghost use Rattle.std.specs.Prelude.{◌≡◌, ◌++◌, OnOk, IsUtf8};
ghost use Rattle.hex.specs.Hex.{encode_lower};
ghost use Rattle.serde_json.specs.Data.{string};
ghost use Rattle.serde_json.specs.Written.{compact_text};
ghost use Rattle.sheet_json.specs.Seats.{natural};
ghost use Rattle.wire_json.specs.KeyText.{IsKey};
ghost use Rattle.wire_json.specs.MatchText.{match_text, IsName};

use crate::key_text::digits_of_key;
use game_sheet::{Key, MatchName, NoMemory};
use json_text::{put_natural, put_string};
use std::alloc::Global;
use std::str;

/// Appends a text, in quotation marks and with escapes.
pub fn put_text(alloc: Global, out: &mut Vec<u8>, text: &str) -> Result<(), NoMemory>
    ensures text { OnOk result (out.new.items ≡ out.old.items ++ compact_text (string text.now)) }
    ensures utf8 { OnOk result (IsUtf8 text.now) }
{
    let _bytes = text.as_bytes();
    Ok(put_string(alloc, out, text)?)
}

/// Appends the text of a match's name.
pub fn put_match(_alloc: Global, out: &mut Vec<u8>, name: &MatchName) -> Result<(), NoMemory>
    ensures text { OnOk result (out.new.items ≡ out.old.items ++ compact_text (string (match_text name.now))) }
    ensures named { OnOk result (IsName name.now) }
{
    out.push(b'"')?;
    put_natural(out, u64::from(name.room()))?;
    out.push(b'-')?;
    put_natural(out, name.serial())?;
    Ok(out.push(b'"')?)
}

/// Appends the text of a key.
pub fn put_key(alloc: Global, out: &mut Vec<u8>, key: &Key) -> Result<(), NoMemory>
    ensures text { OnOk result (out.new.items ≡ out.old.items ++ compact_text (string (encode_lower key.now))) }
    ensures sixteen_bytes { OnOk result (IsKey key.now) }
{
    let digits = digits_of_key(key);
    let Ok(text) = str::from_utf8(&digits) else {
        unreachable!();
    };
    put_text(alloc, out, text)
}

/// Appends a number of 32 bits.
pub fn put_number(out: &mut Vec<u8>, number: u32) -> Result<(), NoMemory>
    ensures { OnOk result (out.new.items ≡ out.old.items ++ compact_text (natural number)) }
{
    Ok(put_natural(out, u64::from(number))?)
}
