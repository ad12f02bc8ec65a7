//! The text of one value, appended to bytes.

ghost use Rattle.std.specs.Prelude.{◌≡◌, ◌++◌, OnOk, true};
ghost use Rattle.serde_json.specs.Data.{boolean, null, string};
ghost use Rattle.serde_json.specs.Written.{comma_if, compact_text};
ghost use Rattle.json_text.specs.Numbers.{integer, natural, naturals};
ghost use Rattle.json_text.specs.Unescaped.{is_plain, needs_no_escape};

use itoa::Buffer;
use json::Writer;
use std::alloc::{AllocError, Global};
use std::mem;

/// Appends null.
pub fn put_null(out: &mut Vec<u8>) -> Result<(), AllocError>
    ensures { OnOk result (out.new.items ≡ out.old.items ++ compact_text null) }
{
    out.extend_from_slice(b"null")
}

/// Appends true or false.
pub fn put_boolean(out: &mut Vec<u8>, truth: bool) -> Result<(), AllocError>
    ensures { OnOk result (out.new.items ≡ out.old.items ++ compact_text (boolean truth)) }
{
    if truth {
        out.extend_from_slice(b"true")
    } else {
        out.extend_from_slice(b"false")
    }
}

/// Appends a whole number from 0 on.
#[tactic(auto, using(std::proofs::lemmas::Fmt::decimal_digit))]
pub fn put_natural(out: &mut Vec<u8>, n: u64) -> Result<(), AllocError>
    ensures { OnOk result (out.new.items ≡ out.old.items ++ compact_text (natural n)) }
{
    // Most numbers have one digit, and need no buffer.
    if n < 10 {
        out.push(b'0' + n as u8)?;
        return Ok(());
    }
    let mut buffer = Buffer::new();
    out.extend_from_slice(buffer.format(n).as_bytes())
}

/// Appends a whole number with its sign.
pub fn put_integer(out: &mut Vec<u8>, n: i64) -> Result<(), AllocError>
    ensures { OnOk result (out.new.items ≡ out.old.items ++ compact_text (integer n)) }
{
    let mut buffer = Buffer::new();
    out.extend_from_slice(buffer.format(n).as_bytes())
}

/// Appends a text, in quotation marks and with escapes. One that needs none, as most do, is copied.
pub fn put_string(alloc: Global, out: &mut Vec<u8>, text: &str) -> Result<(), AllocError>
    ensures { OnOk result (out.new.items ≡ out.old.items ++ compact_text (string text.now)) }
{
    if needs_no_escape(text) {
        put_plain(out, text)
    } else {
        put_escaped(alloc, out, text)
    }
}

fn put_plain(out: &mut Vec<u8>, text: &str) -> Result<(), AllocError>
    requires { needs_no_escape text.now ≡ true }
    ensures { OnOk result (out.new.items ≡ out.old.items ++ compact_text (string text.now)) }
{
    out.push(b'"')?;
    out.extend_from_slice(text.as_bytes())?;
    out.push(b'"')?;
    Ok(())
}

fn needs_no_escape(text: &str) -> bool
    ensures { result ≡ needs_no_escape text.now }
{
    text.as_bytes().iter().all(|byte| is_plain(*byte))
}

fn is_plain(byte: u8) -> bool
    ensures { result ≡ is_plain byte }
{
    byte >= 32 && byte != b'"' && byte != b'\\'
}

#[tactic(auto, unfolding(json::specs::Print::print_from))]
fn put_escaped(alloc: Global, out: &mut Vec<u8>, text: &str) -> Result<(), AllocError>
    ensures { OnOk result (out.new.items ≡ out.old.items ++ compact_text (string text.now)) }
{
    let mut writer = Writer::new(mem::replace(out, Vec::new(alloc)));
    match writer.string(text) {
        Ok(()) => {
            *out = writer.into_inner();
            Ok(())
        }
        Err(error) => {
            *out = writer.into_inner();
            Err(error)
        }
    }
}

/// Appends an array of whole numbers from 0 on.
pub fn put_naturals(out: &mut Vec<u8>, ns: &[u8]) -> Result<(), AllocError>
    ensures { OnOk result (out.new.items ≡ out.old.items ++ compact_text (naturals ns.now)) }
{
    out.push(b'[')?;
    let mut later = false;
    for n in ns {
        put_comma(out, later)?;
        put_natural(out, u64::from(*n))?;
        later = true;
    }
    out.push(b']')?;
    Ok(())
}

/// Appends the comma before an item or a member that is not the first.
pub fn put_comma(out: &mut Vec<u8>, later: bool) -> Result<(), AllocError>
    ensures { OnOk result (out.new.items ≡ out.old.items ++ comma_if later) }
{
    if later {
        out.push(b',')?;
    }
    Ok(())
}
