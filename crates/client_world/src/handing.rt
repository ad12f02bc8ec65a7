//! What a Take hands out, as lines on a link.

ghost use Rattle.std.specs.Prelude.{◌≡◌, ◌++◌, ◌∷◌, ◌<◌, ◌≤◌, length, take, drop, IfOk, OnOk};
ghost use Rattle.std.specs.List.{concat};
ghost use Rattle.game_sheet.specs.Lines.{first_length, lines};
ghost use Rattle.room_history.specs.Session.{bye_lines};

use crate::link::Link;
use game_sheet::{Bye, Bytes, NoMemory};
use std::alloc::Global;
use wire_json::bye_line;

/// The bytes that a Take hands out, those of the bye line included.
pub(crate) fn handed_out(
    alloc: Global,
    bytes: &Bytes,
    end: Option<Bye>,
) -> Result<Vec<u8>, NoMemory>
    ensures { IfOk result (λ all. all.items ≡ bytes.now ++ concat (bye_lines end)) }
{
    let mut all = bytes_of(alloc, bytes)?;
    let Some(why) = end else {
        return Ok(all);
    };
    all.extend_from_slice(bye_line(why))?;
    Ok(all)
}

/// Bytes in one piece.
pub(crate) fn bytes_of(alloc: Global, bytes: &Bytes) -> Result<Vec<u8>, NoMemory>
    ensures { IfOk result (λ all. all.items ≡ bytes.now) }
{
    match bytes.whole() {
        Some(whole) => Ok(Vec::from_slice(alloc, whole)?),
        None => joined(alloc, bytes),
    }
}

/// Lines that are held one by one, joined.
fn joined(alloc: Global, bytes: &Bytes) -> Result<Vec<u8>, NoMemory>
    ensures { IfOk result (λ all. all.items ≡ bytes.now) }
{
    let mut all = Vec::new(alloc);
    for place in 0..bytes.count() {
        all.extend_from_slice(bytes.piece(place))?;
    }
    Ok(all)
}

/// Puts the lines of some bytes on a link.
pub(crate) fn put_lines(alloc: Global, link: &mut Link, bytes: &[u8]) -> Result<(), NoMemory>
    ensures { OnOk result (link.new ≡ link.old ++ lines bytes.now) }
{
    let mut rest = bytes;
    while !rest.is_empty() {
        let length = first_length(rest);
        let line = Vec::from_slice(alloc, &rest[..length])?;
        link.push(line)?;
        rest = &rest[length..];
    }
    Ok(())
}

/// How many bytes the first line has; 0 where there is none.
fn first_length(bytes: &[u8]) -> usize
    ensures value { result ≡ first_length bytes.now }
    ensures within { result ≤ length bytes.now }
    ensures some { 0 < length bytes.now → 0 < result }
    ensures line { 0 < length bytes.now → lines bytes.now ≡ take result bytes.now ∷ lines (drop result bytes.now) }
{
    let mut length = 0;
    for byte in bytes {
        length += 1;
        if *byte == b'\n' {
            return length;
        }
    }
    length
}
