//! The line that a row is answered with.

use crate::asking::answer;
use crate::compare::put_difference;
use crate::fault::{RowFault, RowNo};
use crate::put::put_text;
use game_sheet::NoMemory;
use game_trait::Game;
use json_text::put_natural;
use json_tree::{LineFault, read_text};
use serde_json::Value;
use std::alloc::Global;

/// What came of a line.
#[derive(Clone, Copy, PartialEq, Eq, Debug)]
pub enum Told {
    /// It is empty or begins with `#`, and nothing is printed.
    Nothing,
    /// Its row has no `gives`, and the answer is printed.
    Answer,
    /// The game gives what its row says.
    Same,
    /// The game gives something else.
    Other,
    /// Its row isn't asked.
    Fault,
}

/// Appends what the line with this number, counted from 1, is answered with, and a newline.
///
/// After a want of memory some first part of it may stand there.
pub fn answer_line<X: Game + Drop>(
    alloc: Global,
    game: &X,
    number: u32,
    line: &[u8],
    out: &mut Vec<u8>,
) -> Result<Told, NoMemory> {
    if is_blank(line) {
        return Ok(Told::Nothing);
    }
    match read_text(alloc, line) {
        Ok(row) => {
            let told = answer_row(alloc, game, number, &row, out);
            drop(row);
            told
        }
        Err(LineFault::NoMemory) => Err(NoMemory),
        Err(_) => put_fault(out, number, RowFault::NoObject),
    }
}

/// Whether a line holds no row.
fn is_blank(line: &[u8]) -> bool {
    match line {
        [] => true,
        [first, ..] => *first == b'#' || *first == b'\r',
    }
}

/// Appends what a row is answered with.
fn answer_row<X: Game + Drop>(
    alloc: Global,
    game: &X,
    number: u32,
    row: &Value,
    out: &mut Vec<u8>,
) -> Result<Told, NoMemory> {
    let mut given = Vec::new(alloc);
    match answer(alloc, game, row, &mut given) {
        Ok(()) => put_verdict(alloc, out, number, given.as_slice(), row.get("gives")),
        Err(RowNo::Fault(fault)) => put_fault(out, number, fault),
        Err(RowNo::NoMemory) => Err(NoMemory),
    }
}

/// Appends the answer where the row doesn't say one, and else whether it is what the row says.
fn put_verdict(
    alloc: Global,
    out: &mut Vec<u8>,
    number: u32,
    given: &[u8],
    said: Option<&Value>,
) -> Result<Told, NoMemory> {
    match said {
        Some(said) => put_compared(alloc, out, number, given, said),
        None => {
            out.extend_from_slice(given)?;
            out.push(b'\n')?;
            Ok(Told::Answer)
        }
    }
}

fn put_compared(
    alloc: Global,
    out: &mut Vec<u8>,
    number: u32,
    given: &[u8],
    said: &Value,
) -> Result<Told, NoMemory> {
    let text = said.to_vec(alloc)?;
    if text.as_slice() == given {
        put_text(out, "ok\n")?;
        return Ok(Told::Same);
    }
    put_line(out, number, " differs at gives")?;
    put_other(alloc, out, given, said)?;
    out.push(b'\n')?;
    Ok(Told::Other)
}

/// Appends where the answer differs from what the row says.
fn put_other(alloc: Global, out: &mut Vec<u8>, given: &[u8], said: &Value) -> Result<(), NoMemory> {
    match Value::from_slice(alloc, given) {
        Ok(ours) => {
            let put = put_difference(alloc, out, &ours, said);
            drop(ours);
            put
        }
        Err(_) => Err(NoMemory),
    }
}

fn put_fault(out: &mut Vec<u8>, number: u32, fault: RowFault) -> Result<Told, NoMemory> {
    put_line(out, number, " is not asked: ")?;
    put_text(out, fault.text())?;
    out.push(b'\n')?;
    Ok(Told::Fault)
}

/// Appends the number of a line and a text.
fn put_line(out: &mut Vec<u8>, number: u32, text: &str) -> Result<(), NoMemory> {
    put_text(out, "line ")?;
    put_natural(out, u64::from(number))?;
    put_text(out, text)
}
