//! A fault with its line, and a mark below its place.

use crate::costs::{put_number, put_text};
use game_sheet::NoMemory;
use game_syntax::{Fault, Place};

/// Appends a fault as a line, and where its place and the text are known, that line of the text, and a mark below the place.
pub fn put_fault(out: &mut Vec<u8>, fault: &Fault, text: Option<&str>) -> Result<(), NoMemory> {
    put_told(out, fault)?;
    match (fault.place, text) {
        (Some(place), Some(text)) => put_marked(out, place, line_in(text, place.line)),
        _ => Ok(()),
    }
}

/// Appends the line of a fault: the path, the place, the name and words.
fn put_told(out: &mut Vec<u8>, fault: &Fault) -> Result<(), NoMemory> {
    put_text(out, fault.path.as_str())?;
    put_place(out, fault.place)?;
    put_text(out, ": ")?;
    put_text(out, fault.name.word())?;
    put_words(out, fault.words.as_str())?;
    put_text(out, "\n")
}

fn put_place(out: &mut Vec<u8>, place: Option<Place>) -> Result<(), NoMemory> {
    match place {
        Some(Place { line, column }) => {
            put_text(out, ":")?;
            put_number(out, u64::from(line))?;
            put_text(out, ":")?;
            put_number(out, u64::from(column))
        }
        None => Ok(()),
    }
}

fn put_words(out: &mut Vec<u8>, words: &str) -> Result<(), NoMemory> {
    if words.is_empty() {
        return Ok(());
    }
    put_text(out, ": ")?;
    put_text(out, words)
}

/// The line of a text with this number, counted from 1; the empty line where there is none.
fn line_in(text: &str, number: u32) -> &str {
    let mut at = 1;
    for line in text.split('\n') {
        if at == number {
            return line;
        }
        at = at.wrapping_add(1);
    }
    ""
}

/// Appends a line, and below it a mark at the column of a place.
fn put_marked(out: &mut Vec<u8>, place: Place, line: &str) -> Result<(), NoMemory> {
    put_text(out, "    ")?;
    put_text(out, line)?;
    put_text(out, "\n    ")?;
    put_blanks(out, line, place.column)?;
    put_text(out, "^\n")
}

/// Appends a blank for each character before a column; a tab stays a tab, so that the mark stands where it has to.
fn put_blanks(out: &mut Vec<u8>, line: &str, column: u32) -> Result<(), NoMemory> {
    let mut at = 1;
    for character in line.chars() {
        if at >= column {
            break;
        }
        put_text(out, if character == '\t' { "\t" } else { " " })?;
        at = at.saturating_add(1);
    }
    Ok(())
}
