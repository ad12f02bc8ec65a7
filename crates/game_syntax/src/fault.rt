//! Errors in a description, as authors read them.

use crate::fault_name::FaultName;
use crate::slip::Slip;
use crate::token::Span;
use std::alloc::{AllocError, Global};
use std::fmt;

/// A place in a text. Lines and columns count from 1, columns by characters.
#[derive(Clone, Copy, Debug)]
pub struct Place {
    pub line: u32,
    pub column: u32,
}

/// An error: its name, the member where it is, the place in the member's text, and words for the author.
#[derive(Debug, Drop)]
pub struct Fault {
    pub name: FaultName,
    /// The path of the member; empty for an error of the whole.
    pub path: String,
    pub place: Option<Place>,
    /// Empty where the name says all.
    pub words: String,
}

impl fmt::Display for Fault {
    fn fmt<W: fmt::Write>(&self, f: &mut fmt::Formatter<W>) -> fmt::Result {
        f.write_str(self.path.as_str())?;
        if let Some(Place { line, column }) = self.place {
            write!(f, ":{line}:{column}")?;
        }
        f.write_str(": ")?;
        f.write_str(self.name.word())?;
        if self.words.is_empty() {
            return Ok(());
        }
        f.write_str(": ")?;
        f.write_str(self.words.as_str())
    }
}

impl Slip {
    /// The error as one of a member, whose path and text are given.
    pub fn told(self, alloc: Global, path: &str, text: &str) -> Result<Fault, AllocError> {
        let words = self.words(alloc, text.as_bytes())?;
        let path = String::from_str(alloc, path)?;
        Ok(Fault {
            name: self.name,
            path,
            place: Some(place_in(text.as_bytes(), self.at)),
            words,
        })
    }

    /// What is said beside the name.
    fn words(self, alloc: Global, text: &[u8]) -> Result<String, AllocError> {
        let mut words = String::from_str(alloc, self.hint.before())?;
        if let Some(about) = self.about {
            words.push_str(said(text, about))?;
        }
        words.push_str(self.hint.after())?;
        Ok(words)
    }
}

/// The part of a text, if it is text.
fn said(text: &[u8], about: Span) -> &str {
    match text.get(about.from..about.past) {
        Some(bytes) => std::str::from_utf8(bytes).unwrap_or(""),
        None => "",
    }
}

/// The place of a byte.
pub fn place_in(text: &[u8], at: usize) -> Place {
    let mut place = Place { line: 1, column: 1 };
    for byte in text.iter().take(at) {
        place = place.past(*byte);
    }
    place
}

impl Place {
    /// The place behind a byte. What isn't the first byte of a character takes no column.
    fn past(self, byte: u8) -> Place {
        if byte == b'\n' {
            return Place {
                line: self.line.saturating_add(1),
                column: 1,
            };
        }
        let step = u32::from(byte < 128 || byte >= 192);
        Place {
            line: self.line,
            column: self.column.saturating_add(step),
        }
    }
}
