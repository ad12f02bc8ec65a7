//! What is wrong in code, and where, before it is told to the author.

use crate::named::Named;
use game_file::{Source, Unread};
use game_frame::Misfit;
use game_syntax::{Fault, FaultName, Hint, Place, Slip, Span, place_in};
use std::alloc::{AllocError, Global};

/// A fault in a text of code: its name, the byte where it is, and words, which may say a part of the text.
#[derive(Clone, Copy)]
pub(crate) struct Trouble {
    pub(crate) name: FaultName,
    pub(crate) at: usize,
    /// What is said before the part of the text, or all that is said.
    pub(crate) before: &'static str,
    pub(crate) about: Option<Span>,
    pub(crate) after: &'static str,
}

/// A place in code.
#[derive(Clone, Copy)]
pub(crate) struct Spot {
    /// The byte of its text.
    pub(crate) at: usize,
    /// Which named code the text is of; none of the piece's own.
    pub(crate) code: Option<usize>,
    /// Where the piece uses that named code, as a byte of the piece's text.
    pub(crate) used: usize,
}

/// Why code gives nothing.
#[derive(Clone, Copy)]
pub(crate) enum Stop {
    /// There was no memory.
    Memory,
    /// It has a fault at a place.
    Trouble(Trouble, Spot),
}

impl Trouble {
    /// A fault that its name says whole.
    pub(crate) fn plain(name: FaultName, at: usize) -> Trouble {
        Trouble::said(name, at, "")
    }

    /// A fault with words.
    pub(crate) fn said(name: FaultName, at: usize, words: &'static str) -> Trouble {
        Trouble {
            name,
            at,
            before: words,
            about: None,
            after: "",
        }
    }

    /// A fault with the words of a hint.
    pub(crate) fn hinted(name: FaultName, at: usize, hint: Hint) -> Trouble {
        Trouble::said(name, at, hint.before())
    }

    /// A fault of a name, which is said.
    pub(crate) fn about(name: FaultName, hint: Hint, about: Span) -> Trouble {
        Trouble {
            name,
            at: about.from,
            before: hint.before(),
            about: Some(about),
            after: hint.after(),
        }
    }

    /// A fault that the reader of the text found.
    pub(crate) fn read(slip: Slip) -> Trouble {
        Trouble {
            name: slip.name,
            at: slip.at,
            before: slip.hint.before(),
            about: slip.about,
            after: slip.hint.after(),
        }
    }

    /// A fault in the type of a slot.
    pub(crate) fn misfit(misfit: Misfit) -> Trouble {
        Trouble::said(misfit.name, misfit.at, misfit.words)
    }

    /// The words, with the part of the text that they say.
    fn words(&self, alloc: Global, text: &str) -> Result<String, AllocError> {
        let mut words = String::from_str(alloc, self.before)?;
        if let Some(about) = self.about {
            words.push_str(part_of(text, about))?;
        }
        words.push_str(self.after)?;
        Ok(words)
    }
}

/// The part of a text, if it is text.
fn part_of(text: &str, part: Span) -> &str {
    match text.as_bytes().get(part.from..part.past) {
        Some(bytes) => std::str::from_utf8(bytes).unwrap_or(""),
        None => "",
    }
}

/// The fault as the author reads it, of a piece whose text is given.
pub(crate) fn told(alloc: Global, stop: Stop, source: &Source, named: &[Named<'_>]) -> Unread {
    match stop {
        Stop::Memory => Unread::NoMemory,
        Stop::Trouble(trouble, spot) => match told_at(alloc, &trouble, &spot, source, named) {
            Ok(fault) => Unread::Fault(fault),
            Err(_) => Unread::NoMemory,
        },
    }
}

fn told_at(
    alloc: Global,
    trouble: &Trouble,
    spot: &Spot,
    source: &Source,
    named: &[Named<'_>],
) -> Result<Fault, AllocError> {
    match code_at(named, spot.code) {
        None => fault_in(alloc, trouble, source),
        Some(code) => fault_used(alloc, trouble, code, source, spot.used),
    }
}

fn code_at<'a>(named: &'a [Named<'_>], code: Option<usize>) -> Option<&'a Source> {
    match code {
        Some(place) => match named.get(place) {
            Some(code) => Some(code.source),
            None => None,
        },
        None => None,
    }
}

/// A fault in one text.
fn fault_in(alloc: Global, trouble: &Trouble, source: &Source) -> Result<Fault, AllocError> {
    let words = trouble.words(alloc, source.text.as_str())?;
    let path = source.path.clone()?;
    Ok(Fault {
        name: trouble.name,
        path,
        place: Some(place_in(source.text.as_bytes(), trouble.at)),
        words,
    })
}

/// A fault in named code, with the place where it is used.
fn fault_used(
    alloc: Global,
    trouble: &Trouble,
    code: &Source,
    source: &Source,
    used: usize,
) -> Result<Fault, AllocError> {
    let mut fault = fault_in(alloc, trouble, code)?;
    match push_use(alloc, &mut fault.words, source, used) {
        Ok(()) => Ok(fault),
        Err(error) => {
            drop(fault);
            Err(error)
        }
    }
}

fn push_use(
    alloc: Global,
    words: &mut String,
    source: &Source,
    used: usize,
) -> Result<(), AllocError> {
    let Place { line, column } = place_in(source.text.as_bytes(), used);
    let path = source.path.as_str();
    let mark = if words.is_empty() { "" } else { "; " };
    let place = format!(in alloc; "{mark}used at {path}:{line}:{column}")?;
    words.push_str(place.as_str())
}
