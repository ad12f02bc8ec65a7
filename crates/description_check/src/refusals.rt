//! Why a description that has no fault isn't taken.

use crate::costs::put_text;
use game_sheet::NoMemory;

/// Why a description that has no fault isn't taken. Each has a name of its own, beside those of faults.
#[derive(Clone, Copy)]
pub enum Refusal<'a> {
    /// The file has more bytes than one may have.
    FileTooLong,
    /// The member at a path asks for what games can't have yet.
    NotYet(&'a str),
    /// What was made of it makes no game. It is a fault of the program, and these words say which.
    NotLoaded(&'static str),
}

/// Appends a refusal as a line, as that of a fault: the path, the name and words.
pub fn put_refusal(out: &mut Vec<u8>, refusal: &Refusal<'_>) -> Result<(), NoMemory> {
    match refusal {
        Refusal::FileTooLong => put_line(
            out,
            "",
            "file-too-long",
            "a description has at most 262144 bytes",
        ),
        Refusal::NotYet(path) => put_line(
            out,
            path,
            "not-yet",
            "active seats that a slot names can't be played yet: name them by `currentPlayer`, `others`, `all` or a list of seats",
        ),
        Refusal::NotLoaded(words) => put_line(out, "", "not-loaded", words),
    }
}

fn put_line(out: &mut Vec<u8>, path: &str, name: &str, words: &str) -> Result<(), NoMemory> {
    put_text(out, path)?;
    put_text(out, ": ")?;
    put_text(out, name)?;
    put_text(out, ": ")?;
    put_text(out, words)?;
    put_text(out, "\n")
}
