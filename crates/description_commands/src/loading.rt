//! A game from the bytes of a description, or the text that says why there is none.

use described_game::{Described, PartFault};
use description_check::{Costs, Refusal, put_fault, put_refusal, state_bytes, text_at};
use game_file::{GameFile, Unread, read_file};
use game_loader::{LoadedGame, Unloaded, load};
use game_sheet::NoMemory;
use game_syntax::Fault;
use line_runner::Exit;
use std::alloc::Global;

/// How many bytes a description may have.
pub const MOST_BYTES: usize = 262_144;

/// A game of a description, with what it takes.
#[derive(Drop)]
pub(crate) struct Ready {
    pub(crate) game: Described,
    pub(crate) costs: Costs,
}

/// The game of a description, or the end where there is none: why is then added to a text, unless there was no memory.
pub(crate) fn load_game(alloc: Global, bytes: &[u8], text: &mut Vec<u8>) -> Result<Ready, Exit> {
    if bytes.len() > MOST_BYTES {
        return Err(refused(put_refusal(text, &Refusal::FileTooLong), 1));
    }
    match read_file(alloc, bytes) {
        Ok(file) => {
            let ready = ready_in(alloc, &file, text);
            drop(file);
            ready
        }
        Err(Unread::NoMemory) => Err(Exit::NoMemory),
        Err(Unread::Fault(fault)) => {
            let exit = faulty(&fault, whole_text(&fault, bytes), text);
            drop(fault);
            Err(exit)
        }
    }
}

/// The text in which a fault of a file that isn't read stands: that of the whole file, where it has no path.
fn whole_text<'a>(fault: &Fault, bytes: &'a [u8]) -> Option<&'a str> {
    if fault.path.is_empty() {
        std::str::from_utf8(bytes).ok()
    } else {
        None
    }
}

fn ready_in(alloc: Global, file: &GameFile, text: &mut Vec<u8>) -> Result<Ready, Exit> {
    match load(alloc, file) {
        Ok(loaded) => checked(loaded, text),
        Err(Unloaded::NoMemory) => Err(Exit::NoMemory),
        Err(Unloaded::NotYet(path)) => {
            let told = put_refusal(text, &Refusal::NotYet(path.as_str()));
            drop(path);
            Err(refused(told, 1))
        }
        Err(Unloaded::Fault(fault)) => {
            let exit = faulty(&fault, text_at(file, fault.path.as_str()), text);
            drop(fault);
            Err(exit)
        }
    }
}

/// The game of parts, if they pass the tests of games.
fn checked(loaded: LoadedGame, text: &mut Vec<u8>) -> Result<Ready, Exit> {
    let LoadedGame {
        parts,
        scores: _,
        hidden: _,
        cost,
    } = loaded;
    let costs = Costs {
        action: cost.action,
        offers: cost.offers,
        words: cost.words,
        bytes: state_bytes(&parts.layout),
    };
    match Described::checked(parts) {
        Ok(game) => Ok(Ready { game, costs }),
        Err(fault) => {
            let refusal = Refusal::NotLoaded(words_of(fault));
            Err(refused(put_refusal(text, &refusal), 1))
        }
    }
}

/// What is wrong with parts, in words.
fn words_of(fault: PartFault) -> &'static str {
    match fault {
        PartFault::Sheet(_) => "the sheet breaks a rule",
        PartFault::Counts => "a move or a phase has no code",
        PartFault::Seats => "states have entries for another number of seats",
        PartFault::Names => "the names of the slots make no form",
        PartFault::Text => "the text of a state may be too long",
        PartFault::Start => "a slot does not fit as it starts",
        PartFault::Setup => "the first state may queue events",
        PartFault::Code =>
            "code names what is not in the sheet, or may queue more than sixteen events",
        PartFault::Sight => "what is allowed hangs on what the mover does not see",
        PartFault::Arguments => "a move has too many arguments, or too many rows of them",
    }
}

/// Adds a fault to a text, with the line where it stands, and is the end that it makes.
fn faulty(fault: &Fault, source: Option<&str>, text: &mut Vec<u8>) -> Exit {
    let line = match fault.place {
        Some(place) => place.line,
        None => 1,
    };
    refused(put_fault(text, fault, source), line)
}

/// The end of a description that is refused at a line, once why was added to a text.
fn refused(told: Result<(), NoMemory>, line: u32) -> Exit {
    match told {
        Ok(()) => Exit::BadLine { line },
        Err(NoMemory) => Exit::NoMemory,
    }
}
