//! Errors in a code text, before the path is known.

ghost use Rattle.std.specs.Prelude.{◌≡◌, Some, None};

use crate::fault_name::FaultName;
use crate::hint::Hint;
use crate::token::Span;

/// An error in a code text: its name, the byte where it is, what to say, and the name that is said.
#[derive(Clone, Copy)]
pub struct Slip {
    pub name: FaultName,
    pub at: usize,
    pub hint: Hint,
    pub about: Option<Span>,
}

impl Slip {
    /// An error with words of its own.
    pub fn hinted(name: FaultName, at: usize, hint: Hint) -> Slip
        ensures { result ≡ record { name = name; at = at; hint = hint; about = None } }
    {
        Slip {
            name,
            at,
            hint,
            about: None,
        }
    }

    /// An error that its name says whole.
    pub fn plain(name: FaultName, at: usize) -> Slip
        ensures { result ≡ record { name = name; at = at; hint = Hint.Nothing; about = None } }
    {
        Slip::hinted(name, at, Hint::Nothing)
    }

    /// An error that says a name.
    pub fn about(name: FaultName, hint: Hint, about: Span) -> Slip
        ensures { result ≡ record { name = name; at = about.from; hint = hint; about = Some about } }
    {
        Slip {
            name,
            at: about.from,
            hint,
            about: Some(about),
        }
    }
}

/// Why code wasn't read.
#[derive(Clone, Copy)]
pub enum Halt {
    /// No memory is left.
    Memory,
    /// The code has an error.
    Slip(Slip),
}
