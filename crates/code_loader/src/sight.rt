//! What is in sight of a piece of code, and what is noted of it.

use crate::trouble::Spot;

/// What is in sight of a piece of code.
#[derive(Clone, Copy)]
pub struct CodeSight {
    /// Whether a seat moves: `seat` and `me`.
    pub seat: bool,
    /// Whether `players[..]` and `secret` are in sight.
    pub hidden: bool,
    /// Whether the context is in sight; how many seats there are always is.
    pub context: bool,
    /// Whether slots of `work` are in sight.
    pub work: bool,
    /// Whether events may be queued.
    pub events: bool,
}

impl CodeSight {
    /// Of `setup`.
    pub const SETUP: CodeSight = CodeSight {
        seat: false,
        hidden: true,
        context: false,
        work: true,
        events: false,
    };

    /// Of `when`, and of the lists of arguments.
    pub const WHEN: CodeSight = CodeSight {
        seat: true,
        hidden: false,
        context: true,
        work: false,
        events: false,
    };

    /// Of what a move does, and of `onMove`.
    pub const MOVE: CodeSight = CodeSight {
        seat: true,
        hidden: true,
        context: true,
        work: true,
        events: true,
    };

    /// Of other hooks.
    pub const HOOK: CodeSight = CodeSight {
        seat: false,
        hidden: true,
        context: true,
        work: true,
        events: true,
    };

    /// Of `endIf`.
    pub const END: CodeSight = CodeSight {
        seat: false,
        hidden: true,
        context: true,
        work: false,
        events: false,
    };
}

/// What is noted of a piece of code, itself and by the named code that it uses.
#[derive(Clone, Copy)]
pub(crate) struct Notes {
    /// Whether it draws random words.
    pub(crate) draws: bool,
    /// Whether it names `secret` or `players[..]`.
    pub(crate) hidden: bool,
    /// Where it first writes what not everybody sees.
    pub(crate) writes: Option<Spot>,
    /// Where it first asks for the end of the turn.
    pub(crate) ends_turn: Option<Spot>,
    /// Its dearest loop.
    pub(crate) dearest: Option<DearLoop>,
}

/// A loop, with how many steps it takes.
#[derive(Clone, Copy)]
pub(crate) struct DearLoop {
    /// Where it begins.
    pub(crate) spot: Spot,
    /// Its greatest count of steps.
    pub(crate) steps: u64,
}

impl Notes {
    /// Nothing is noted.
    pub(crate) const NONE: Notes = Notes {
        draws: false,
        hidden: false,
        writes: None,
        ends_turn: None,
        dearest: None,
    };
}
