//! Why a row isn't asked.

ghost use Rattle.std.specs.Prelude.{◌≡◌};
ghost use Rattle.game_rows.specs.declared.fault.RowNo.TheVariants.{Fault as Faulty, NoMemory as Starved};

use game_sheet::NoMemory;
use std::alloc::AllocError;

/// What is wrong with a row.
#[derive(Clone, Copy, PartialEq, Eq, Debug)]
pub enum RowFault {
    /// The line is no JSON object without floats.
    NoObject,
    /// Its member `f` is no function of a game.
    NoFunction,
    /// Its function is none that a game has yet.
    NotYet,
    /// Its random words can't be given one by one yet.
    GivenWords,
    /// Its member `seed` isn't 64 hexadecimal digits, or `place` is no whole number.
    BadSeed,
    /// Its member `g` is no state of the game.
    NoState,
    /// Its member `ctx` is no context of a match.
    BadContext,
    /// Its member `seats` is no count of seats that the game allows.
    BadSeats,
    /// Its member `seat` or `viewer` is no seat.
    BadSeat,
    /// Its member `move` is no move of the game.
    NoMove,
    /// Its member `args` is no list of at most eight whole numbers and short texts.
    BadArgs,
    /// Its member `of`, or `phase` of `ctx`, is no phase of the game.
    NoPhase,
    /// Its seat has other moves than `moves` in every stage.
    OtherMoves,
}

impl RowFault {
    /// What is wrong, in words.
    pub fn text(self) -> &'static str {
        match self {
            RowFault::NoObject => "no JSON object",
            RowFault::NoFunction => "no such function",
            RowFault::NotYet => "this function is not played yet",
            RowFault::GivenWords => "words are not given one by one yet, but by a seed",
            RowFault::BadSeed => "no seed",
            RowFault::NoState => "no state of the game",
            RowFault::BadContext => "no context",
            RowFault::BadSeats => "not for so many seats",
            RowFault::BadSeat => "no such seat",
            RowFault::NoMove => "no such move",
            RowFault::BadArgs => "no arguments",
            RowFault::NoPhase => "no such phase",
            RowFault::OtherMoves => "the seat never has these moves",
        }
    }
}

/// Why a row has no answer.
#[derive(Clone, Copy, PartialEq, Eq, Debug)]
pub enum RowNo {
    /// Something is wrong with it.
    Fault(RowFault),
    /// There was no memory.
    NoMemory,
}

impl From<RowFault> for RowNo {
    ghost from_gives = { λ fault no. no ≡ Faulty fault };

    fn from(fault: RowFault) -> Self {
        RowNo::Fault(fault)
    }
}

impl From<NoMemory> for RowNo {
    ghost from_gives = { λ _ no. no ≡ Starved };

    fn from(_error: NoMemory) -> Self {
        RowNo::NoMemory
    }
}

impl From<AllocError> for RowNo {
    ghost from_gives = { λ _ no. no ≡ Starved };

    fn from(_error: AllocError) -> Self {
        RowNo::NoMemory
    }
}
