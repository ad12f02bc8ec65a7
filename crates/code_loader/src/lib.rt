//! The code of described games, from the texts of a file to pieces: names and what is in sight, kinds, bounds of numbers,
//! named code written out, what code takes, and its limits.
//!
//! A description is refused with its first fault. Code is looked at behind the file and its frame: first the heads of named code,
//! then the pieces, as `code_of` says, and in the end what the whole game takes, as `cost_of` says.
//! A fault in named code stands there, and its words end in the place where the piece uses it.
#![tactic(auto)]

mod calls;
mod drafter;
mod kinds;
mod moves;
mod named;
mod pieces;
mod rounds;
mod scope;
mod sight;
mod slots;
mod statements;
mod text;
mod totals;
mod trouble;
mod unknown;
mod values;
mod whole;
mod work;

pub use moves::{CodedList, CodedMove, MoveCost};
pub use pieces::{CodedPiece, PieceCost};
pub use totals::{GameCost, cost_of};
pub use whole::{
    CodedEnd, CodedEnds, CodedPhase, CodedTurn, FileCode, PhaseCost, TurnCost, code_of,
};
