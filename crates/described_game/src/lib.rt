//! Described games as games: what one is made of, what is tested of it, and what each of its functions means.
#![tactic(auto)]

mod arguments;
mod checks;
mod described;
mod ends;
mod faults;
mod game;
mod groups;
mod hooks;
mod laws;
mod lists;
mod moves;
mod offers;
mod order;
mod parts;
mod ranges;
mod scenes;
mod shared;

pub use described::Described;
pub use faults::PartFault;
pub use laws::{offers_are_allowed, offers_are_seen, rows_have_numbers, texts_are_short};
pub use parts::{
    ArgumentGroup, ArgumentKind, ArgumentRow, EndCode, EndKind, GameParts, ListedRow, MoveCode,
    NumberRange, PhaseCode, TurnCode,
};
pub use shared::Shared;
