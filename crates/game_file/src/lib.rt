//! The file of a described game, member by member: a TOML document, each of whose members is known, of its type and rightly named.
//!
//! What the members mean is read elsewhere: texts of code and of slots stand here as they are, with the paths of their members.
//! A description is refused with its first fault. Pieces are looked at in this order, each whole before the next:
//!
//! 1. whether the bytes are TOML;
//! 2. whether a member of the whole isn't known, in the byte order of names;
//! 3. the members of the whole, in the order of the fields of `GameFile`, so that `game` is first and `show` last;
//! 4. whether a name of code means two things.
//!
//! A table of rows is read row by row, in the byte order of their names, and is refused at the first row too many.
//! Of each row its name is looked at, then whether a member of it isn't known, and then its members in the order of the row's fields.
#![tactic(auto)]

mod actives;
mod codes;
mod constants;
mod ends;
mod file;
mod head;
mod hints;
mod members;
mod moves;
mod names;
mod paths;
mod phases;
mod read;
mod rows;
mod slots;
mod source;
mod taken;
mod turns;
mod unread;

pub use actives::{ActiveMember, PlaceMember, SeatMember, SeatsMember, SpecMember};
pub use codes::CodeMember;
pub use constants::{Constant, ConstantMember};
pub use ends::{EndKind, EndMember};
pub use file::{FileEnd, FileFlow, FileHead, FileNames, FileSlots, FlowTables, GameFile};
pub use head::Seats;
pub use hints::{HintMember, HintWords};
pub use members::Limits;
pub use moves::{MoveMember, MoveSays};
pub use phases::{PhaseHooks, PhaseMember, RowFlow, StageMember};
pub use read::read_file;
pub use rows::Title;
pub use slots::SlotMember;
pub use source::{Code, Source};
pub use taken::is_taken;
pub use turns::{OrderMember, TurnHooks, TurnMember};
pub use unread::Unread;
