//! Random matches of a game, and what became of them: a first look at whether a game goes on, ends, and uses all of its moves.
//!
//! A match has a seed. Its own words are those of the seed's stream 0, as in any match, and what is chosen comes from stream 1.
//! At each step one of the offers of all seats that may act is made; now and then its seat ends its turn in its place,
//! where the sheet lets players do so. Where no seat is offered anything, the first seat that may act ends its turn, if it may.
//!
//! The count of a match's seats comes from stream 2. So a match can be played again by its number.
#![tactic(auto)]

mod choice;
mod counts;
mod matches;
mod offers;
mod report;
mod run;

pub use counts::{Counts, MoveCount, Refusals};
pub use matches::{End, Played, play_match, play_matches};
pub use report::Report;
