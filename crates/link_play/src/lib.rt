//! A player of a match over a link: commands, read line by line from a source, the client of the match, and what it shows and sends.
#![tactic(auto)]

mod acting;
mod command;
mod doing;
mod hearing;
mod printing;
mod run;
mod showing;
mod stop;
mod telling;

pub use command::{Command, command_of};
pub use run::play_match;
pub use stop::{LineStatus, Stop};
