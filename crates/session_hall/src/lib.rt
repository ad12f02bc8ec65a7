//! The rooms and the sessions of one process: what each line of a session makes of them, and how it is answered.
#![tactic(auto)]

mod hall;
mod opening;
mod said;

pub use hall::SessionHall;
pub use said::Said;
pub use session_driver::Tally;
