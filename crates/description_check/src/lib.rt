//! What `board_server check` and `board_server ask` print of a description: what it takes, its first fault with its line, random matches, and answers to
//! rows.
#![tactic(auto)]

mod asking;
mod bytes;
mod costs;
mod marks;
mod playing;
mod refusals;
mod sources;

pub use asking::ask_rows;
pub use bytes::state_bytes;
pub use costs::{Costs, put_costs};
pub use marks::put_fault;
pub use playing::put_matches;
pub use refusals::{Refusal, put_refusal};
pub use sources::text_at;
