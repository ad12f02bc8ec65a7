//! The bench: which seats have bots, and which of these were asked to leave. It is an object under a desk, as rooms are.
#![tactic(auto)]

mod call;
mod row;
mod wishes;

pub use call::{WishCall, WishReply};
pub use row::Row;
pub use wishes::Wishes;
