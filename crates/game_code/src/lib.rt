//! The code of described games: expressions with their values, and statements with what they do.
#![tactic(auto)]

mod changes;
mod evaluates;
mod expression;
mod lists;
mod pieces;
mod rolls;
mod runs;
mod scene;
mod statement;
mod wishes;
mod words;

pub use evaluates::evaluate;
pub use expression::{Expression, ItemList, Locals, Word};
pub use pieces::perform;
pub use runs::{Play, run};
pub use scene::{Scene, Sight};
pub use statement::{Edit, Piece, Statement, Wish};
pub use wishes::seat_in;
