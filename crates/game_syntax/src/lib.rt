//! Code of described games as people write it: tokens, the tree that they make, and errors with their places.
//!
//! A reading is total: any text gives a tree or the first fault, with its name and its place.
//! A tree is a list of nodes, each behind those that it is made of; nothing in it is more than 64 levels deep.
#![tactic(auto)]

mod called;
mod cursor;
mod expression;
mod fault;
mod fault_name;
mod heads;
mod hint;
mod lexer;
mod reading;
mod slip;
mod statement;
mod token;
mod tree;

pub use called::{Builtin, Called, Change, EventWord, Gathering, called_of};
pub use fault::{Fault, Place, place_in};
pub use fault_name::FaultName;
pub use hint::Hint;
pub use lexer::read_tokens;
pub use reading::{Form, read_code};
pub use slip::{Halt, Slip};
pub use token::{Sign, Span, Token, TokenKind, Word};
pub use tree::{Id, Many, Node, Operator, Shape, Tree};
