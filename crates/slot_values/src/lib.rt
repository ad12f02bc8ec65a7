//! Values of the code of described games: whole numbers of 32 bits, texts or null, what is made of two of them, and spans of numbers.
#![tactic(auto)]

mod numbers;
mod operators;
mod spans;
mod value;

pub use numbers::{Number, number_of, whole};
pub use operators::{is_at_most, is_less, operate, product, sum};
pub use spans::{count_between, greatest_with, next, sum_with};
pub use value::{Gather, Operator, Value, is_true, same_values, truth};
