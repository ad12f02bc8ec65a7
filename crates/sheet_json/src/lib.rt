//! The JSON values of what a sheet's matches are made of: arguments of moves, and seats. Each is written and read here alone.
#![tactic(auto)]

mod arguments;
mod seats;

pub use arguments::{args_of, args_value, put_args};
pub use seats::{is_null, put_seat, seat_or_null_of, seat_value};
