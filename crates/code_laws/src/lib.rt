//! What holds of all code of described games, whatever it says.
#![tactic(auto)]

mod counts;
mod laws;
mod sheet;
mod sight;

pub use counts::{events_of, words_of};
pub use laws::{
    code_draws_as_counted, code_keeps_bounds, code_keeps_to_sheet, code_queues_as_counted,
    same_in_view,
};
pub use sheet::code_in_sheet;
pub use sight::reads_own;
