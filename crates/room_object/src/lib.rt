//! An object that takes one call at a time and stands for the history of its calls. Nothing here knows of threads.
#![tactic(auto)]

mod object;

pub use object::Object;
