//! Boards drawn as text, for people who play at a terminal. What a drawing looks like is in no contract: it is for the eye alone.
#![tactic(auto)]

mod boards;
mod drawing;
mod drawing_sink;

pub use drawing::draw;
pub use drawing_sink::DrawingSink;
