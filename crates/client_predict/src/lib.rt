//! A client of a match: it reads the lines of its session, guesses its own actions before they are judged, and is corrected.
#![tactic(auto)]

mod acting;
mod change;
mod client;
mod guess;
mod part;
mod predict;
mod shown;
mod steps;
mod told;
mod waiting;

pub use client::Client;
pub use shown::Shown;
pub use told::{ActNo, FeedNo, Predicted, Told};
