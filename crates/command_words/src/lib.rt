//! The words of the commands `serve`, `play`, `check` and `ask`, read with `clap`.
#![tactic(auto)]

mod describe;
mod games;
mod numbers;
mod options;
mod play;
mod serve;
mod words_no;

pub use describe::{CheckWords, ask_words, check_words};
pub use play::{PlayWords, play_words};
pub use serve::{ServeWords, serve_words};
pub use words_no::WordsNo;
