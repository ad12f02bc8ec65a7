//! Tic-tac-toe, Countdown and Pig.
#![tactic(auto)]

mod countdown_game;
mod pig_game;
mod tic_tac_toe;

pub use countdown_game::{Countdown, CountdownRules};
pub use pig_game::{Pig, PigRules};
pub use table_states::{Board, Heap, Scores};
pub use tic_tac_toe::{TicTacToe, TicTacToeRules};
