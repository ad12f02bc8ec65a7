//! Rows that ask a game for one value each: unit tests for whoever writes a game.
//!
//! A row is a line with one JSON object. Its member `f` names a function of the game, and the others say what the function is asked with:
//!
//! | member | of which functions | what it is | where it is left out |
//! |---|---|---|---|
//! | `g` | all but `setup` | the state | the row isn't asked |
//! | `ctx` | all but `setup` | an object of `seats`, `turn`, `current`, `order`, `pos`, `phase` and `moves` | the sheet's least seats, turn 1, seat 0, all seats in turn, place 0, no phase, 0 |
//! | `words` | `setup`, `play`, hooks | the random words, an empty list | there are none |
//! | `seed`, `place` | the same, in place of `words` | the random words are those of this seed, from this place on | place 0 |
//! | `seats` | `setup` | how many seats the match has | the row isn't asked |
//! | `seat` | `play`, `options`, `on_move` | whose it is | seat 0 |
//! | `move`, `args` | `play` | the name of the move, and its arguments | no arguments |
//! | `viewer` | `view` | the seat that looks; null for a spectator | a spectator |
//! | `of` | `phase_begin`, `phase_end` | which phase | the row isn't asked |
//! | `may`, `moves` | `options` | whether the seat may act, and which moves it has | the current seat may act, and has the phase's moves |
//! | `gives` | all | what the row says that the game gives | the answer is printed |
//!
//! A phase is named, or given by its place in the sheet; so are the items of `moves`.
//!
//! What a game gives, as `gives` has it:
//!
//! | functions | what they give |
//! |---|---|
//! | `end_if` | null, `["winner",SEAT]`, `["draw"]` or `["ended"]` |
//! | `turn_end_if`, `phase_end_if` | true or false |
//! | `play_order` | the list of the seats |
//! | `options` | a list of `[MOVE,[ARGUMENT,..]]` |
//! | `view` | the state that is seen |
//! | `setup`, `play`, `on_move`, `turn_begin`, `turn_end`, `phase_begin`, `phase_end`, `game_end` | `{"events":[..],"g":STATE}`, or why there is no state: `"invalid"`, `"spent"` or `"crowded"` |
//!
//! A hook that leaves the state gives the state of the row. An event is `[NAME,null]`, or `[NAME,WHERE]` with the seat, phase, stage, spec or outcome.
//!
//! Each row is answered with one line:
//!
//! | line | when |
//! |---|---|
//! | what the game gives, as compact JSON | the row has no `gives` |
//! | `ok` | the game gives what the row says |
//! | `line 7 differs at g.common.left: the game gives 3, the row says 4` | it gives something else: the first place where they differ |
//! | `line 7 is not asked: no such move` | the row is in no form |
//!
//! An empty line, and one that begins with `#`, is answered with nothing.
#![tactic(auto)]

mod asking;
mod compare;
mod context;
mod fault;
mod function;
mod hook;
mod judge;
mod making;
mod put;
mod reading;
mod tally;

pub use asking::answer;
pub use fault::{RowFault, RowNo};
pub use function::Function;
pub use judge::{Told, answer_line};
pub use tally::Tally;
