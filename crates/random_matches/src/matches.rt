//! Whole random matches.

ghost use Rattle.std.specs.Prelude.{◌≡◌, ◌≤◌, ◌<◌, IfOk};
ghost use Rattle.reducer.specs.Sound.{IsSound};

use crate::choice::Chooser;
use crate::counts::Counts;
use crate::report::Report;
use crate::run::{Pause, advance};
use game_sheet::{NoMemory, Outcome, Sheet};
use game_trait::Game;
use reducer::{StartNo, State, start};
use std::alloc::Global;

/// How a random match ended.
#[derive(Clone, Copy, PartialEq, Eq, Debug)]
pub enum End {
    /// The match ended.
    Over(Outcome),
    /// No seat was offered a move, and none could end its turn.
    Stuck,
    /// It had as many tries as it was given.
    Long,
    /// It didn't begin: what follows at the beginning breaks a rule, or the sheet doesn't allow so many seats.
    NoStart,
}

/// What became of a random match.
#[derive(Clone, Copy, PartialEq, Eq, Debug)]
pub struct Played {
    /// How it ended.
    pub end: End,
    /// How many actions it accepted.
    pub actions: u32,
}

/// Plays a random match of so many seats by a seed, with at most so many tries. A refused action counts as a try.
pub fn play_match<X: Game + Drop>(
    alloc: Global,
    game: &X,
    seats: u8,
    seed: [u8; 32],
    most: u32,
    counts: &mut Counts,
) -> Result<Played, NoMemory> {
    match start(alloc, game, seats, &seed) {
        Ok(state) => play_on(alloc, game, state, Chooser::new(seed), most, counts),
        Err(StartNo::NoMemory) => Err(NoMemory),
        Err(_) => Ok(Played {
            end: End::NoStart,
            actions: 0,
        }),
    }
}

fn play_on<X: Game>(
    alloc: Global,
    game: &X,
    state: State<X::G>,
    chooser: Chooser,
    most: u32,
    counts: &mut Counts,
) -> Result<Played, NoMemory>
    requires { IsSound (X.rules game.now) state }
{
    let mut state = state;
    let mut chooser = chooser;
    for _try in 0..most {
        if state.ctx().over.is_some() {
            break;
        }
        match advance(alloc, game, &state, &mut chooser, counts) {
            Ok(next) => state = next,
            Err(Pause::Refused) => {}
            Err(Pause::Long) => break,
            Err(Pause::Stuck) => return Ok(became(&state, End::Stuck)),
            Err(Pause::NoMemory) => return Err(NoMemory),
        }
    }
    Ok(became(&state, End::Long))
}

/// What became of a match: how it ended if it has, and else another end.
fn became<G>(state: &State<G>, otherwise: End) -> Played {
    Played {
        end: match state.ctx().over {
            Some(outcome) => End::Over(outcome),
            None => otherwise,
        },
        actions: state.number(),
    }
}

/// Plays so many random matches of seats that the sheet allows, by seeds with rising numbers from the first on, and adds what became of
/// them to a report. After a want of memory the report has the matches before.
pub fn play_matches<X: Game + Drop>(
    alloc: Global,
    game: &X,
    first: u64,
    matches: u32,
    most: u32,
    report: &mut Report,
) -> Result<(), NoMemory> {
    for number in 0..matches {
        let seed = numbered_seed(first.wrapping_add(u64::from(number)));
        let seats = some_seats(game.sheet(), seed);
        let played = play_match(alloc, game, seats, seed, most, &mut report.counts)?;
        report.add(played);
    }
    Ok(())
}

/// The seed with this number: its eight bytes, the lowest first, and zeros.
fn numbered_seed(number: u64) -> [u8; 32] {
    let mut seed = [0; 32];
    let bytes = number.to_le_bytes();
    for place in 0..8 {
        seed[place] = bytes[place];
    }
    seed
}

/// A count of seats that the sheet allows, by a third stream of the seed.
fn some_seats(sheet: &Sheet, seed: [u8; 32]) -> u8 {
    let (least, most) = (sheet.min_seats, sheet.max_seats);
    if most <= least {
        return least;
    }
    let more = Chooser::of_seats(seed).below(u32::from(most - least) + 1);
    least.saturating_add(more as u8)
}
