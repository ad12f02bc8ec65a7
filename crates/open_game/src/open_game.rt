//! The trait that a game without hooks and secrets implements.

ghost use Rattle.std.specs.Prelude.{◌≡◌, ◌<◌, ◌≤◌, [], length, IfOk};
ghost use Rattle.dice_words.specs.Strip.{Follows};
ghost use Rattle.game_trait.specs.Gives.{Gives};
ghost use Rattle.open_game.specs.OpenRules.{OpenLaws, OpenRules};

use crate::state::State;
use dice_words::Tape;
use game_sheet::{Arg, Args, EventQueue, List, MoveId, NoMemory, Outcome, Seat, Sheet};
use game_trait::Halt;
use std::alloc::Global;

/// A game in which all is open, and nothing happens but the moves. A game is a type here, which holds nothing.
pub trait OpenGame {
    /// The game's own state.
    type G: State;

    /// What each function means.
    ghost rules: { OpenRules Self.G };

    /// The fixed description of the game.
    fn make_sheet(alloc: Global) -> Result<Sheet, NoMemory>
        ensures { IfOk result (λ made. made ≡ rules.sheet) };

    /// The state at the beginning of a match, of a number of seats that the sheet allows.
    fn opening(alloc: Global, seats: u8) -> Result<Self::G, NoMemory>
        requires least { rules.sheet.min_seats ≤ seats }
        requires most { seats ≤ rules.sheet.max_seats }
        ensures { IfOk result (λ g. g ≡ rules.opening seats) };

    /// The state after a seat's move, which the sheet names by its place. A move that isn't allowed draws no word.
    fn play(
        alloc: Global,
        g: &Self::G,
        seat: Seat,
        id: MoveId,
        args: &[Arg],
        tape: &mut Tape,
        events: &mut EventQueue,
    ) -> Result<Self::G, Halt>
        requires known { id < length rules.sheet.moves }
        requires queue { events.old ≡ [] }
        ensures deed { Gives result tape.old.left tape.new.left events.new (rules.play g.now seat id args.now tape.old.left) }
        ensures follows { Follows tape.old tape.new };

    /// How the match ends in this state; none where it goes on.
    fn end_if(g: &Self::G) -> Option<Outcome>
        ensures { result ≡ rules.end_if g.now };

    /// Whether moves may be undone.
    fn may_undo() -> bool
        ensures { result ≡ rules.may_undo };

    /// The moves that a seat is offered where it may act, with their arguments.
    fn offers(alloc: Global, g: &Self::G, seat: Seat) -> Result<List<(MoveId, Args)>, NoMemory>
        ensures { IfOk result (λ offers. offers ≡ rules.offers g.now seat) };

    /// What holds of the game's sheet, states, moves and offers.
    ghost laws: { OpenLaws Self.G.form.own rules };
}
