//! Countdown for two to four seats.

ghost use Rattle.std.specs.Prelude.{◌≡◌, ◌<◌, option_and_then};
ghost use Rattle.dice_words.specs.Strip.{Follows};
ghost use Rattle.game_trait.specs.Gives.{Gives};
ghost use Rattle.open_game.specs.Arguments.{only_natural};
ghost use Rattle.std.specs.Prelude.{[]};
ghost use Rattle.table_states.specs.Countdown.{take, wild};

use dice_words::Tape;
use game_sheet::{Arg, Args, EventKind, EventQueue, List, MoveId, NoMemory, Outcome, Seat, Sheet};
use game_trait::Halt;
use open_game::{Open, OpenGame, only_natural, turns_sheet};
use std::alloc::Global;
use table_states::Heap;

/// Countdown: two to four seats take from a heap of 21 in turn, and whoever takes the last of it wins.
pub type Countdown = Open<CountdownRules>;

/// The rules of Countdown.
#[derive(Drop)]
pub struct CountdownRules;

impl OpenGame for CountdownRules {
    ghost use Rattle.table_states.specs.Countdown.{countdown};
    ghost use Rattle.table_states.proofs.CountdownLaws.{countdown_laws};

    type G = Heap;

    ghost rules = { countdown };

    ghost laws = { countdown_laws };

    /// Two moves, turns of one or two of them, and a player may end the turn.
    fn make_sheet(alloc: Global) -> Result<Sheet, NoMemory> {
        let base = [MoveId::at(0), MoveId::at(1)];
        turns_sheet(
            alloc,
            "countdown",
            2,
            4,
            &["take", "wild"],
            &base,
            Some(2),
            &[EventKind::EndTurn],
        )
    }

    fn opening(alloc: Global, seats: u8) -> Result<Heap, NoMemory> {
        Ok(Heap::new())
    }

    fn play(
        alloc: Global,
        g: &Heap,
        seat: Seat,
        id: MoveId,
        args: &[Arg],
        tape: &mut Tape,
        events: &mut EventQueue,
    ) -> Result<Heap, Halt> {
        if seat >= 4 {
            Err(Halt::Invalid)
        } else if id.place() == 0 {
            take(g, seat, args).ok_or(Halt::Invalid)
        } else {
            wild(g, seat, args, tape)
        }
    }

    /// Whoever took the last of the heap wins.
    fn end_if(g: &Heap) -> Option<Outcome> {
        if g.left == 0 {
            g.last.map(|seat| Outcome::Winner(seat))
        } else {
            None
        }
    }

    fn may_undo() -> bool {
        true
    }

    fn offers(alloc: Global, g: &Heap, seat: Seat) -> Result<List<(MoveId, Args)>, NoMemory> {
        g.takes(alloc)
    }
}

/// `take` with a count of 1 to 3, and no more than there is.
fn take(g: &Heap, seat: Seat, args: &[Arg]) -> Option<Heap>
    ensures { result ≡ option_and_then (take g.now seat) (only_natural args.now) }
{
    match only_natural(args) {
        Some(count) if count >= 1 && count <= 3 && count <= g.left => Some(g.less(seat, count)),
        _ => None,
    }
}

/// `wild`: as many as a die of three faces shows, or all that there is where that is less.
fn wild(g: &Heap, seat: Seat, args: &[Arg], tape: &mut Tape) -> Result<Heap, Halt>
    ensures deed { Gives result tape.old.left tape.new.left [] (wild g.now seat args.now tape.old.left) }
    ensures follows { Follows tape.old tape.new }
{
    if !args.is_empty() || g.left == 0 {
        return Err(Halt::Invalid);
    }
    let face = tape.die(3)?;
    Ok(g.less(seat, face.min(g.left)))
}
