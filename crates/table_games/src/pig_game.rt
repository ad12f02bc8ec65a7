//! Pig for two to four seats.

ghost use Rattle.std.specs.Prelude.{◌≡◌, ◌<◌, [], ℕ, List as Items, length};
ghost use Rattle.dice_words.specs.Strip.{Follows};
ghost use Rattle.game_trait.specs.Gives.{Gives};
ghost use Rattle.table_states.specs.Pig.{hold, pot_after, roll};

use dice_words::Tape;
use game_sheet::{Arg, Args, Event, EventQueue, List, MoveId, NoMemory, Outcome, Seat, Sheet};
use game_trait::Halt;
use open_game::{Open, OpenGame, offer, turns_sheet};
use std::alloc::Global;
use table_states::Scores;

/// Pig: two to four seats roll a die into a pot until they hold it or lose it to a one; the first total of 20 wins.
pub type Pig = Open<PigRules>;

/// The rules of Pig.
#[derive(Drop)]
pub struct PigRules;

impl OpenGame for PigRules {
    ghost use Rattle.table_states.specs.Pig.{pig};
    ghost use Rattle.table_states.proofs.PigLaws.{pig_laws};

    type G = Scores;

    ghost rules = { pig };

    ghost laws = { pig_laws };

    /// Two moves, and turns of one or more of them.
    fn make_sheet(alloc: Global) -> Result<Sheet, NoMemory> {
        let base = [MoveId::at(0), MoveId::at(1)];
        turns_sheet(alloc, "pig", 2, 4, &["roll", "hold"], &base, None, &[])
    }

    fn opening(alloc: Global, seats: u8) -> Result<Scores, NoMemory> {
        Scores::new(alloc, seats)
    }

    fn play(
        alloc: Global,
        g: &Scores,
        seat: Seat,
        id: MoveId,
        args: &[Arg],
        tape: &mut Tape,
        events: &mut EventQueue,
    ) -> Result<Scores, Halt> {
        let Some(total) = g.total_of(seat) else {
            return Err(Halt::Invalid);
        };
        if id.place() == 0 {
            roll(alloc, g, args, tape, events)
        } else {
            hold(alloc, g, seat, total, args, events)
        }
    }

    /// The least seat with a total of 20 or more wins.
    fn end_if(g: &Scores) -> Option<Outcome> {
        match g.first_of_20() {
            Some(seat) => Some(Outcome::Winner(seat)),
            None => None,
        }
    }

    fn may_undo() -> bool {
        false
    }

    /// A roll, and a hold where the pot isn't empty.
    fn offers(alloc: Global, g: &Scores, seat: Seat) -> Result<List<(MoveId, Args)>, NoMemory> {
        let mut offers = List::new(alloc);
        offers.push(offer(MoveId::at(0)))?;
        if g.pot() > 0 {
            offers.push(offer(MoveId::at(1)))?;
        }
        Ok(offers)
    }
}

/// `roll`: a one empties the pot and ends the turn, and another face goes into the pot.
fn roll(
    alloc: Global,
    g: &Scores,
    args: &[Arg],
    tape: &mut Tape,
    events: &mut EventQueue,
) -> Result<Scores, Halt>
    requires { events.old ≡ [] }
    ensures deed { Gives result tape.old.left tape.new.left events.new (roll g.now args.now tape.old.left) }
    ensures follows { Follows tape.old tape.new }
{
    if !args.is_empty() {
        return Err(Halt::Invalid);
    }
    // The face is looked at before its word is drawn, since a roll that isn't allowed draws none.
    let face = tape.peek_die(6)?;
    let Some(pot) = pot_after(g.pot(), face) else {
        return Err(Halt::Invalid);
    };
    tape.word()?;
    if face == 1 {
        events.push(Event::EndTurn { to: None })?;
    }
    Ok(g.with_pot(alloc, pot)?)
}

/// The pot after a face; none where the sum passes 32 bits.
fn pot_after(pot: u32, face: u32) -> Option<u32>
    ensures { result ≡ pot_after pot face }
{
    if face == 1 {
        Some(0)
    } else {
        pot.checked_add(face)
    }
}

/// `hold`: the pot, in which there is something, goes to the seat's total, and the turn ends.
fn hold(
    alloc: Global,
    g: &Scores,
    seat: Seat,
    total: u32,
    args: &[Arg],
    events: &mut EventQueue,
) -> Result<Scores, Halt>
    requires queue { events.old ≡ [] }
    requires known { seat < length g.now.totals }
    ensures { (words : Items ℕ) → Gives result words words events.new (hold g.now seat total args.now words) }
{
    if !args.is_empty() || g.pot() == 0 {
        return Err(Halt::Invalid);
    }
    let Some(sum) = total.checked_add(g.pot()) else {
        return Err(Halt::Invalid);
    };
    events.push(Event::EndTurn { to: None })?;
    Ok(g.with_total(alloc, seat, sum)?)
}
