//! What a client asks for by the moves that its game offers it.

ghost use Rattle.std.specs.Prelude.{◌≡◌, ◌<◌, ◌≤◌, ◌+◌, ◌-◌, ◌==◌, ℕ, IfOk, OnOk, Some, length, not, slice_get};
ghost use Rattle.any_game.specs.AnyRules.{any_rules};
ghost use Rattle.any_game.specs.declared.any_g.AnyG.{AnyG};
ghost use Rattle.dice_words.specs.Dice.{die};
ghost use Rattle.dice_words.specs.Strip.{Follows};
ghost use Rattle.game_sheet.specs.SheetFits.{SheetFits};
ghost use Rattle.game_trait.specs.Rules.{Rules};
ghost use Rattle.world_history.specs.Workload.{choice, choice_words, move_asked, one_if, option_asked, options_in};
ghost use Rattle.wire_json.specs.Asking.{IsAskable};

use super::Player;
use dice_words::Tape;
use game_sheet::{Args, List, MoveId, NoMemory, Sheet};
use game_trait::Game;
use std::alloc::Global;
use wire_json::Asked;

impl Player {
    /// One of the moves that the client's game offers it, by the next word; an undo, and no word is drawn, where it is offered none.
    pub(crate) fn choose(&self, alloc: Global, tape: &mut Tape) -> Result<Asked, NoMemory>
        requires { 0 < length tape.old.left }
        ensures asked { (word : ℕ) → slice_get tape.old.left 0 ≡ Some word
            → IfOk result (λ asked. asked ≡ choice any_rules (Some self.now) word) }
        ensures form { IfOk result IsAskable }
        ensures drawn { OnOk result (tape.new.used ≡ tape.old.used + choice_words any_rules (Some self.now)) }
        ensures follows { Follows tape.old tape.new }
    {
        let offers = self.offers(alloc)?;
        let asked = chosen(alloc, self.game.sheet(), offers.as_slice(), tape);
        drop(offers);
        asked
    }

    /// The moves that the client's game offers it.
    fn offers(&self, alloc: Global) -> Result<List<(MoveId, Args)>, NoMemory>
        ensures { IfOk result (λ offers. offers ≡ options_in (any_rules self.now.game) self.now.client.playing) }
    {
        let Some(shown) = self.client.shown() else {
            return Ok(List::new(alloc));
        };
        let Some(seat) = self.client.seat() else {
            return Ok(List::new(alloc));
        };
        self.game.options(alloc, shown.g, shown.ctx, seat)
    }
}

/// One of so many offers, by the next word.
fn chosen(
    alloc: Global,
    sheet: &Sheet,
    offers: &[(MoveId, Args)],
    tape: &mut Tape,
) -> Result<Asked, NoMemory>
    requires word { 0 < length tape.old.left }
    requires fits { SheetFits sheet.now }
    ensures asked { (rules : Rules AnyG) (word : ℕ) → rules.sheet ≡ sheet.now → slice_get tape.old.left 0 ≡ Some word
        → IfOk result (λ asked. asked ≡ option_asked rules (slice_get offers.now (die (length offers.now) word - 1))) }
    ensures form { IfOk result IsAskable }
    ensures drawn { OnOk result (tape.new.used ≡ tape.old.used + one_if (not (length offers.now == 0))) }
    ensures follows { Follows tape.old tape.new }
{
    if offers.is_empty() {
        return Ok(Asked::Undo);
    }
    let Ok(word) = tape.word() else {
        unreachable!();
    };
    let (id, args) = &offers[place_by(word, offers.len())];
    asked_by(alloc, sheet, *id, args)
}

/// A place of so many, by a word.
fn place_by(word: u32, count: usize) -> usize
    requires { 1 ≤ count }
    ensures place { result ≡ die count word - 1 }
    ensures within { result < count }
{
    (u128::from(word) * count as u128 / (1 << 32)) as usize
}

/// A move of the sheet as a client asks for it.
fn asked_by(alloc: Global, sheet: &Sheet, id: MoveId, args: &Args) -> Result<Asked, NoMemory>
    requires { SheetFits sheet.now }
    ensures asked { IfOk result (λ asked. asked ≡ move_asked (slice_get sheet.now.moves id) args.now) }
    ensures form { IfOk result IsAskable }
{
    let Some(row) = sheet.moves.get(id.place() as usize) else {
        return Ok(Asked::Undo);
    };
    let name = row.name.copy(alloc)?;
    Ok(Asked::Move {
        name,
        args: args.copy(),
    })
}
