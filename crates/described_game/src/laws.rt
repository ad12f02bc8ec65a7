//! What holds of all described games besides the laws of games. There is nothing to run.

ghost use Rattle.std.specs.Prelude.{◌≡◌, ◌<◌, ℕ, List as Items, Some, map};
ghost use Rattle.std.specs.List.{AllByRecursion, range_with_len};
ghost use Rattle.game_sheet.specs.declared.args.Arg.{Arg};
ghost use Rattle.game_slots.specs.Tables.{strip};
ghost use Rattle.slot_json.specs.TextBytes.{HasShortTexts};
ghost use Rattle.described_game.specs.DescribedRules.{rules_of};
ghost use Rattle.described_game.specs.Moves.{IsValid};
ghost use Rattle.described_game.specs.Offers.{range_row, range_rows, rows_count};

use crate::described::Described;
use crate::parts::NumberRange;
use game_sheet::{Ctx, Seat};
use game_slots::Table;

/// A move that is offered to a seat is allowed, whatever words there are.
pub fn offers_are_allowed(game: &Described, table: &Table, context: &Ctx, seat: Seat)
    ensures { AllByRecursion (λ (offer : ℕ × Items Arg). (words : Items ℕ) → IsValid ((rules_of game.now.parts).play table.now context.now seat offer.0 offer.1 words)) ((rules_of game.now.parts).options table.now context.now seat) }
{}

/// A seat is offered on its view of a state what it is offered on the state.
pub fn offers_are_seen(game: &Described, table: &Table, context: &Ctx, seat: Seat)
    ensures { (rules_of game.now.parts).options (strip table.now (Some seat)) context.now seat ≡ (rules_of game.now.parts).options table.now context.now seat }
{}

/// The text of each own state has at most 8,192 bytes.
pub fn texts_are_short(game: &Described)
    ensures { HasShortTexts game.now.parts.layout }
{}

/// The rows by their numbers are all rows of one number of each range, in order: so a list of numbers offers those of them whose
/// numbers it has.
pub fn rows_have_numbers(ranges: &[NumberRange])
    requires { rows_count ranges.now < 2147483648 }
    ensures { map (range_row ranges.now) (range_with_len 0 (rows_count ranges.now)) ≡ range_rows ranges.now }
{}
