//! Events that are asked for.

ghost use Rattle.std.specs.Prelude.{◌≡◌, Some};
ghost use Rattle.game_sheet.specs.declared.args.Arg.TheVariants.{Whole};
ghost use Rattle.game_code.specs.Meaning.{values_of};
ghost use Rattle.game_code.specs.Setting.{setting_of};
ghost use Rattle.game_code.specs.Wishes.{seat_in, turn_to, wished, won_by};

use crate::evaluates::evaluate;
use crate::expression::Locals;
use crate::scene::Sight;
use crate::statement::Wish;
use game_sheet::{Arg, Event, Outcome, Seat};
use slot_values::Value;

/// The seat that a value is, of a match of so many seats, which are at most sixteen.
pub fn seat_in(seats: u8, value: &Value) -> Option<Seat>
    ensures { result ≡ seat_in seats value.now }
{
    match value {
        Some(Arg::Whole(number)) => seat_at(seats, *number),
        _ => None,
    }
}

fn seat_at(seats: u8, number: i32) -> Option<Seat>
    ensures { result ≡ seat_in seats (Some (Whole number)) }
{
    if number >= 0 && number < i32::from(seats) && number < 16 {
        Some(number as u32 as u8)
    } else {
        None
    }
}

/// The end of a turn, with a seat to be next: null leaves it to the order.
fn turn_to(seats: u8, value: &Value) -> Option<Event>
    ensures { result ≡ turn_to seats value.now }
{
    match value {
        None => Some(Event::EndTurn { to: None }),
        Some(_) => match seat_in(seats, value) {
            Some(seat) => Some(Event::EndTurn { to: Some(seat) }),
            None => None,
        },
    }
}

fn won_by(seats: u8, value: &Value) -> Option<Event>
    ensures { result ≡ won_by seats value.now }
{
    match seat_in(seats, value) {
        Some(seat) => Some(Event::EndGame {
            outcome: Outcome::Winner(seat),
        }),
        None => None,
    }
}

/// The event that is asked for, if there is one.
pub(crate) fn wished(wish: &Wish, sight: &Sight, locals: &Locals) -> Option<Event>
    ensures { result ≡ wished wish.now (setting_of sight.now.scene.now) sight.now.table.now sight.now.work.now (values_of locals.now) }
{
    match wish {
        Wish::EndTurn => Some(Event::EndTurn { to: None }),
        Wish::EndTurnTo(seat) => turn_to(sight.scene.context.seats, &evaluate(seat, sight, locals)),
        Wish::EndPhase => Some(Event::EndPhase),
        Wish::SetPhase(to) => Some(Event::SetPhase { to: *to }),
        Wish::EndStage => Some(Event::EndStage),
        Wish::SetStage(to) => Some(Event::SetStage { to: *to }),
        Wish::SetActive(spec) => Some(Event::SetActive { spec: *spec }),
        Wish::Win(seat) => won_by(sight.scene.context.seats, &evaluate(seat, sight, locals)),
        Wish::Draw => Some(Event::EndGame {
            outcome: Outcome::Draw,
        }),
        Wish::End => Some(Event::EndGame {
            outcome: Outcome::Ended,
        }),
    }
}
