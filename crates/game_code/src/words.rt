//! Locals, arguments and words of the match.

ghost use Rattle.std.specs.Prelude.{◌≡◌, length, slice_get};
ghost use Rattle.game_code.specs.Meaning.{count_value, local_at, place_value, size_of_value, values_of, word_value};
ghost use Rattle.game_code.specs.Setting.{setting_of};

use crate::expression::{Locals, Word};
use crate::scene::Scene;
use game_sheet::Arg;
use slot_values::Value;

/// The local value at a place, counted from the newest; null where there are not so many.
pub(crate) fn local_at(locals: &Locals, place: u8) -> Value
    ensures { result ≡ local_at (values_of locals.now) place }
{
    match locals {
        Locals::Empty => None,
        Locals::With(value, older) => {
            if place == 0 {
                *value
            } else {
                local_at(older, place - 1)
            }
        }
    }
}

/// The argument at a place; null where there are not so many.
pub(crate) fn argument_at(arguments: &[Arg], place: u8) -> Value
    ensures { result ≡ slice_get arguments.now place }
{
    arguments.get(usize::from(place)).copied()
}

/// The value of a word of the match.
pub(crate) fn word_value(word: Word, scene: &Scene) -> Value
    ensures { result ≡ word_value word (setting_of scene.now) }
{
    match word {
        Word::Seat => match scene.seat {
            Some(seat) => place_value(seat),
            None => None,
        },
        Word::Seats => place_value(scene.context.seats),
        Word::Current => place_value(scene.context.current),
        Word::Turn => count_value(scene.context.turn),
        Word::Moves => count_value(scene.context.moves),
        Word::Place => place_value(scene.context.pos),
        Word::Phase => match scene.context.phase {
            Some(phase) => place_value(phase.place()),
            None => None,
        },
    }
}

/// A place as a value.
pub(crate) fn place_value(place: u8) -> Value
    ensures { result ≡ place_value place }
{
    Some(Arg::Whole(i32::from(place)))
}

/// A count as a value; null where it isn't a number of 32 bits.
fn count_value(count: u32) -> Value
    ensures { result ≡ count_value count }
{
    if count <= 2_147_483_647 {
        Some(Arg::Whole(count as i32))
    } else {
        None
    }
}

/// How many bytes a text has; null of what is no text.
pub(crate) fn size_of_value(value: &Value) -> Value
    ensures { result ≡ size_of_value value.now }
{
    match value {
        Some(Arg::Text(text)) => place_value(text.as_str().len() as u8),
        _ => None,
    }
}
