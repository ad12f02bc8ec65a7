//! Dice.

ghost use Rattle.dice_words.specs.Strip.{Follows};
ghost use Rattle.game_code.specs.Runs.{Rolls};

use dice_words::{Spent, Tape};
use slot_values::Number;

/// The face of a die with so many faces; none where there is no such die.
pub(crate) fn roll(faces: Number, tape: &mut Tape) -> Result<Number, Spent>
    ensures deed { Rolls result tape.old.left tape.new.left faces }
    ensures follows { Follows tape.old tape.new }
{
    match faces {
        Some(n) => {
            if n >= 1 {
                let face = tape.die(n as u32)?;
                Ok(Some(face as i32))
            } else {
                Ok(None)
            }
        }
        None => Ok(None),
    }
}
