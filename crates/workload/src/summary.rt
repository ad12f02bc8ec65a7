//! What a workload tells at its end.

ghost use Rattle.std.specs.Prelude.{◌≡◌, ◌++◌, IfOk, OnOk};
ghost use Rattle.world_history.specs.Workload.{number_line};
ghost use Rattle.workload.specs.IsLoad.{summary_of};

use crate::counts::Counts;
use game_sheet::NoMemory;
use itoa::Buffer;
use std::alloc::Global;

/// The six lines of a workload of so many steps.
pub(crate) fn summary(alloc: Global, steps: u32, counts: Counts) -> Result<Vec<u8>, NoMemory>
    ensures { IfOk result (λ text. text.items ≡ summary_of steps counts) }
{
    let mut text = Vec::new(alloc);
    put_number(&mut text, "steps", u128::from(steps))?;
    put_number(&mut text, "accepted", counts.accepted)?;
    put_number(&mut text, "refused", counts.refused)?;
    put_number(&mut text, "held", counts.held)?;
    put_number(&mut text, "read", counts.read)?;
    put_number(&mut text, "bytes", counts.bytes)?;
    Ok(text)
}

/// Adds a line with a number.
fn put_number(text: &mut Vec<u8>, word: &str, number: u128) -> Result<(), NoMemory>
    ensures { OnOk result (text.new.items ≡ text.old.items ++ number_line word.now number) }
{
    let mut digits = Buffer::new();
    text.extend_from_slice(word.as_bytes())?;
    text.push(b' ')?;
    text.extend_from_slice(digits.format(number).as_bytes())?;
    text.push(b'\n')?;
    Ok(())
}
