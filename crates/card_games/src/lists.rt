//! Copies of states, and of lists with one place changed.

ghost use Rattle.std.specs.Prelude.{◌≡◌, ◌<◌, length, IfOk, Some, slice_set};

use game_sheet::{List, NoMemory};
use secret_strip::{CopyPart, Split};
use std::alloc::Global;

/// A list with one place changed, if it has the place.
pub(crate) fn changed<T: Copy>(
    alloc: Global,
    items: &[T],
    place: usize,
    item: T,
) -> Result<List<T>, NoMemory>
    ensures { IfOk result (λ l. l ≡ slice_set items.now place item) }
{
    let mut changed = Vec::from_slice(alloc, items)?;
    if place < changed.len() {
        changed[place] = item;
    }
    Ok(List::from_vec(changed))
}

/// An equal list of entries.
pub(crate) fn copied<P: CopyPart>(
    alloc: Global,
    entries: &[Option<P>],
) -> Result<Vec<Option<P>>, NoMemory>
    ensures { IfOk result (λ v. v.items ≡ entries.now) }
{
    let mut copies = Vec::new(alloc);
    for entry in entries {
        copies.push(copied_entry(alloc, entry)?)?;
    }
    Ok(copies)
}

/// An equal entry.
fn copied_entry<P: CopyPart>(alloc: Global, entry: &Option<P>) -> Result<Option<P>, NoMemory>
    ensures { IfOk result (λ copied. copied ≡ entry.now) }
{
    match entry {
        Some(part) => Ok(Some(part.copy(alloc)?)),
        None => Ok(None),
    }
}

/// The entries with another one at a seat, if they have the seat.
pub(crate) fn with_entry<P: CopyPart>(
    alloc: Global,
    entries: &[Option<P>],
    seat: usize,
    part: P,
) -> Result<List<Option<P>>, NoMemory>
    ensures { IfOk result (λ l. l ≡ slice_set entries.now seat (Some part)) }
{
    let mut changed = copied(alloc, entries)?;
    if seat < changed.len() {
        changed[seat] = Some(part);
    }
    Ok(List::from_vec(changed))
}

/// An equal state.
pub fn copied_split<C: CopyPart, S: CopyPart, P: CopyPart>(
    alloc: Global,
    split: &Split<C, S, P>,
) -> Result<Split<C, S, P>, NoMemory>
    ensures { IfOk result (λ copied. copied ≡ split.now) }
{
    let players = List::from_vec(copied(alloc, split.players.as_slice())?);
    match copied_rest(alloc, split) {
        Ok((common, secret)) => Ok(Split {
            common,
            secret,
            players,
        }),
        Err(NoMemory) => {
            drop(players);
            Err(NoMemory)
        }
    }
}

/// The common and the secret part of an equal state.
fn copied_rest<C: CopyPart, S: CopyPart, P: CopyPart>(
    alloc: Global,
    split: &Split<C, S, P>,
) -> Result<(C, Option<S>), NoMemory>
    ensures { IfOk result (λ rest. rest ≡ (split.now.common, split.now.secret)) }
{
    let common = split.common.copy(alloc)?;
    match copied_entry(alloc, &split.secret) {
        Ok(secret) => Ok((common, secret)),
        Err(NoMemory) => {
            drop(common);
            Err(NoMemory)
        }
    }
}
