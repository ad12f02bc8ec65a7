//! Who has the greatest number.

ghost use Rattle.std.specs.Prelude.{◌≡◌, ◌<◌, length, IfSome};
ghost use Rattle.card_games.specs.Greatest.{count_greatest, first_greatest, greatest, one_greatest};

use game_sheet::{Outcome, Short};

/// An item that counts for a number.
pub(crate) trait Worth {
    ghost use Rattle.std.specs.Prelude.{◌≡◌, ℕ};

    ghost worth: { Self → ℕ };

    /// What the item counts for.
    fn worth(&self) -> u32
        ensures { result ≡ worth self.now };
}

impl Worth for u32 {
    ghost worth = { λ number. number };

    fn worth(&self) -> u32 {
        *self
    }
}

/// A text counts for its bytes.
impl Worth for Short {
    ghost use Rattle.std.specs.Prelude.{length};

    ghost worth = { λ text. length text };

    fn worth(&self) -> u32 {
        self.as_str().len() as u32
    }
}

/// The greatest of what the items count for, or 0.
fn greatest<W: Worth>(items: &[W]) -> u32
    ensures { result ≡ greatest W.worth items.now }
{
    items.iter().fold(0, |most, item| most.max(item.worth()))
}

/// The first of the items that count for the most.
pub(crate) fn first_greatest<W: Worth>(items: &[W]) -> Option<usize>
    ensures value { result ≡ first_greatest W.worth items.now }
    ensures known { IfSome result (λ place. place < length items.now) }
{
    let most = greatest(items);
    items.iter().position(|item| item.worth() == most)
}

/// How many of the items count for the most.
fn count_greatest<W: Worth>(items: &[W]) -> usize
    ensures { result ≡ count_greatest W.worth items.now }
{
    let most = greatest(items);
    items.iter().filter(|item| item.worth() == most).count()
}

/// The one seat whose item counts for the most wins; where several do, nobody wins. A place past the sixteenth is no seat's.
pub(crate) fn one_greatest<W: Worth>(items: &[W]) -> Outcome
    ensures { result ≡ one_greatest W.worth items.now }
{
    if count_greatest(items) != 1 {
        return Outcome::Draw;
    }
    match first_greatest(items) {
        Some(place) if place < 16 => Outcome::Winner(place as u8),
        _ => Outcome::Draw,
    }
}
