//! A deck that isn't shuffled.

ghost use Rattle.std.specs.Prelude.{◌≡◌, IfOk, IsPermutation, IsTrue};
ghost use Rattle.card_games.specs.Pack.{are_cards, pack};

use game_sheet::{List, NoMemory};
use secret_strip::CopyPart;
use std::alloc::Global;

/// A deck in the order in which it is dealt.
#[derive(Drop)]
pub struct Dealt {
    /// The cards; the first is drawn first.
    pub cards: List<u8>,
    pub ghost proper: { IsTrue (are_cards cards) },
}

impl Dealt {
    /// The deck of these cards, which are the 52 in some order.
    pub(crate) fn of(deck: Vec<u8>) -> Self
        requires { IsPermutation pack deck.items }
        ensures { result.cards ≡ deck.items }
    {
        Dealt {
            cards: List::from_vec(deck),
        }
    }

    /// An equal deck.
    pub(crate) fn copy(&self, alloc: Global) -> Result<Self, NoMemory>
        ensures { IfOk result (λ copied. copied ≡ self.now) }
    {
        let cards = self.cards.copy(alloc)?;
        Ok(Dealt { cards })
    }
}
