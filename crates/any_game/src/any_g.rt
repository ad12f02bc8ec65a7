//! The states of the six games as one type.

ghost use Rattle.std.specs.Prelude.{◌≡◌, ◌++◌, ◌↔◌, false, IfOk, IfSome, IsTrue, OnOk, Option, Some, option_copied, refl};
ghost use Rattle.any_game.specs.Values.{any_value, are_bids, are_cards, are_points, as_bids, as_board, as_cards, as_heap, as_points, as_texts, are_texts, is_board, is_heap};
ghost use Rattle.any_game.specs.declared.any_g.AnyG.{AnyG};
ghost use Rattle.any_game.specs.declared.any_g.AnyG.TheVariants.{TicTacToe as OfTicTacToe, Countdown as OfCountdown, Pig as OfPig, HighHand as OfHighHand, BlindBid as OfBlindBid, Captions as OfCaptions};
ghost use Rattle.serde_json.specs.View.{view};
ghost use Rattle.serde_json.specs.Written.{compact_text, has_float};

use card_games::{Bids, Cards, Part, Texts, copied_split};
use game_sheet::NoMemory;
use open_game::State;
use serde_json::Value;
use std::alloc::Global;
use table_states::{Board, Heap, Scores};

/// A state of one of the games.
pub enum AnyG {
    /// Of tic-tac-toe.
    TicTacToe(Board),
    /// Of Countdown.
    Countdown(Heap),
    /// Of Pig.
    Pig(Scores),
    /// Of High Hand.
    HighHand(Cards),
    /// Of Blind Bid.
    BlindBid(Bids),
    /// Of Captions.
    Captions(Texts),
}

impl Drop for AnyG {
    fn drop(self) {
        match self {
            AnyG::TicTacToe(g) => drop(g),
            AnyG::Countdown(g) => drop(g),
            AnyG::Pig(g) => drop(g),
            AnyG::HighHand(g) => drop(g),
            AnyG::BlindBid(g) => drop(g),
            AnyG::Captions(g) => drop(g),
        }
    }
}

impl AnyG {
    /// An equal state.
    pub(crate) fn copy(&self, alloc: Global) -> Result<Self, NoMemory>
        ensures { IfOk result (λ copied. copied ≡ self.now) }
    {
        match self {
            AnyG::TicTacToe(board) => in_any(board.copy(alloc)),
            AnyG::Countdown(heap) => in_any(heap.copy(alloc)),
            AnyG::Pig(scores) => in_any(scores.copy(alloc)),
            AnyG::HighHand(cards) => in_any(copied_split(alloc, cards)),
            AnyG::BlindBid(bids) => in_any(copied_split(alloc, bids)),
            AnyG::Captions(texts) => in_any(copied_split(alloc, texts)),
        }
    }

    /// Whether two states are equal; those of two games are not.
    pub(crate) fn same(&self, other: &AnyG) -> bool
        ensures { IsTrue result ↔ (self.now ≡ other.now) }
    {
        match (self, other) {
            (AnyG::TicTacToe(board), AnyG::TicTacToe(other)) => board.same(other),
            (AnyG::Countdown(heap), AnyG::Countdown(other)) => heap.same(other),
            (AnyG::Pig(scores), AnyG::Pig(other)) => scores.same(other),
            (AnyG::HighHand(cards), AnyG::HighHand(other)) => cards.same(other),
            (AnyG::BlindBid(bids), AnyG::BlindBid(other)) => bids.same(other),
            (AnyG::Captions(texts), AnyG::Captions(other)) => texts.same(other),
            _ => false,
        }
    }

    /// The state as JSON, as its own game writes it.
    pub(crate) fn to_value(&self, alloc: Global) -> Result<Value, NoMemory>
        ensures value { IfOk result (λ v. view v ≡ any_value self.now) }
        ensures float_free { IfOk result (λ v. has_float (view v) ≡ false) }
    {
        match self {
            AnyG::TicTacToe(board) => board.to_value(alloc),
            AnyG::Countdown(heap) => heap.to_value(alloc),
            AnyG::Pig(scores) => scores.to_value(alloc),
            AnyG::HighHand(cards) => Ok(cards.to_json(alloc)?),
            AnyG::BlindBid(bids) => Ok(bids.to_json(alloc)?),
            AnyG::Captions(texts) => Ok(texts.to_json(alloc)?),
        }
    }

    /// Appends the state's text, as its own game writes it.
    pub(crate) fn write(&self, alloc: Global, out: &mut Vec<u8>) -> Result<(), NoMemory>
        ensures { OnOk result (out.new.items ≡ out.old.items ++ compact_text (any_value self.now)) }
    {
        match self {
            AnyG::TicTacToe(board) => board.write(alloc, out),
            AnyG::Countdown(heap) => heap.write(alloc, out),
            AnyG::Pig(scores) => scores.write(alloc, out),
            AnyG::HighHand(cards) => Ok(cards.write(alloc, out)?),
            AnyG::BlindBid(bids) => Ok(bids.write(alloc, out)?),
            AnyG::Captions(texts) => Ok(texts.write(alloc, out)?),
        }
    }
}

/// A game's own states, which are among the states of all games.
pub(crate) trait OwnState: Drop {
    ghost inject: { Self → AnyG };

    ghost project: { AnyG → Option Self };

    /// The state among those of all games.
    fn into_any(self) -> AnyG
        ensures { result ≡ inject self };

    /// The state where it is the game's own; none where it is another game's.
    fn of_any(g: &AnyG) -> Option<&Self>
        ensures value { option_copied result ≡ project g.now }
        ensures same { IfSome result (λ own. g.now ≡ inject own.now) };

    // An own state is found among the states of all games, and what is found is that state.
    ghost finds: { (own : Self) → project (inject own) ≡ Some own };

    ghost tells: { (g : AnyG) → IfSome (project g) (λ own. g ≡ inject own) };
}

/// A copy of an own state, among the states of all games.
fn in_any<H: OwnState>(copied: Result<H, NoMemory>) -> Result<AnyG, NoMemory>
    ensures { (own : H) → IfOk copied (λ copy. copy ≡ own) → IfOk result (λ any. any ≡ H.inject own) }
{
    match copied {
        Ok(own) => Ok(own.into_any()),
        Err(error) => Err(error),
    }
}

impl OwnState for Board {
    ghost inject = { OfTicTacToe };

    ghost project = { as_board };

    ghost finds = { λ own. refl };

    ghost tells = { is_board };

    fn into_any(self) -> AnyG {
        AnyG::TicTacToe(self)
    }

    fn of_any(g: &AnyG) -> Option<&Self> {
        match g {
            AnyG::TicTacToe(board) => Some(board),
            _ => None,
        }
    }
}

impl OwnState for Heap {
    ghost inject = { OfCountdown };

    ghost project = { as_heap };

    ghost finds = { λ own. refl };

    ghost tells = { is_heap };

    fn into_any(self) -> AnyG {
        AnyG::Countdown(self)
    }

    fn of_any(g: &AnyG) -> Option<&Self> {
        match g {
            AnyG::Countdown(heap) => Some(heap),
            _ => None,
        }
    }
}

impl OwnState for Scores {
    ghost inject = { OfPig };

    ghost project = { as_points };

    ghost finds = { λ own. refl };

    ghost tells = { are_points };

    fn into_any(self) -> AnyG {
        AnyG::Pig(self)
    }

    fn of_any(g: &AnyG) -> Option<&Self> {
        match g {
            AnyG::Pig(scores) => Some(scores),
            _ => None,
        }
    }
}

impl OwnState for Cards {
    ghost inject = { OfHighHand };

    ghost project = { as_cards };

    ghost finds = { λ own. refl };

    ghost tells = { are_cards };

    fn into_any(self) -> AnyG {
        AnyG::HighHand(self)
    }

    fn of_any(g: &AnyG) -> Option<&Self> {
        match g {
            AnyG::HighHand(cards) => Some(cards),
            _ => None,
        }
    }
}

impl OwnState for Bids {
    ghost inject = { OfBlindBid };

    ghost project = { as_bids };

    ghost finds = { λ own. refl };

    ghost tells = { are_bids };

    fn into_any(self) -> AnyG {
        AnyG::BlindBid(self)
    }

    fn of_any(g: &AnyG) -> Option<&Self> {
        match g {
            AnyG::BlindBid(bids) => Some(bids),
            _ => None,
        }
    }
}

impl OwnState for Texts {
    ghost inject = { OfCaptions };

    ghost project = { as_texts };

    ghost finds = { λ own. refl };

    ghost tells = { are_texts };

    fn into_any(self) -> AnyG {
        AnyG::Captions(self)
    }

    fn of_any(g: &AnyG) -> Option<&Self> {
        match g {
            AnyG::Captions(texts) => Some(texts),
            _ => None,
        }
    }
}
