//! Games with secrets: their sheets, states and moves.
#![tactic(auto)]

mod bids;
mod blind_bid;
mod captions;
mod cards;
mod dealt;
mod greatest;
mod high_hand;
mod lists;
mod offers;
mod parts;
mod sealed;
mod texts;

pub use bids::Bidding;
pub use blind_bid::{Bids, BlindBid};
pub use captions::{Captions, Texts};
pub use cards::{CardTable, Deck, Hand};
pub use dealt::Dealt;
pub use high_hand::{Cards, HighHand};
pub use lists::copied_split;
pub use parts::Part;
pub use sealed::{NoSecret, Sealed};
pub use texts::Shown;
