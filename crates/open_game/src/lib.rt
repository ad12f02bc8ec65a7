//! Games without hooks and secrets: what such a game writes, how its states are written down, and how it becomes a game.
#![tactic(auto)]

mod arguments;
mod objects;
mod offers;
mod open;
mod open_game;
mod parts;
mod sheets;
mod state;

pub use arguments::only_natural;
pub use objects::{object_of_one, object_of_two};
pub use offers::{offer, offer_number};
pub use open::Open;
pub use open_game::OpenGame;
pub use parts::{Part, kept_if, list_at, list_value, part_at, write_list};
pub use sheets::{blank_sheet, make_ordinary, turns_sheet};
pub use state::State;
