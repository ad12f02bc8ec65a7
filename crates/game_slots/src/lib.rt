//! The states of described games: lists of values in slots, in a part that all see, one for each seat and one that nobody sees,
//! and the slots of work that live while one piece of code runs.
#![tactic(auto)]

mod items;
mod kept;
mod players;
mod rows;
mod slots;
mod starts;
mod table;
mod work_table;

pub use items::Items;
pub use kept::place_in;
pub use players::Players;
pub use rows::{Change, Count, ItemKind, SlotPlace, SlotRow, TableRows};
pub use slots::Slots;
pub use starts::{started, value_fits};
pub use table::Table;
pub use work_table::{WorkTable, items_at};
