//! The vocabulary of a match: small types over memory, sheets, acts and the context that every player sees.
#![tactic(auto)]

mod act;
mod args;
mod bytes;
mod check;
mod ctx;
mod event_queue;
mod ids;
mod key;
mod list;
mod match_name;
mod memory;
mod names;
mod refusal;
mod sheet;
mod short;
mod text;
mod viewer;

pub use act::{Act, Bye, Event, EventKind, Outcome};
pub use args::{Arg, Args};
pub use bytes::Bytes;
pub use check::{SheetFault, check_sheet, unbroken};
pub use ctx::Ctx;
pub use event_queue::{Crowded, EventQueue};
pub use ids::{MOST_ACTIONS, MOST_SEATS, MoveId, Number, PhaseId, Seat, SpecId, StageId};
pub use key::Key;
pub use list::List;
pub use match_name::MatchName;
pub use memory::NoMemory;
pub use refusal::{GameNo, GameRule};
pub use sheet::{MoveRow, Order, PhaseRow, Place, Sheet, SpecRow, StageRow, TurnRow};
pub use short::Short;
pub use text::Text;
pub use viewer::{Viewer, seat_of};
