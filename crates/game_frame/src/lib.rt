//! What the file of a described game says but for its code: constants, slots with their types and starts, arguments of moves, and the sheet.
//!
//! A description is refused with its first fault. Pieces are looked at in this order, each whole before the next:
//!
//! 1. the file's members, as `game_file` reads them;
//! 2. the rows of constants, of which there are at most 65,535;
//! 3. the slots of `common`, `players`, `secret` and `work`, each by the byte order of its names: its items, how many there are, and its start;
//! 4. how long the text of a state may be;
//! 5. `scores`;
//! 6. which specs of active players follow which;
//! 7. the sheet: `base`, the turn, the phases, the stages, the specs, the events; of a turn its order, its limits and its spec;
//!    of a phase and a stage what follows it, its moves, and its turn; of a spec where seats are put, its limits, what follows it, and its seats;
//! 8. the slots that orders and specs name;
//! 9. the arguments of each move, text by text: of each its name, its range, and what is offered;
//! 10. display hints.
//!
//! What `in LIST` names, and whether an `endTurn` stands in a move after which the turn ends by itself, is looked at with the code: `MoveFrame` says of which moves that is.
#![tactic(auto)]

mod actives;
mod arguments;
mod clients;
mod constants;
mod frame;
mod hints;
mod misfit;
mod order;
mod phases;
mod rows;
mod scores;
mod sheet;
mod slots;
mod turn_ends;
mod turns;
mod types;
mod whole;

pub use clients::with_clients;
pub use frame::{
    ArgumentFrame, ArgumentKind, ConstantFrame, ConstantKind, Frame, FrameNames, FrameOrders,
    FrameSlots, ListFrame, MoveFrame, SlotFrame, SlotSeats, SlotType, SpecFrame,
};
pub use misfit::Misfit;
pub use turn_ends::ends_turn;
pub use types::{Known, TypeText};
pub use whole::frame_of;
