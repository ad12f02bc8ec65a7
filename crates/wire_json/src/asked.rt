//! An action as a client asks for it, its names not yet looked up in a sheet.

use game_sheet::{Args, EventKind, NoMemory, Seat, Text};
use std::alloc::Global;

/// An action that a client asks for.
pub enum Asked {
    /// A move of the game.
    Move {
        /// The move's name, 1 to 32 bytes.
        name: Text,
        /// What it is given.
        args: Args,
    },
    /// An event.
    Event {
        /// Which event.
        kind: EventKind,
        /// What it is aimed at.
        to: AskedTo,
    },
    /// Takes the last done action back.
    Undo,
    /// Does the first undone action again.
    Redo,
}

impl Drop for Asked {
    fn drop(self) {
        match self {
            Asked::Move { name, args } => {
                drop(name);
                drop(args);
            }
            Asked::Event { kind: _, to } => drop(to),
            Asked::Undo | Asked::Redo => {}
        }
    }
}

/// What an event is aimed at.
pub enum AskedTo {
    /// Nothing.
    Nothing,
    /// A seat, 0 to 255.
    Seat(Seat),
    /// A phase or a stage by its name, 1 to 32 bytes.
    Name(Text),
}

impl Drop for AskedTo {
    fn drop(self) {
        match self {
            AskedTo::Name(name) => drop(name),
            AskedTo::Nothing | AskedTo::Seat(_) => {}
        }
    }
}

impl Asked {
    ghost use Rattle.std.specs.Prelude.{◌≡◌, IfOk};

    /// An equal act.
    pub fn copy(&self, alloc: Global) -> Result<Asked, NoMemory>
        ensures { IfOk result (λ act. act ≡ self.now) }
    {
        match self {
            Asked::Move { name, args } => {
                let name = name.copy(alloc)?;
                Ok(Asked::Move {
                    name,
                    args: args.copy(),
                })
            }
            Asked::Event { kind, to } => {
                let to = to.copy(alloc)?;
                Ok(Asked::Event { kind: *kind, to })
            }
            Asked::Undo => Ok(Asked::Undo),
            Asked::Redo => Ok(Asked::Redo),
        }
    }
}

impl AskedTo {
    ghost use Rattle.std.specs.Prelude.{◌≡◌, IfOk};

    /// An equal aim.
    pub fn copy(&self, alloc: Global) -> Result<AskedTo, NoMemory>
        ensures { IfOk result (λ to. to ≡ self.now) }
    {
        match self {
            AskedTo::Nothing => Ok(AskedTo::Nothing),
            AskedTo::Seat(seat) => Ok(AskedTo::Seat(*seat)),
            AskedTo::Name(name) => Ok(AskedTo::Name(name.copy(alloc)?)),
        }
    }
}
