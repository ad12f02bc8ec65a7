//! An action as a match keeps it, in its log and in its trail.

ghost use Rattle.std.specs.Prelude.{◌≡◌, ◌≤◌, IfOk, length};
ghost use Rattle.move_log.specs.Outline.{args_of, outline_of};
ghost use Rattle.move_log.specs.Redact.{is_redacted};

use crate::entry::hides_args;
use crate::outline::Outline;
use game_sheet::{Act, Arg, Args, Event, MoveId, NoMemory, Sheet};
use std::alloc::Global;
use std::marker::Model;

/// An action whose arguments take the room that they need, and not the room for eight. Contracts see the action.
pub struct KeptAct {
    kept: Kept,
}

impl Drop for KeptAct {
    fn drop(self) {
        let KeptAct { kept } = self;
        drop(kept);
    }
}

/// What is kept of an action.
#[derive(Drop)]
enum Kept {
    /// A move of the game, with at most eight arguments.
    Move { id: MoveId, args: Vec<Arg> },
    /// An event.
    Event(Event),
    /// Takes the last done action back.
    Undo,
    /// Does the first undone action again.
    Redo,
}

impl Model for KeptAct {
    ghost use Rattle.game_sheet.specs.declared.act.Act.{Act};
    ghost use Rattle.move_log.specs.KeptAct.{act_kept, FewArguments};

    ghost Value = { Act };

    ghost view = { λ k. act_kept k.kept };

    ghost invariant = { λ k. FewArguments k.kept };
}

impl KeptAct {
    /// An equal action, which is kept.
    pub fn of(alloc: Global, act: &Act) -> Result<Self, NoMemory>
        ensures { IfOk result (λ kept. kept ≡ act.now) }
    {
        let kept = match act {
            Act::Move { id, args } => Kept::Move {
                id: *id,
                args: Vec::from_slice(alloc, args.as_slice())?,
            },
            Act::Event(event) => Kept::Event(*event),
            Act::Undo => Kept::Undo,
            Act::Redo => Kept::Redo,
        };
        Ok(KeptAct { kept })
    }

    /// An equal action, with room for eight arguments.
    pub fn act(&self) -> Act
        ensures { result ≡ self.now }
    {
        match &self.kept {
            Kept::Move { id, args } => Act::Move {
                id: *id,
                args: spread(args.as_slice()),
            },
            Kept::Event(event) => Act::Event(*event),
            Kept::Undo => Act::Undo,
            Kept::Redo => Act::Redo,
        }
    }

    /// The action without its arguments.
    pub fn outline(&self) -> Outline
        ensures { result ≡ outline_of self.now }
    {
        match &self.kept {
            Kept::Move { id, .. } => Outline::Move(*id),
            Kept::Event(event) => Outline::Event(*event),
            Kept::Undo => Outline::Undo,
            Kept::Redo => Outline::Redo,
        }
    }

    /// The arguments of the action; one that is no move has none.
    pub fn args(&self) -> &[Arg]
        ensures { result.now ≡ args_of self.now }
    {
        match &self.kept {
            Kept::Move { args, .. } => args.as_slice(),
            Kept::Event(_) | Kept::Undo | Kept::Redo => &[],
        }
    }

    /// Whether it is a move whose row on the sheet says `redact`.
    pub(crate) fn is_redacted(&self, sheet: &Sheet) -> bool
        ensures { result ≡ is_redacted sheet.now self.now }
    {
        match &self.kept {
            Kept::Move { id, .. } => hides_args(sheet, *id),
            Kept::Event(_) | Kept::Undo | Kept::Redo => false,
        }
    }
}

/// Arguments that are equal to these.
fn spread(kept: &[Arg]) -> Args
    requires { length kept.now ≤ 8 }
    ensures { result ≡ kept.now }
{
    let mut args = Args::new();
    for argument in kept {
        args.push(*argument);
    }
    args
}
