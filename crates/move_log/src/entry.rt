//! One entry of the log, whole and as a viewer sees it.

ghost use Rattle.std.specs.Prelude.{◌≡◌, false, option_map, slice_get, unwrap_or};

use crate::outline::{Outline, Seen};
use game_sheet::{Act, Arg, Args, MoveId, Number, PhaseId, Seat, Sheet};

/// An accepted action of a match, with the state that it was made on.
pub struct Entry {
    /// Who acted.
    pub seat: Seat,
    /// What was done. The arguments are empty where they are hidden.
    pub act: Act,
    /// Whether the arguments are shown as null.
    pub hidden: bool,
    /// The state number before the action.
    pub number: Number,
    /// The turn before the action.
    pub turn: u32,
    /// The phase before the action, if any.
    pub phase: Option<PhaseId>,
    /// How many random words the action drew; 0 in what a viewer sees.
    pub words: u32,
}

impl Drop for Entry {
    fn drop(self) {
        let Entry {
            seat: _,
            act,
            hidden: _,
            number: _,
            turn: _,
            phase: _,
            words: _,
        } = self;
        drop(act);
    }
}

impl Entry {
    ghost use Rattle.move_log.specs.Outline.{args_of, outline_of, seen};
    ghost use Rattle.move_log.specs.Redact.{conceals, without_args, redact};

    /// The entry as a viewer sees it: a seat, or a spectator where there is none.
    ///
    /// The count of words is 0. Another seat's move shows no arguments where its row on the sheet says `redact`.
    pub fn redacted(&self, sheet: &Sheet, viewer: Option<Seat>) -> Entry
        ensures { result ≡ redact sheet.now viewer self.now }
    {
        let concealed = self.is_concealed(sheet, viewer);
        let act = if concealed {
            self.bare_act()
        } else {
            self.act.copy()
        };
        Entry {
            seat: self.seat,
            act,
            hidden: self.hidden || concealed,
            number: self.number,
            turn: self.turn,
            phase: self.phase,
            words: 0,
        }
    }

    /// What a viewer sees of the entry besides its arguments.
    pub fn seen(&self, sheet: &Sheet, viewer: Option<Seat>) -> Seen
        ensures { result ≡ seen sheet.now viewer self.now }
    {
        Seen {
            seat: self.seat,
            act: self.outline(),
            hidden: self.hidden || self.is_concealed(sheet, viewer),
            number: self.number,
            turn: self.turn,
            phase: self.phase,
        }
    }

    /// The arguments of the action; an action that is no move has none.
    pub fn args(&self) -> &[Arg]
        ensures { result.now ≡ args_of self.now.act }
    {
        match &self.act {
            Act::Move { args, .. } => args.as_slice(),
            Act::Event(_) | Act::Undo | Act::Redo => &[],
        }
    }

    fn outline(&self) -> Outline
        ensures { result ≡ outline_of self.now.act }
    {
        match &self.act {
            Act::Move { id, .. } => Outline::Move(*id),
            Act::Event(event) => Outline::Event(*event),
            Act::Undo => Outline::Undo,
            Act::Redo => Outline::Redo,
        }
    }

    fn is_concealed(&self, sheet: &Sheet, viewer: Option<Seat>) -> bool
        ensures { result ≡ conceals sheet.now viewer self.now }
    {
        if viewer == Some(self.seat) {
            return false;
        }
        match &self.act {
            Act::Move { id, .. } => hides_args(sheet, *id),
            Act::Event(_) => false,
            Act::Undo => false,
            Act::Redo => false,
        }
    }

    fn bare_act(&self) -> Act
        ensures { result ≡ without_args self.now.act }
    {
        match &self.act {
            Act::Move { id, .. } => Act::Move {
                id: *id,
                args: Args::new(),
            },
            Act::Event(event) => Act::Event(*event),
            Act::Undo => Act::Undo,
            Act::Redo => Act::Redo,
        }
    }
}

/// Whether the sheet has the move's arguments hidden from all but its player.
pub(crate) fn hides_args(sheet: &Sheet, id: MoveId) -> bool
    ensures { result ≡ unwrap_or (option_map (λ row. row.redact) (slice_get sheet.now.moves id)) false }
{
    match sheet.moves.get(id.place() as usize) {
        Some(row) => row.redact,
        None => false,
    }
}
