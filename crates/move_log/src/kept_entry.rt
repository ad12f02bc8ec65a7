//! An entry of the log as a match keeps it.

ghost use Rattle.std.specs.Prelude.{◌≡◌, IfOk};

use crate::entry::Entry;
use crate::kept_act::KeptAct;
use crate::outline::Seen;
use game_sheet::{Arg, NoMemory, Number, PhaseId, Seat, Sheet};
use std::alloc::Global;
use std::marker::Model;

/// An entry whose action takes the room that it needs. Contracts see the entry.
pub struct KeptEntry {
    seat: Seat,
    act: KeptAct,
    hidden: bool,
    number: Number,
    turn: u32,
    phase: Option<PhaseId>,
    words: u32,
}

impl Drop for KeptEntry {
    fn drop(self) {
        let KeptEntry {
            seat: _,
            act,
            hidden: _,
            number: _,
            turn: _,
            phase: _,
            words: _,
        } = self;
        drop(act);
    }
}

impl Model for KeptEntry {
    ghost use Rattle.move_log.specs.declared.entry.Entry.{Entry};

    ghost Value = { Entry };

    ghost view = { λ k. record {
      seat = k.seat;
      act = k.act;
      hidden = k.hidden;
      number = k.number;
      turn = k.turn;
      phase = k.phase;
      words = k.words;
    } };
}

impl KeptEntry {
    ghost use Rattle.move_log.specs.Outline.{args_of, seen};
    ghost use Rattle.move_log.specs.Redact.{conceals};

    /// An equal entry, which is kept.
    pub fn of(alloc: Global, entry: &Entry) -> Result<Self, NoMemory>
        ensures { IfOk result (λ kept. kept ≡ entry.now) }
    {
        Ok(KeptEntry {
            seat: entry.seat,
            act: KeptAct::of(alloc, &entry.act)?,
            hidden: entry.hidden,
            number: entry.number,
            turn: entry.turn,
            phase: entry.phase,
            words: entry.words,
        })
    }

    /// What a viewer sees of the entry besides its arguments.
    pub fn seen(&self, sheet: &Sheet, viewer: Option<Seat>) -> Seen
        ensures { result ≡ seen sheet.now viewer self.now }
    {
        Seen {
            seat: self.seat,
            act: self.act.outline(),
            hidden: self.hidden || self.is_concealed(sheet, viewer),
            number: self.number,
            turn: self.turn,
            phase: self.phase,
        }
    }

    /// The arguments of the action; an action that is no move has none.
    pub fn args(&self) -> &[Arg]
        ensures { result.now ≡ args_of self.now.act }
    {
        self.act.args()
    }

    fn is_concealed(&self, sheet: &Sheet, viewer: Option<Seat>) -> bool
        ensures { result ≡ conceals sheet.now viewer self.now }
    {
        if viewer == Some(self.seat) {
            return false;
        }
        self.act.is_redacted(sheet)
    }
}
