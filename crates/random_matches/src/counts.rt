//! What random matches made of the moves of a sheet.

ghost use Rattle.std.specs.Prelude.{◌≡◌, ◌+◌, ◌<◌, ◌≤◌};

use game_sheet::{Args, GameRule, MoveId};

/// How often a move was offered and made.
#[derive(Clone, Copy, PartialEq, Eq, Debug)]
pub struct MoveCount {
    /// How often it was offered, with any arguments: once for each seat and step.
    pub offered: u64,
    /// How often it was made.
    pub made: u64,
}

/// How often an offered move was refused, by the rule that it broke.
#[derive(Clone, Copy, PartialEq, Eq, Debug)]
pub struct Refusals {
    /// The game doesn't allow it.
    pub invalid: u64,
    /// A turn or stage that ends by it had too few moves.
    pub early: u64,
    /// It asks for more words than an action has.
    pub words: u64,
    /// It begins more tasks or queues more events than there may be.
    pub events: u64,
}

/// What the matches made of the moves. A count stays at its greatest.
#[derive(Clone, Copy)]
pub struct Counts {
    /// The moves by their places in the sheet, of which there are at most 64.
    pub moves: [MoveCount; 64],
    /// How often an offered move was refused.
    pub refusals: Refusals,
    /// How often a seat ended its turn.
    pub ended_turns: u64,
}

impl Counts {
    /// Nothing yet.
    pub fn new() -> Counts {
        Counts {
            moves: [MoveCount {
                offered: 0,
                made: 0,
            }; 64],
            refusals: Refusals {
                invalid: 0,
                early: 0,
                words: 0,
                events: 0,
            },
            ended_turns: 0,
        }
    }

    /// Counts the moves of some offers, each once.
    ///
    /// Offers of one move stand side by side.
    pub(crate) fn offer(&mut self, offers: &[(MoveId, Args)]) {
        let mut last = None;
        for offer in offers {
            if last != Some(offer.0) {
                self.offer_once(offer.0);
            }
            last = Some(offer.0);
        }
    }

    fn offer_once(&mut self, id: MoveId) {
        let place = id.place() as usize;
        if place < 64 {
            let count = self.moves[place];
            self.moves[place] = MoveCount {
                offered: count.offered.saturating_add(1),
                made: count.made,
            };
        }
    }

    /// Counts a move that was made.
    pub(crate) fn make(&mut self, id: MoveId) {
        let place = id.place() as usize;
        if place < 64 {
            let count = self.moves[place];
            self.moves[place] = MoveCount {
                offered: count.offered,
                made: count.made.saturating_add(1),
            };
        }
    }

    /// Counts a turn that a seat ended.
    pub(crate) fn end_turn(&mut self) {
        self.ended_turns = self.ended_turns.saturating_add(1);
    }

    /// Counts an offered move that was refused.
    pub(crate) fn refuse(&mut self, rule: GameRule) {
        let refused = &mut self.refusals;
        match rule {
            GameRule::TooEarly => refused.early = refused.early.saturating_add(1),
            GameRule::TooManyWords => refused.words = refused.words.saturating_add(1),
            GameRule::TooManyEvents => refused.events = refused.events.saturating_add(1),
            _ => refused.invalid = refused.invalid.saturating_add(1),
        }
    }
}
