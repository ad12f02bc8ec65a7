//! A link: lines of bytes from a peer, and bytes to it.

ghost use Rattle.std.specs.Prelude.{◌≡◌, ◌≤◌, IsSome, is_some, true};

use game_sheet::{Bye, Bytes, MatchName, Seat};
use std::sync::Wait;

/// What a link answers where a line is asked for.
#[derive(Drop)]
pub enum Came {
    /// A line, without its newline.
    Line(Bytes),
    /// Nothing was ready.
    Quiet,
    /// The peer has ended.
    Ended,
    /// A line passed the link's limit.
    TooLong,
    /// The link failed, and its count of faults rose.
    Failed,
    /// There was no memory.
    NoMemory,
}

/// What a link answers where bytes were sent.
#[derive(Clone, Copy, PartialEq, Eq, Debug)]
pub enum Out {
    /// All the bytes were taken.
    Done,
    /// The link failed, and its count of faults rose. A first part of the bytes may have been taken.
    Failed,
    /// There was no memory. A first part of the bytes may have been taken.
    NoMemory,
}

/// Whether a link's last receive told its end.
#[derive(Clone, Copy)]
pub enum Stage {
    /// It told no end.
    Open,
    /// It answered `Ended`.
    Ended,
    /// It answered `TooLong`.
    TooLong,
}

/// How the session on a link ended.
#[derive(Clone, Copy, PartialEq, Eq, Debug)]
pub enum SessionEnd {
    /// The peer ended.
    Ended,
    /// The link failed.
    LinkFault,
    /// A line passed the link's limit.
    TooLong,
    /// The stream ended, and its bye line was sent.
    Bye(Bye),
    /// There was no memory.
    NoMemory,
}

/// A link to one peer.
pub trait Link: Drop {
    ghost use Rattle.std.specs.Prelude.{ℕ, Bool, false, List, Option, Some, None};
    ghost use Rattle.game_sheet.specs.MatchName.{Name};
    ghost use Rattle.board_links.specs.Answers.{AreLines, CameRaises, IsWithin, OutRaises, Sends, answers_after, stage_after};
    ghost use Rattle.board_links.specs.Pieces.{told_bytes};
    ghost use Rattle.board_links.specs.declared.link.Came.{Came};
    ghost use Rattle.board_links.specs.declared.link.SessionEnd.{SessionEnd};
    ghost use Rattle.board_links.specs.declared.link.Stage.{Stage};

    /// What its receives have answered, in order, where the link tells it. A receive that ran out of memory isn't told.
    ghost answers: { Self → Option (List Came) };

    /// The bytes that were sent, where the link tells them.
    ghost sent: { Self → Option (List ℕ) };

    /// How many of its calls have failed.
    ghost faults: { Self → ℕ };

    /// What its last receive told of its end.
    ghost stage: { Self → Stage };

    /// How many bytes a line may have.
    ghost limit: { Self → ℕ };

    /// Whether it keeps nothing back of what was sent.
    ghost clear: { Self → Bool };

    /// How its session ended, once the link was told so by `finish`.
    ghost finished: { Self → Option SessionEnd };

    /// Whether it is a bot's. No call changes it.
    ghost is_bot: { Self → Bool } = { λ _. false };

    /// The match and the seat of its bot, once it has one.
    ghost bot_seat: { Self → Option (Name × ℕ) } = { λ _. None };

    /// Whether its bot was asked to leave its seat.
    ghost asked_out: { Self → Bool } = { λ _. false };

    /// How many bytes a line may have.
    fn limit(&self) -> u32
        ensures { result ≡ limit self.now };

    /// The next line. It may wait.
    fn receive<R: Wait>(&mut self, rt: &R) -> Came
        ensures never_falls { faults self.old ≤ faults self.new }
        ensures raises { CameRaises result (faults self.old) (faults self.new) }
        ensures stage { stage self.new ≡ stage_after result (stage self.old) }
        ensures within { IsWithin (limit self.old) result }
        ensures limit { limit self.new ≡ limit self.old }
        ensures told { IsSome (answers self.old) → answers self.new ≡ answers_after result (answers self.old) }
        ensures tells { is_some (answers self.new) ≡ is_some (answers self.old) }
        ensures sent { sent self.new ≡ sent self.old }
        ensures finished { finished self.new ≡ finished self.old }
        ensures is_bot { is_bot self.new ≡ is_bot self.old }
        ensures bot_seat { IsSome (bot_seat self.old) → bot_seat self.new ≡ bot_seat self.old }
        ensures asked_out { asked_out self.new ≡ asked_out self.old };

    /// Sends whole lines. It may wait, and it may keep bytes back, which `flush` hands on.
    fn send<R: Wait>(&mut self, rt: &R, bytes: &[u8]) -> Out
        requires lines { AreLines bytes.now }
        ensures never_falls { faults self.old ≤ faults self.new }
        ensures raises { OutRaises result (faults self.old) (faults self.new) }
        ensures stage { stage self.new ≡ stage self.old }
        ensures limit { limit self.new ≡ limit self.old }
        ensures answers { answers self.new ≡ answers self.old }
        ensures told { IsSome (sent self.old) → Sends result bytes.now (told_bytes (sent self.old)) (sent self.new) }
        ensures tells { is_some (sent self.new) ≡ is_some (sent self.old) }
        ensures finished { finished self.new ≡ finished self.old }
        ensures is_bot { is_bot self.new ≡ is_bot self.old }
        ensures bot_seat { IsSome (bot_seat self.old) → bot_seat self.new ≡ bot_seat self.old }
        ensures asked_out { asked_out self.new ≡ asked_out self.old };

    /// Hands on to the peer what sends kept back, as far as it takes it now, and says whether nothing is kept back any more. It doesn't
    /// wait. If it fails, nothing is kept back, and the next receive fails.
    fn flush(&mut self) -> bool
        ensures clear { result ≡ clear self.new }
        ensures faults { faults self.new ≡ faults self.old }
        ensures stage { stage self.new ≡ stage self.old }
        ensures limit { limit self.new ≡ limit self.old }
        ensures answers { answers self.new ≡ answers self.old }
        ensures sent { sent self.new ≡ sent self.old }
        ensures finished { finished self.new ≡ finished self.old }
        ensures is_bot { is_bot self.new ≡ is_bot self.old }
        ensures bot_seat { bot_seat self.new ≡ bot_seat self.old }
        ensures asked_out { asked_out self.new ≡ asked_out self.old };

    /// Tells the link how its session ended, so that it can let its peer go at once.
    fn finish(&mut self, end: SessionEnd)
        ensures finished { finished self.new ≡ Some end }
        ensures faults { faults self.new ≡ faults self.old }
        ensures stage { stage self.new ≡ stage self.old }
        ensures limit { limit self.new ≡ limit self.old }
        ensures answers { answers self.new ≡ answers self.old }
        ensures sent { sent self.new ≡ sent self.old }
        ensures is_bot { is_bot self.new ≡ is_bot self.old }
        ensures bot_seat { bot_seat self.new ≡ bot_seat self.old }
        ensures asked_out { asked_out self.new ≡ asked_out self.old };

    /// The match and the seat of its bot; none if it is no bot's, or its bot hasn't joined yet.
    fn bot_seat(&self) -> Option<(MatchName, Seat)>
        ensures { result ≡ bot_seat self.now };

    /// Asks the link's bot to leave its seat. A link without a seated bot may do nothing.
    fn ask_out(&mut self)
        ensures asked { IsSome (bot_seat self.old) → asked_out self.new ≡ true }
        ensures faults { faults self.new ≡ faults self.old }
        ensures stage { stage self.new ≡ stage self.old }
        ensures limit { limit self.new ≡ limit self.old }
        ensures answers { answers self.new ≡ answers self.old }
        ensures sent { sent self.new ≡ sent self.old }
        ensures finished { finished self.new ≡ finished self.old }
        ensures is_bot { is_bot self.new ≡ is_bot self.old }
        ensures bot_seat { bot_seat self.new ≡ bot_seat self.old };
}
