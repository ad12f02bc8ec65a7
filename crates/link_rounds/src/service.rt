//! What serves a link, turn by turn.

ghost use Rattle.std.specs.Prelude.{◌≡◌, ◌≤◌, IsSome, is_some};

use board_links::{Link, SessionEnd};
use std::sync::Wait;

/// What a turn means for others: where its session listens now, the rooms that it changed, one bit each, and whether its link may have more
/// for it already. It says when turns are due and nothing else, so no clause speaks of it.
#[derive(Clone, Copy)]
pub struct Stir {
    /// The room in which the session listens.
    pub at: Option<u8>,
    /// The rooms that were changed.
    pub changed: u64,
    /// Whether there may be more to be received.
    pub more: bool,
}

/// What serves links, one after another, each turn by turn.
pub trait Service: Drop {
    ghost use Rattle.std.specs.Prelude.{ℕ, List, Option};
    ghost use Rattle.board_links.specs.Pieces.{told_bytes};
    ghost use Rattle.board_links.specs.declared.link.Came.{Came};
    ghost use Rattle.board_links.specs.declared.link.SessionEnd.{SessionEnd};
    ghost use Rattle.link_rounds.specs.Ends.{ByeSent, ShowsEnd};
    ghost use Rattle.link_rounds.specs.Turns.{told_answers};

    /// What services share.
    type Hall;

    /// What is shown where each session ended.
    type Witness: Drop;

    /// Whether a service is one of this hall, and stands between two turns.
    ghost fits: { Self.Hall → Self → Type 0 };

    /// Whether it has no session.
    ghost rests: { Self → Type 0 };

    /// What tells a service from others of its hall: its turns and its leaving keep it.
    ghost number: { Self → ℕ } = { λ _. 0 };

    /// What a turn does over a link that tells its answers and its bytes: with those before it, how it ended the session if it did, and those
    /// after it.
    ghost turn: { Self → List Came → List ℕ → Option SessionEnd → Self → Option (List Came) → Option (List ℕ) → Type 0 };

    /// What it does where its session has ended.
    ghost leave: { Self → Self → Type 0 };

    /// Whether a witness is one to which services of this kind can be shown.
    ghost attends: { Self.Witness → Type 0 };

    /// Whether it was shown that a service stood so.
    ghost knows: { Self.Witness → Self → Type 0 };

    /// One turn. Some where it ended the session.
    fn turn<L: Link, R: Wait>(
        &mut self,
        rt: &R,
        hall: &Self::Hall,
        link: &mut L,
    ) -> Option<SessionEnd>
        requires fits { fits hall.now self.old }
        ensures fits { fits hall.now self.new }
        ensures never_falls { L.faults link.old ≤ L.faults link.new }
        ensures shows { ShowsEnd (L.faults link.old) (L.faults link.new) (L.stage link.new) result }
        ensures bye { ByeSent result (L.sent link.new) }
        ensures tells_answers { is_some (L.answers link.new) ≡ is_some (L.answers link.old) }
        ensures tells_sent { is_some (L.sent link.new) ≡ is_some (L.sent link.old) }
        ensures is_bot { L.is_bot link.new ≡ L.is_bot link.old }
        ensures number { number self.new ≡ number self.old }
        ensures turn { IsSome (L.answers link.old) → IsSome (L.sent link.old)
            → turn self.old (told_answers (L.answers link.old)) (told_bytes (L.sent link.old)) result self.new (L.answers link.new) (L.sent link.new) };

    /// What the last turn means for others.
    fn stir(&self) -> Stir;

    /// Leaves what the session that has ended had begun.
    fn leave<R: Wait>(&mut self, rt: &R, hall: &Self::Hall)
        requires fits { fits hall.now self.old }
        ensures fits { fits hall.now self.new }
        ensures rests { rests self.new }
        ensures number { number self.new ≡ number self.old }
        ensures leave { leave self.old self.new };

    /// Shows a witness where the service stands, which has no session.
    fn show(&mut self, hall: &Self::Hall, witness: &mut Self::Witness)
        requires fits { fits hall.now self.old }
        requires attends { attends witness.old }
        ensures same { self.new ≡ self.old }
        ensures attends { attends witness.new }
        ensures knows { knows witness.new self.new }
        ensures keeps { (s : Self) → knows witness.old s → knows witness.new s };
}
