//! A door: where links come in, and where they go back when their sessions have ended.

ghost use Rattle.std.specs.Prelude.{◌≡◌, ◌+◌, ◌≤◌, ◌<◌, ◌||◌, IsSome, unwrap_or};

use crate::link::{Link, SessionEnd};
use std::sync::Wait;

/// What a door answers.
#[derive(Drop)]
pub enum Visit<L> {
    /// A link.
    Came(L),
    /// No link yet. The door may have one later.
    Quiet,
    /// There will be no more links.
    Shut,
    /// The door failed, and its count of faults rose.
    Failed,
    /// There was no memory.
    NoMemory,
}

/// Where links come in.
pub trait Door: Drop {
    ghost use Rattle.std.specs.Prelude.{ℕ, List, Option, Some, Bool, false};
    ghost use Rattle.board_links.specs.Doors.{gives, gives_bot, gives_other, one_bot, one_other, shuts, sort_of, with_returned, IsOut, VisitRaises, ComesFresh, Lets, Returned, Shows};

    /// What comes in.
    type L: Link;

    /// How many links it has given.
    ghost given: { Self → ℕ };

    /// Whether its links may be bots'. A link of a door without bots' links counts as no bot's, whatever it tells.
    ghost has_bots: { Bool } = { false };

    /// How many links are out that count as no bot's.
    ghost out: { Self → ℕ };

    /// How many bots' links are out.
    ghost bots_out: { Self → ℕ } = { λ _. 0 };

    /// Whether it has answered `Shut`.
    ghost shut: { Self → Bool };

    /// How many calls of `accept` have failed.
    ghost faults: { Self → ℕ };

    /// How many links are left, where the door tells it.
    ghost left: { Self → Option ℕ };

    /// The links that came back, in order, where the door tells them.
    ghost returned: { Self → Option (List Returned) };

    /// The next link. It may wait.
    fn accept<R: Wait>(&mut self, rt: &R) -> Visit<Self::L>
        ensures given { given self.new ≡ given self.old + gives result }
        ensures out { out self.new ≡ out self.old + gives_other has_bots Self.L.Link.is_bot result }
        ensures bots_out { bots_out self.new ≡ bots_out self.old + gives_bot has_bots Self.L.Link.is_bot result }
        ensures shut { shut self.new ≡ (shut self.old || shuts result) }
        ensures never_falls { faults self.old ≤ faults self.new }
        ensures raises { VisitRaises result (faults self.old) (faults self.new) }
        ensures fresh { ComesFresh Self.L.Link.faults Self.L.Link.finished Self.L.Link.answers Self.L.Link.sent result }
        ensures returned { returned self.new ≡ returned self.old }
        ensures told { IsSome (left self.old) → Lets result (unwrap_or (left self.old) 0) (left self.new) };

    /// Whether a link counts as a bot's.
    fn is_bot(&self, link: &Self::L) -> bool
        ensures { result ≡ sort_of has_bots Self.L.Link.is_bot link.now };

    /// Takes back a link whose session ended so, and which was finished with that end.
    fn back<R: Wait>(&mut self, rt: &R, link: Self::L, end: SessionEnd)
        requires out { IsOut (sort_of has_bots Self.L.Link.is_bot link) (bots_out self.old) (out self.old) }
        requires shows { Shows end (Self.L.Link.stage link) (Self.L.Link.faults link) (Self.L.Link.sent link) }
        requires finished { Self.L.Link.finished link ≡ Some end }
        ensures given { given self.new ≡ given self.old }
        ensures out { out self.new + one_other (sort_of has_bots Self.L.Link.is_bot link) ≡ out self.old }
        ensures bots_out { bots_out self.new + one_bot (sort_of has_bots Self.L.Link.is_bot link) ≡ bots_out self.old }
        ensures shut { shut self.new ≡ shut self.old }
        ensures faults { faults self.new ≡ faults self.old }
        ensures left { left self.new ≡ left self.old }
        ensures returned { returned self.new ≡ with_returned end (Self.L.Link.answers link) (Self.L.Link.sent link) (returned self.old) };
}
