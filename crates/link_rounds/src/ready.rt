//! Who is ready: which links may have something for their sessions.

ghost use Rattle.std.specs.Prelude.{◌≡◌, ◌++◌, option_map};

use crate::service::Stir;
use board_links::Link;
use std::sync::Wait;

/// Tells whose turn it is. It decides when a turn is taken and never what a turn does: no clause ties its numbers to what a link has, and all
/// that is proved of a link's session holds whatever it answers. That a link which has something is named soon is left to tests.
pub trait Ready<L: Link>: Drop {
    ghost use Rattle.std.specs.Prelude.{ℕ, List, Option};

    /// All the numbers that it named, in order, where it tells them.
    ghost named: { Self → Option (List ℕ) };

    /// From now on this link is the one of this number. What the link tells stays as it was; where it can't be watched, its next receive
    /// fails.
    fn watch(&mut self, number: u32, link: &mut L)
        ensures named { named self.new ≡ named self.old }
        ensures faults { L.faults link.new ≡ L.faults link.old }
        ensures stage { L.stage link.new ≡ L.stage link.old }
        ensures answers { L.answers link.new ≡ L.answers link.old }
        ensures sent { L.sent link.new ≡ L.sent link.old }
        ensures is_bot { L.is_bot link.new ≡ L.is_bot link.old };

    /// A link that nothing watches, such as a bot's, is the one of this number from now on, and its turn is due. After that it is named where its
    /// turns are noted to have more, and where its room changes.
    fn takes_place(&mut self, _number: u32)
        ensures named { named self.new ≡ named self.old }
    {}

    /// After a turn of this number: where its session listens now, and what the turn changed for others.
    fn note(&mut self, number: u32, stir: Stir)
        ensures named { named self.new ≡ named self.old };

    /// The link of this number keeps bytes back, so that it gets no turn. It is named when it takes some, and from time to time until then.
    fn keeps_back(&mut self, _number: u32)
        ensures named { named self.new ≡ named self.old }
    {}

    /// The link of this number went back to the door.
    fn went_back(&mut self, _number: u32)
        ensures named { named self.new ≡ named self.old }
    {}

    /// Whether the door is to be asked for a link now.
    fn may_come(&mut self) -> bool
        ensures named { named self.new ≡ named self.old }
    {
        true
    }

    /// The door was asked, and had no link.
    fn none_came(&mut self)
        ensures named { named self.new ≡ named self.old }
    {}

    /// The door was asked, and will have no link any more. Other workers who wait have to be told, since they may wait for one.
    fn none_will_come(&mut self)
        ensures named { named self.new ≡ named self.old }
    {}

    /// Waits until some link may be ready, and puts the numbers of those that may in place of the list's. It takes no memory where the list
    /// has room for as many as it watches.
    fn wait<R: Wait>(&mut self, rt: &R, numbers: &mut Vec<u32>)
        ensures named { named self.new ≡ option_map (λ told. told ++ numbers.new.items) (named self.old) };
}
