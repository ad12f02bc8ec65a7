//! Links whose sockets a poll can watch.

ghost use Rattle.std.specs.Prelude.{◌≡◌};

use crate::alarms::Looks;
use board_links::Link;
use mio::Registry;

/// A link that a poll can watch.
pub trait Watched: Link {
    /// Has a poll tell, under this number, when the link may have something or its peer may take something. Where it can't be told, the link's
    /// next receive fails.
    fn watch(&mut self, registry: &Registry, number: u32)
        ensures faults { Self.Link.faults self.new ≡ Self.Link.faults self.old }
        ensures stage { Self.Link.stage self.new ≡ Self.Link.stage self.old }
        ensures limit { Self.Link.limit self.new ≡ Self.Link.limit self.old }
        ensures answers { Self.Link.answers self.new ≡ Self.Link.answers self.old }
        ensures sent { Self.Link.sent self.new ≡ Self.Link.sent self.old }
        ensures finished { Self.Link.finished self.new ≡ Self.Link.finished self.old }
        ensures is_bot { Self.Link.is_bot self.new ≡ Self.Link.is_bot self.old };

    /// After how many seconds it wants a turn though nothing came.
    fn looks(&self) -> Looks;
}
