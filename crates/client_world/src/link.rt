//! Links.

ghost use Rattle.std.specs.Prelude.{◌≡◌, ◌∷◌, ◌++◌, [], OnOk, IfSome, IfNone};

use game_sheet::NoMemory;
use std::alloc::Global;
use std::collections::VecDeque;
use std::marker::Model;

/// Lines on their way, first in, first out. Contracts see the lines, the oldest first.
pub struct Link {
    waiting: VecDeque<Vec<u8>>,
}

impl Drop for Link {
    fn drop(self) {
        let Link { waiting } = self;
        drop(waiting);
    }
}

impl Model for Link {
    ghost use Rattle.std.specs.Prelude.{List, ℕ, map};

    ghost Value = { List (List ℕ) };

    ghost view = { λ link. map (λ line. line.items) link.waiting.items };
}

impl Link {
    /// A link without lines. It takes no memory.
    pub(crate) fn new(alloc: Global) -> Self
        ensures { result ≡ [] }
    {
        Link {
            waiting: VecDeque::new(alloc),
        }
    }

    /// One line more.
    pub(crate) fn push(&mut self, line: Vec<u8>) -> Result<(), NoMemory>
        ensures { OnOk result (self.new ≡ self.old ++ line.items ∷ []) }
    {
        self.waiting.push_back(line)?;
        Ok(())
    }

    /// Takes the oldest line off. It takes no memory.
    pub(crate) fn pop(&mut self) -> Option<Vec<u8>>
        ensures line { IfSome result (λ line. self.old ≡ line.items ∷ self.new) }
        ensures none { IfNone result ((self.old ≡ []) × (self.new ≡ [])) }
    {
        self.waiting.pop_front()
    }

    /// Loses all lines. It takes no memory.
    pub(crate) fn clear(&mut self)
        ensures { self.new ≡ [] }
    {
        self.waiting.clear();
    }
}
