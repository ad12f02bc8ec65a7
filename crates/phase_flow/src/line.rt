//! A line in which things wait their turn.

ghost use Rattle.std.specs.Prelude.{◌≡◌, ◌∷◌, ◌++◌, [], OnOk, IfSome, IfNone};

use game_sheet::NoMemory;
use std::alloc::Global;
use std::collections::VecDeque;
use std::marker::Model;

/// What waits, first in, first out. Contracts see its list.
pub(crate) struct Line<T> {
    items: VecDeque<T>,
}

impl<T: Drop> Drop for Line<T> {
    fn drop(self) {
        let Line { items } = self;
        drop(items);
    }
}

impl<T> Model for Line<T> {
    ghost use Rattle.std.specs.Prelude.{List as Items};

    ghost Value = { Items T };

    ghost view = { λ l. l.items.items };
}

impl<T: Drop> Line<T> {
    /// An empty line.
    pub(crate) fn new(alloc: Global) -> Self
        ensures { result ≡ [] }
    {
        Line {
            items: VecDeque::new(alloc),
        }
    }

    /// Adds an item at the end.
    pub(crate) fn push(&mut self, item: T) -> Result<(), NoMemory>
        ensures { OnOk result (self.new ≡ self.old ++ item ∷ []) }
    {
        self.items.push_back(item)?;
        Ok(())
    }

    /// Puts an item in front of all others.
    pub(crate) fn put_in_front(&mut self, item: T) -> Result<(), NoMemory>
        ensures { OnOk result (self.new ≡ item ∷ self.old) }
    {
        self.items.push_front(item)?;
        Ok(())
    }

    /// Takes the first item out.
    pub(crate) fn take(&mut self) -> Option<T>
        ensures found { IfSome result (λ item. self.old ≡ item ∷ self.new) }
        ensures none { IfNone result (self.old ≡ []) }
    {
        self.items.pop_front()
    }

    /// Drops all items.
    pub(crate) fn clear(&mut self)
        ensures { self.new ≡ [] }
    {
        self.items.clear();
    }
}
