//! A text of code with its tree.

use game_syntax::{Id, Many, Node, Shape, Span, Tree};

/// A text of code with its tree.
#[derive(Clone, Copy)]
pub(crate) struct CodeText<'t> {
    pub(crate) text: &'t str,
    pub(crate) tree: &'t Tree,
    /// Which named code it is of; none of the piece's own.
    pub(crate) code: Option<usize>,
}

impl CodeText<'_> {
    /// A node. Of a tree that was read each is there.
    pub(crate) fn node(&self, id: Id) -> Node {
        match self.tree.node(id) {
            Some(node) => node,
            None => Node {
                shape: Shape::Null,
                at: 0,
            },
        }
    }

    /// Where a node stands.
    pub(crate) fn at(&self, id: Id) -> usize {
        self.node(id).at
    }

    /// One of some children.
    pub(crate) fn child(&self, of: Many, place: usize) -> Option<Id> {
        self.tree.many(of).get(place).copied()
    }

    /// How many children there are.
    pub(crate) fn count(&self, of: Many) -> usize {
        self.tree.many(of).len()
    }

    /// The bytes of a name or a text.
    pub(crate) fn letters(&self, span: Span) -> &[u8] {
        let text = self.text.as_bytes();
        match text.get(span.from..span.past) {
            Some(letters) => letters,
            None => &[],
        }
    }
}
