//! The tree of a code text.

use crate::called::{Builtin, Change, EventWord, Gathering};
use crate::token::{Span, Word};

/// A node, by its place in the tree.
pub type Id = usize;

/// Some nodes in order, by their places in the tree's list of children.
#[derive(Clone, Copy)]
pub struct Many {
    /// Where they begin.
    pub from: usize,
    /// Where they end.
    pub past: usize,
}

/// What joins two operands.
#[derive(Clone, Copy, PartialEq, Eq)]
pub enum Operator {
    Or,
    And,
    Equal,
    Differs,
    Less,
    AtMost,
    Greater,
    AtLeast,
    Plus,
    Minus,
    Times,
    Over,
    Rest,
}

/// What a node is.
#[derive(Clone, Copy)]
pub enum Shape {
    // values
    Number(i32),
    /// A text, without its quotes.
    Text(Span),
    Null,
    True,
    False,
    /// `seat` and what the context has.
    Word(Word),
    /// An argument, a local, a constant, or a slot of `common` or `work`.
    Name(Span),
    /// The play order.
    Order,
    /// `me.NAME`
    Me(Span),
    /// `secret.NAME`
    Secret(Span),
    /// `players[e].NAME`
    Players(Id, Span),
    /// `list[e]`
    Index(Id, Id),
    /// `grid[row, column]`
    Cell(Id, Id, Id),
    Negate(Id),
    Not(Id),
    /// Operands in a row: the first, and then each as `Next`.
    Row(Many),
    Next(Operator, Id),
    /// `c ? a : b`
    Choose(Id, Id, Id),
    /// Lets, each as `Bind`, and what they stand before.
    Body(Many, Id),
    Bind(Span, Id),
    /// `any(.. : ..)` and the like: binders, and what is asked of each round.
    Round(Gathering, Many, Id),
    /// `NAME in a..b`; whether b is the last one, or past it.
    Within(Span, Id, Id, bool),
    /// `NAME in LIST`
    Among(Span, Id),
    /// `len(..)` and the like.
    Built(Builtin, Many),
    /// A call of named code.
    Call(Span, Many),
    // statements
    /// `{ .. }`
    Block(Many),
    /// `let NAME = e;`
    Let(Span, Id),
    /// `let NAME = die(e);`
    LetDie(Span, Id),
    /// `var NAME = e;`
    Var(Span, Id),
    /// `var NAME: SLOT;`
    VarSlot(Span, Id),
    /// `PLACE = e;`
    Put(Id, Id),
    /// `PLACE = die(e);`
    PutDie(Id, Id),
    /// `PLACE += e;`
    Add(Id, Id),
    /// `PLACE -= e;`
    Take(Id, Id),
    /// A condition, a block, and what stands behind `else`, if there is any.
    If(Id, Id, Option<Id>),
    For(Id, Id),
    /// `push(..)` and the like.
    Change(Change, Many),
    /// `endTurn(..)` and the like.
    Event(EventWord, Many),
    // types and heads
    /// A type, and the start behind it.
    Slot(Id, Option<Id>),
    /// `a..b`; whether b is the last one, or past it.
    Range(Id, Id, bool),
    Seat,
    AnyText,
    /// `ITEM?`
    Nullable(Id),
    /// `[ITEM; COUNT]`
    List(Id, Id),
    /// `[ITEM; ..COUNT]`
    AtMost(Id, Id),
    /// `[ITEM; ROWS by COLUMNS]`
    Grid(Id, Id, Id),
    /// `[ITEM; seats]`
    Seats(Id),
    /// `[ITEM; seats by COUNT]`
    SeatsBy(Id, Id),
    /// `[ITEM; ..seats]`
    AtMostSeats(Id),
    /// `(a, b) => ..`: the parameters, each as `Name`, and what it is; none if only the head was read.
    Code(Many, Option<Id>),
    /// `NAME: RANGE`
    Argument(Span, Id),
    /// An argument with what is offered.
    Offer(Id, Many),
    /// Arguments in a list.
    InList(Many, Id),
}

/// A node with its place in the text.
#[derive(Clone, Copy)]
pub struct Node {
    pub shape: Shape,
    /// The byte where it begins; of operators, indices and calls where these stand.
    pub at: usize,
}

/// A tree: nodes, each behind those that it is made of.
#[derive(Drop)]
pub struct Tree {
    pub nodes: Vec<Node>,
    pub children: Vec<Id>,
    /// The last one, of which all others are part.
    pub root: Id,
}

impl Tree {
    /// A node, if there is one.
    pub fn node(&self, id: Id) -> Option<Node> {
        self.nodes.get(id).copied()
    }

    /// The nodes of a list of children; none of a list that isn't there.
    pub fn many(&self, many: Many) -> &[Id] {
        self.children.get(many.from..many.past).unwrap_or(&[])
    }
}
