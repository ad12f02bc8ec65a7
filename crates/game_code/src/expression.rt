//! Expressions.

use slot_values::{Gather, Operator, Value};

/// A word of the match.
#[derive(Clone, Copy)]
pub enum Word {
    /// The seat that moves; null where none does.
    Seat,
    /// How many seats the match has.
    Seats,
    /// The seat whose turn it is.
    Current,
    /// The number of the turn.
    Turn,
    /// The counted moves of the turn.
    Moves,
    /// The place in the play order.
    Place,
    /// The phase, by its place in the sheet; null outside of one.
    Phase,
}

/// A list that code names. One that isn't there is empty.
#[derive(Clone, Copy)]
pub enum ItemList {
    /// A slot that all see.
    Common(u8),
    /// A slot of a seat, which stands beside it as an expression. Of the other lists that expression says nothing.
    Player(u8),
    /// A slot that nobody sees.
    Secret(u8),
    /// A slot of work.
    Work(u8),
    /// A row of constants, which nothing changes.
    Constant(u16),
    /// The play order, which nothing changes.
    Order,
}

/// An expression. It changes nothing and always has a value. A truth is 1 or 0, and a value is true where it is a number
/// other than 0.
#[derive(Drop)]
pub enum Expression {
    /// The value that stands there.
    Literal(Value),
    /// A local value, counted from the newest, 0.
    Local(u8),
    /// An argument of the move, from 0.
    Argument(u8),
    /// A word of the match.
    Word(Word),
    /// The item of a list, of the seat, at a place. A slot of one value is its item 0.
    Item(ItemList, Box<Expression>, Box<Expression>),
    /// The place of a row and a column in a grid of so many columns; null where there is no such row or column.
    Cell(Box<Expression>, Box<Expression>, u16),
    /// How many items a list has, of the seat.
    Length(ItemList, Box<Expression>),
    /// How many bytes a text has.
    Size(Box<Expression>),
    /// 1 where the value isn't true, and otherwise 0.
    Not(Box<Expression>),
    /// What an operator makes of two values.
    Operate(Operator, Box<Expression>, Box<Expression>),
    /// The second where the first is true, and otherwise the third.
    If(Box<Expression>, Box<Expression>, Box<Expression>),
    /// The second, with the value of the first as the newest local.
    Let(Box<Expression>, Box<Expression>),
    /// What is gathered over a span: at most so many rounds, from the first expression on, to before the second; in the third
    /// the number is the newest local.
    Gather(Gather, u32, Box<Expression>, Box<Expression>, Box<Expression>),
}

/// The local values, the newest first.
#[derive(Clone, Copy)]
pub enum Locals<'a> {
    /// No local value.
    Empty,
    /// A newest one, before the older ones.
    With(Value, &'a Locals<'a>),
}
