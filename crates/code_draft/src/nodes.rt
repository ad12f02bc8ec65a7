//! Nodes in memory of their own.

use game_code::{Expression, ItemList};
use game_sheet::NoMemory;
use slot_values::{Gather, Operator};
use std::alloc::Global;

/// Two expressions in memory of their own.
#[derive(Drop)]
struct Pair {
    first: Box<Expression>,
    second: Box<Expression>,
}

fn boxed(alloc: Global, node: Expression) -> Result<Box<Expression>, NoMemory> {
    match Box::new(alloc, node) {
        Ok(node) => Ok(node),
        Err(failed) => {
            drop(failed);
            Err(NoMemory)
        }
    }
}

fn pair_of(alloc: Global, first: Expression, second: Expression) -> Result<Pair, NoMemory> {
    match boxed(alloc, first) {
        Ok(first) => paired(alloc, first, second),
        Err(NoMemory) => {
            drop(second);
            Err(NoMemory)
        }
    }
}

fn paired(alloc: Global, first: Box<Expression>, second: Expression) -> Result<Pair, NoMemory> {
    match boxed(alloc, second) {
        Ok(second) => Ok(Pair { first, second }),
        Err(NoMemory) => {
            drop(first);
            Err(NoMemory)
        }
    }
}

pub(crate) fn item(
    alloc: Global,
    list: ItemList,
    seat: Expression,
    at: Expression,
) -> Result<Expression, NoMemory> {
    match pair_of(alloc, seat, at) {
        Ok(Pair { first, second }) => Ok(Expression::Item(list, first, second)),
        Err(NoMemory) => Err(NoMemory),
    }
}

pub(crate) fn cell(
    alloc: Global,
    row: Expression,
    column: Expression,
    columns: u16,
) -> Result<Expression, NoMemory> {
    match pair_of(alloc, row, column) {
        Ok(Pair { first, second }) => Ok(Expression::Cell(first, second, columns)),
        Err(NoMemory) => Err(NoMemory),
    }
}

pub(crate) fn length(
    alloc: Global,
    list: ItemList,
    seat: Expression,
) -> Result<Expression, NoMemory> {
    match boxed(alloc, seat) {
        Ok(seat) => Ok(Expression::Length(list, seat)),
        Err(NoMemory) => Err(NoMemory),
    }
}

pub(crate) fn size(alloc: Global, text: Expression) -> Result<Expression, NoMemory> {
    match boxed(alloc, text) {
        Ok(text) => Ok(Expression::Size(text)),
        Err(NoMemory) => Err(NoMemory),
    }
}

pub(crate) fn not(alloc: Global, test: Expression) -> Result<Expression, NoMemory> {
    match boxed(alloc, test) {
        Ok(test) => Ok(Expression::Not(test)),
        Err(NoMemory) => Err(NoMemory),
    }
}

pub(crate) fn operate(
    alloc: Global,
    operator: Operator,
    a: Expression,
    b: Expression,
) -> Result<Expression, NoMemory> {
    match pair_of(alloc, a, b) {
        Ok(Pair { first, second }) => Ok(Expression::Operate(operator, first, second)),
        Err(NoMemory) => Err(NoMemory),
    }
}

pub(crate) fn choose(
    alloc: Global,
    test: Expression,
    a: Expression,
    b: Expression,
) -> Result<Expression, NoMemory> {
    match pair_of(alloc, a, b) {
        Ok(Pair { first, second }) => chosen(alloc, test, first, second),
        Err(NoMemory) => {
            drop(test);
            Err(NoMemory)
        }
    }
}

fn chosen(
    alloc: Global,
    test: Expression,
    a: Box<Expression>,
    b: Box<Expression>,
) -> Result<Expression, NoMemory> {
    match boxed(alloc, test) {
        Ok(test) => Ok(Expression::If(test, a, b)),
        Err(NoMemory) => {
            drop(a);
            drop(b);
            Err(NoMemory)
        }
    }
}

pub(crate) fn bind(
    alloc: Global,
    value: Expression,
    body: Expression,
) -> Result<Expression, NoMemory> {
    match pair_of(alloc, value, body) {
        Ok(Pair { first, second }) => Ok(Expression::Let(first, second)),
        Err(NoMemory) => Err(NoMemory),
    }
}

/// What is gathered, and in how many rounds at most.
#[derive(Clone, Copy)]
pub(crate) struct Rounds {
    pub(crate) gather: Gather,
    pub(crate) most: u32,
}

pub(crate) fn gather(
    alloc: Global,
    rounds: Rounds,
    from: Expression,
    past: Expression,
    body: Expression,
) -> Result<Expression, NoMemory> {
    match pair_of(alloc, from, past) {
        Ok(Pair { first, second }) => gathered(alloc, rounds, first, second, body),
        Err(NoMemory) => {
            drop(body);
            Err(NoMemory)
        }
    }
}

fn gathered(
    alloc: Global,
    rounds: Rounds,
    from: Box<Expression>,
    past: Box<Expression>,
    body: Expression,
) -> Result<Expression, NoMemory> {
    let Rounds { gather, most } = rounds;
    match boxed(alloc, body) {
        Ok(body) => Ok(Expression::Gather(gather, most, from, past, body)),
        Err(NoMemory) => {
            drop(from);
            drop(past);
            Err(NoMemory)
        }
    }
}
