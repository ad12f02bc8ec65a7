//! Statements with what they cost.

use crate::cost::Cost;
use crate::draft::Draft;
use crate::gathers::Span;
use crate::maker::Maker;
use crate::places::{ListDraft, PlaceDraft};
use game_code::{Edit, Expression, ItemList, Statement, Wish};
use game_sheet::NoMemory;
use std::alloc::Global;

/// A statement with what it costs.
#[derive(Drop)]
pub struct Deed {
    /// The statement.
    pub statement: Statement,
    /// Its steps and its depth.
    pub cost: Cost,
}

impl Deed {
    /// Nothing is done.
    pub fn nothing() -> Deed {
        Deed {
            statement: Statement::Nothing,
            cost: Cost::NOTHING,
        }
    }
}

pub(crate) fn boxed(alloc: Global, node: Statement) -> Result<Box<Statement>, NoMemory> {
    match Box::new(alloc, node) {
        Ok(node) => Ok(node),
        Err(failed) => {
            drop(failed);
            Err(NoMemory)
        }
    }
}

impl Maker {
    /// A statement of this cost, as one node.
    fn deed(&mut self, statement: Statement, cost: Cost) -> Deed {
        self.count(1);
        Deed { statement, cost }
    }

    /// What follows, with a value as the newest local.
    pub fn let_before(&mut self, value: Draft, rest: Deed) -> Deed {
        let cost = value.facts.cost.within().and(rest.cost);
        let Draft {
            expression,
            facts: _,
        } = value;
        let Deed { statement, cost: _ } = rest;
        let made = let_of(self.alloc(), expression, statement);
        let statement = self.done(made);
        self.deed(statement, cost)
    }

    /// What follows, with the face of a die of so many faces as the newest local.
    pub fn roll_before(&mut self, faces: Draft, rest: Deed) -> Deed {
        let cost = faces.facts.cost.within().and(rest.cost);
        let Draft {
            expression,
            facts: _,
        } = faces;
        let Deed { statement, cost: _ } = rest;
        let made = roll_of(self.alloc(), expression, statement);
        let statement = self.done(made);
        self.deed(statement, cost)
    }

    /// The first where a condition holds, and otherwise the second.
    pub fn if_else(&mut self, test: Draft, one: Deed, other: Deed) -> Deed {
        let cost = test.facts.cost.and(one.cost.or(other.cost)).within();
        let Draft {
            expression,
            facts: _,
        } = test;
        let Deed {
            statement: first,
            cost: _,
        } = one;
        let Deed {
            statement: second,
            cost: _,
        } = other;
        let made = if_of(self.alloc(), expression, first, second);
        let statement = self.done(made);
        self.deed(statement, cost)
    }

    /// A statement for each number of a span, which is the newest local in it.
    pub fn for_each(&mut self, span: Span, body: Deed) -> Deed {
        let cost = span.cost(body.cost);
        let Span { from, past, rounds } = span;
        let Draft {
            expression: first,
            facts: _,
        } = from;
        let Draft {
            expression: second,
            facts: _,
        } = past;
        let Deed { statement, cost: _ } = body;
        let made = for_of(self.alloc(), rounds, first, second, statement);
        let statement = self.done(made);
        self.deed(statement, cost)
    }

    /// Puts a value into a place.
    pub fn set(&mut self, place: PlaceDraft, value: Draft) -> Deed {
        let cost = place.facts.cost.and(value.facts.cost).within();
        let PlaceDraft {
            list,
            seat,
            at,
            facts: _,
        } = place;
        let Draft {
            expression,
            facts: _,
        } = value;
        let statement = Statement::Change(list, seat, Edit::Set(at, expression));
        self.deed(statement, cost)
    }

    /// Adds a value at the end of a list.
    pub fn push(&mut self, list: ListDraft, value: Draft) -> Deed {
        let cost = list.cost.and(value.facts.cost).within();
        let Draft {
            expression,
            facts: _,
        } = value;
        self.change(list, Edit::Push(expression), cost)
    }

    /// Puts a value in the place of each item.
    pub fn fill(&mut self, list: ListDraft, value: Draft) -> Deed {
        let cost = list.cost_with_all().and(value.facts.cost);
        let Draft {
            expression,
            facts: _,
        } = value;
        self.change(list, Edit::Fill(expression), cost.within())
    }

    /// Takes the item at a place out.
    pub fn remove(&mut self, list: ListDraft, at: Draft) -> Deed {
        let cost = list.cost_with_all().and(at.facts.cost);
        let Draft {
            expression,
            facts: _,
        } = at;
        self.change(list, Edit::Remove(expression), cost.within())
    }

    /// Takes all items out.
    pub fn clear(&mut self, list: ListDraft) -> Deed {
        let cost = list.cost_with_all();
        self.change(list, Edit::Clear, cost.within())
    }

    /// Shuffles a list.
    pub fn shuffle(&mut self, list: ListDraft) -> Deed {
        let cost = list.cost_with_all();
        let ListDraft {
            list,
            seat,
            cost: _,
            facts,
        } = list;
        let statement = Statement::Shuffle(list, seat, facts.most);
        self.deed(statement, cost.within())
    }

    /// A change of a list.
    fn change(&mut self, list: ListDraft, edit: Edit, cost: Cost) -> Deed {
        let ListDraft {
            list,
            seat,
            cost: _,
            facts: _,
        } = list;
        self.deed(Statement::Change(list, seat, edit), cost)
    }

    /// A slot of work of so many items, or of one value where none are told, begins anew.
    pub fn begin(&mut self, slot: u8, start: Draft, items: u16) -> Deed {
        let cost = start.facts.cost.more(u64::from(items)).within();
        let Draft {
            expression,
            facts: _,
        } = start;
        self.deed(Statement::Begin(slot, expression), cost)
    }

    /// Asks for an event, whose argument has this cost.
    pub fn queue(&mut self, wish: Wish, argument: Cost) -> Deed {
        self.deed(Statement::Queue(wish), argument.within())
    }

    /// Statements as one: named ones, or those of a die.
    pub fn block(&mut self, inside: Deed) -> Deed {
        let Deed { statement, cost } = inside;
        self.deed(statement, cost.within())
    }

    /// Puts the face of a die of so many faces into a place, which was made with one more local in sight.
    pub fn roll_into(&mut self, place: PlaceDraft, faces: Draft, face: Draft) -> Deed {
        let set = self.set(place, face);
        let roll = self.roll_before(faces, set);
        self.block(roll)
    }
}

impl ListDraft {
    /// What naming the list costs, and going over all that it may have.
    fn cost_with_all(&self) -> Cost {
        self.cost.more(u64::from(self.facts.most))
    }

    /// Which list it is.
    pub fn list(&self) -> ItemList {
        self.list
    }
}

fn let_of(alloc: Global, value: Expression, rest: Statement) -> Result<Statement, NoMemory> {
    match boxed(alloc, rest) {
        Ok(rest) => Ok(Statement::Let(value, rest)),
        Err(NoMemory) => {
            drop(value);
            Err(NoMemory)
        }
    }
}

fn roll_of(alloc: Global, faces: Expression, rest: Statement) -> Result<Statement, NoMemory> {
    match boxed(alloc, rest) {
        Ok(rest) => Ok(Statement::Roll(faces, rest)),
        Err(NoMemory) => {
            drop(faces);
            Err(NoMemory)
        }
    }
}

fn if_of(
    alloc: Global,
    test: Expression,
    one: Statement,
    other: Statement,
) -> Result<Statement, NoMemory> {
    match two_of(alloc, one, other) {
        Ok(Two { first, second }) => Ok(Statement::If(test, first, second)),
        Err(NoMemory) => {
            drop(test);
            Err(NoMemory)
        }
    }
}

fn for_of(
    alloc: Global,
    rounds: u32,
    from: Expression,
    past: Expression,
    body: Statement,
) -> Result<Statement, NoMemory> {
    match boxed(alloc, body) {
        Ok(body) => Ok(Statement::For(rounds, from, past, body)),
        Err(NoMemory) => {
            drop(from);
            drop(past);
            Err(NoMemory)
        }
    }
}

/// One statement, and then the other.
pub(crate) fn then_of(
    alloc: Global,
    one: Statement,
    other: Statement,
) -> Result<Statement, NoMemory> {
    match two_of(alloc, one, other) {
        Ok(Two { first, second }) => Ok(Statement::Then(first, second)),
        Err(NoMemory) => Err(NoMemory),
    }
}

/// Two statements in memory of their own.
#[derive(Drop)]
struct Two {
    first: Box<Statement>,
    second: Box<Statement>,
}

fn two_of(alloc: Global, one: Statement, other: Statement) -> Result<Two, NoMemory> {
    match boxed(alloc, one) {
        Ok(first) => second_of(alloc, first, other),
        Err(NoMemory) => {
            drop(other);
            Err(NoMemory)
        }
    }
}

fn second_of(alloc: Global, first: Box<Statement>, other: Statement) -> Result<Two, NoMemory> {
    match boxed(alloc, other) {
        Ok(second) => Ok(Two { first, second }),
        Err(NoMemory) => {
            drop(first);
            Err(NoMemory)
        }
    }
}
