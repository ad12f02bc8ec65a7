//! A maker of nodes, which counts them.

use crate::draft::{Draft, Facts};
use game_code::{Expression, Statement};
use game_sheet::NoMemory;
use std::alloc::Global;

/// How many nodes the code of a game may have.
pub const MOST_NODES: u32 = 20_000;

/// Makes nodes and counts them.
#[derive(Drop)]
pub struct Maker {
    alloc: Global,
    nodes: u32,
    starved: bool,
}

impl Maker {
    /// A maker that has made none.
    pub fn new(alloc: Global) -> Maker {
        Maker {
            alloc,
            nodes: 0,
            starved: false,
        }
    }

    /// Where memory comes from.
    pub fn alloc(&self) -> Global {
        self.alloc
    }

    /// How many nodes it has made.
    pub fn nodes(&self) -> u32 {
        self.nodes
    }

    /// Whether memory ran out. Then what was made isn't what was asked for.
    pub fn starved(&self) -> bool {
        self.starved
    }

    /// Counts no more than were made before.
    pub fn recount(&mut self, nodes: u32) {
        self.nodes = nodes;
    }

    /// Counts so many nodes.
    pub(crate) fn count(&mut self, nodes: u32) {
        self.nodes = self.nodes.saturating_add(nodes);
    }

    /// Memory ran out.
    pub(crate) fn starve(&mut self) {
        self.starved = true;
    }

    /// A node that was made, as one of so many.
    pub(crate) fn kept(
        &mut self,
        made: Result<Expression, NoMemory>,
        facts: Facts,
        nodes: u32,
    ) -> Draft {
        self.count(nodes);
        let expression = self.made(made);
        Draft { expression, facts }
    }

    /// A node that was made, or null.
    pub(crate) fn made(&mut self, made: Result<Expression, NoMemory>) -> Expression {
        match made {
            Ok(expression) => expression,
            Err(NoMemory) => {
                self.starved = true;
                Expression::Literal(None)
            }
        }
    }

    /// A statement that was made, or nothing.
    pub(crate) fn done(&mut self, made: Result<Statement, NoMemory>) -> Statement {
        match made {
            Ok(statement) => statement,
            Err(NoMemory) => {
                self.starved = true;
                Statement::Nothing
            }
        }
    }
}
