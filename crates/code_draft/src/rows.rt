//! Statements in a row, joined to one that isn't deep.

use crate::cost::Cost;
use crate::deeds::{Deed, then_of};
use crate::maker::Maker;
use game_code::Statement;
use game_sheet::NoMemory;
use std::alloc::Global;

/// Statements in a row.
#[derive(Drop)]
pub struct DeedRow {
    statements: Vec<Statement>,
    cost: Cost,
}

impl Maker {
    /// A row of no statements.
    pub fn row(&self) -> DeedRow {
        DeedRow {
            statements: Vec::new(self.alloc()),
            cost: Cost::NOTHING,
        }
    }

    /// Adds a statement at the end.
    pub fn add(&mut self, row: &mut DeedRow, deed: Deed) {
        let Deed { statement, cost } = deed;
        row.cost = row.cost.and(cost);
        match row.statements.push(statement) {
            Ok(()) => {}
            Err(failed) => {
                drop(failed);
                self.starve();
            }
        }
    }

    /// All statements of a row, one after the other.
    pub fn joined(&mut self, row: DeedRow) -> Deed {
        let DeedRow {
            mut statements,
            cost,
        } = row;
        let count = statements.len();
        let made = joined(self.alloc(), &mut statements, count);
        drop(statements);
        Deed {
            statement: self.done(made),
            cost,
        }
    }
}

/// So many statements from the end as one, each half of them on a side: so a long row makes no deep statement.
fn joined(
    alloc: Global,
    statements: &mut Vec<Statement>,
    count: usize,
) -> Result<Statement, NoMemory> {
    if count < 2 {
        return Ok(last_of(statements));
    }
    let half = count / 2;
    match joined(alloc, statements, half) {
        Ok(second) => match joined(alloc, statements, count - half) {
            Ok(first) => then_of(alloc, first, second),
            Err(NoMemory) => {
                drop(second);
                Err(NoMemory)
            }
        },
        Err(NoMemory) => Err(NoMemory),
    }
}

/// The last statement, which is taken.
fn last_of(statements: &mut Vec<Statement>) -> Statement {
    match statements.pop() {
        Some(statement) => statement,
        None => Statement::Nothing,
    }
}
