//! An expression with what is known of it.

use crate::bounds::Bounds;
use crate::cost::Cost;
use game_code::Expression;

/// What an expression is. A condition's value is 1 or 0.
#[derive(Clone, Copy, PartialEq, Eq)]
pub enum Kind {
    /// A number, or null.
    Number,
    /// A text, or null.
    Text,
    /// Null, which is a number and a text.
    Null,
    /// A condition.
    Condition,
}

/// What is known of an expression beside its node.
#[derive(Clone, Copy)]
pub struct Facts {
    /// What it is.
    pub kind: Kind,
    /// The ends of its numbers.
    pub bounds: Bounds,
    /// Its steps and its depth.
    pub cost: Cost,
}

/// An expression with what is known of it.
#[derive(Drop)]
pub struct Draft {
    /// The node.
    pub expression: Expression,
    /// What is known.
    pub facts: Facts,
}

impl Facts {
    /// Of a condition.
    pub fn condition(cost: Cost) -> Facts {
        Facts {
            kind: Kind::Condition,
            bounds: Bounds::UNKNOWN,
            cost,
        }
    }

    /// Of a number between these ends.
    pub fn number(bounds: Bounds, cost: Cost) -> Facts {
        Facts {
            kind: Kind::Number,
            bounds,
            cost,
        }
    }
}

/// The kind of two values that stand for one; none where one is a number and the other a text, or one alone a condition.
pub fn joined_kind(one: Kind, other: Kind) -> Option<Kind> {
    match (one, other) {
        (Kind::Condition, Kind::Condition) => Some(Kind::Condition),
        (Kind::Condition, _) | (_, Kind::Condition) => None,
        (Kind::Null, kind) | (kind, Kind::Null) => Some(kind),
        (Kind::Number, Kind::Number) => Some(Kind::Number),
        (Kind::Text, Kind::Text) => Some(Kind::Text),
        _ => None,
    }
}

impl Draft {
    /// Null, which is counted as no node.
    pub fn blank() -> Draft {
        Draft {
            expression: Expression::Literal(None),
            facts: Facts {
                kind: Kind::Null,
                bounds: Bounds::UNKNOWN,
                cost: Cost::NOTHING,
            },
        }
    }
}
