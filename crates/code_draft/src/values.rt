//! Values and conditions.

use crate::bounds::Bounds;
use crate::cost::Cost;
use crate::draft::{Draft, Facts, Kind};
use crate::maker::Maker;
use crate::nodes;
use game_code::{Expression, Word};
use game_sheet::{Arg, Short};
use slot_values::Operator;

impl Maker {
    /// A node that is made of no other.
    fn leaf(&mut self, expression: Expression, kind: Kind, bounds: Bounds) -> Draft {
        let facts = Facts {
            kind,
            bounds,
            cost: Cost::LEAF,
        };
        self.kept(Ok(expression), facts, 1)
    }

    /// A number.
    pub fn number(&mut self, number: i32) -> Draft {
        let literal = Expression::Literal(Some(Arg::Whole(number)));
        self.leaf(literal, Kind::Number, Bounds::of(number))
    }

    /// A text.
    pub fn text(&mut self, text: Short) -> Draft {
        let literal = Expression::Literal(Some(Arg::Text(text)));
        self.leaf(literal, Kind::Text, Bounds::UNKNOWN)
    }

    /// Null.
    pub fn null(&mut self) -> Draft {
        self.leaf(Expression::Literal(None), Kind::Null, Bounds::UNKNOWN)
    }

    /// The condition that always holds.
    pub fn yes(&mut self) -> Draft {
        let literal = Expression::Literal(Some(Arg::Whole(1)));
        self.leaf(literal, Kind::Condition, Bounds::UNKNOWN)
    }

    /// The condition that never holds.
    pub fn no(&mut self) -> Draft {
        let yes = self.yes();
        self.not(yes)
    }

    /// A local value, counted from the newest.
    pub fn local(&mut self, place: u8, kind: Kind, bounds: Bounds) -> Draft {
        self.leaf(Expression::Local(place), kind, bounds)
    }

    /// An argument of the move.
    pub fn argument(&mut self, place: u8, kind: Kind, bounds: Bounds) -> Draft {
        self.leaf(Expression::Argument(place), kind, bounds)
    }

    /// A word of the match.
    pub fn word(&mut self, word: Word, bounds: Bounds) -> Draft {
        self.leaf(Expression::Word(word), Kind::Number, bounds)
    }

    /// How many bytes a text has.
    pub fn size(&mut self, text: Draft) -> Draft {
        let Draft { expression, facts } = text;
        let facts = Facts::number(Bounds::UNKNOWN, facts.cost.within());
        let made = nodes::size(self.alloc(), expression);
        self.kept(made, facts, 1)
    }

    /// Whether a condition doesn't hold.
    pub fn not(&mut self, test: Draft) -> Draft {
        let Draft { expression, facts } = test;
        let facts = Facts::condition(facts.cost.within());
        let made = nodes::not(self.alloc(), expression);
        self.kept(made, facts, 1)
    }

    /// What an operator makes of two values.
    pub fn operate(&mut self, operator: Operator, a: Draft, b: Draft) -> Draft {
        let Draft {
            expression: first,
            facts: one,
        } = a;
        let Draft {
            expression: second,
            facts: other,
        } = b;
        let facts = operated(operator, one, other);
        let made = nodes::operate(self.alloc(), operator, first, second);
        self.kept(made, facts, 1)
    }

    /// Whether both conditions hold.
    pub fn and(&mut self, a: Draft, b: Draft) -> Draft {
        let Draft { expression, facts } = b;
        let facts = Facts::condition(a.facts.cost.and(facts.cost).within());
        let no = Expression::Literal(Some(Arg::Whole(0)));
        self.chosen_by(a, expression, no, facts)
    }

    /// Whether one of two conditions holds.
    pub fn or(&mut self, a: Draft, b: Draft) -> Draft {
        let Draft { expression, facts } = b;
        let facts = Facts::condition(a.facts.cost.and(facts.cost).within());
        let yes = Expression::Literal(Some(Arg::Whole(1)));
        self.chosen_by(a, yes, expression, facts)
    }

    /// The first where a condition holds, and otherwise the second, as a node with these facts.
    fn chosen_by(&mut self, test: Draft, a: Expression, b: Expression, facts: Facts) -> Draft {
        let Draft {
            expression,
            facts: _,
        } = test;
        let made = nodes::choose(self.alloc(), expression, a, b);
        self.kept(made, facts, 1)
    }

    /// The first where a condition holds, and otherwise the second. They are of one kind, which is given.
    pub fn choose(&mut self, test: Draft, a: Draft, b: Draft, kind: Kind) -> Draft {
        let Draft {
            expression: first,
            facts: one,
        } = a;
        let Draft {
            expression: second,
            facts: other,
        } = b;
        let cost = test.facts.cost.and(one.cost.or(other.cost)).within();
        let facts = Facts {
            kind,
            bounds: one.bounds.either(other.bounds),
            cost,
        };
        self.chosen_by(test, first, second, facts)
    }

    /// The second, with the value of the first as the newest local.
    pub fn bind(&mut self, value: Draft, body: Draft) -> Draft {
        let Draft {
            expression: first,
            facts: one,
        } = value;
        let Draft {
            expression: second,
            facts: other,
        } = body;
        let facts = Facts {
            kind: other.kind,
            bounds: other.bounds,
            cost: one.cost.and(other.cost).within(),
        };
        let made = nodes::bind(self.alloc(), first, second);
        self.kept(made, facts, 1)
    }

    /// 1 where a condition holds, and otherwise 0.
    pub fn one_or_zero(&mut self, test: Draft) -> Draft {
        let one = self.number(1);
        let zero = self.number(0);
        self.choose(test, one, zero, Kind::Number)
    }

    /// The number that makes a sum of 0 with another.
    pub fn negated(&mut self, value: Draft) -> Draft {
        let zero = self.number(0);
        self.operate(Operator::Minus, zero, value)
    }
}

/// What is known of what an operator makes.
fn operated(operator: Operator, one: Facts, other: Facts) -> Facts {
    let cost = one.cost.and(other.cost).within();
    let (a, b) = (one.bounds, other.bounds);
    match operator {
        Operator::Plus => Facts::number(a.plus(b), cost),
        Operator::Minus => Facts::number(a.minus(b), cost),
        Operator::Times => Facts::number(a.times(b), cost),
        Operator::Over => Facts::number(a.over(b), cost),
        Operator::Rest => Facts::number(a.rest(b), cost),
        Operator::Least => Facts::number(a.lesser(b), cost),
        Operator::Greatest => Facts::number(a.greater(b), cost),
        Operator::Less | Operator::AtMost | Operator::Equal => Facts::condition(cost),
    }
}
