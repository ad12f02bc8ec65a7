//! Spans, and what is gathered over one.

use crate::bounds::Bounds;
use crate::cost::Cost;
use crate::draft::{Draft, Facts};
use crate::maker::Maker;
use crate::nodes::{self, Rounds};
use game_code::Expression;
use game_sheet::Arg;
use slot_values::{Gather, Operator};

/// A span of numbers: from one on, to before another, in at most so many rounds.
#[derive(Drop)]
pub struct Span {
    /// Where it begins.
    pub from: Draft,
    /// What is past its last number.
    pub past: Draft,
    /// The greatest count of rounds.
    pub rounds: u32,
}

impl Span {
    /// The ends of the numbers of the span.
    pub fn bounds(&self) -> Bounds {
        self.from.facts.bounds.spanned(self.past.facts.bounds)
    }

    /// What it costs to go over it, with a body of this cost.
    pub(crate) fn cost(&self, body: Cost) -> Cost {
        let ends = self.from.facts.cost.and(self.past.facts.cost);
        ends.and(body.more(1).times(self.rounds)).within()
    }
}

impl Maker {
    /// The number past a last one.
    pub fn past(&mut self, last: Draft) -> Draft {
        match number_of(&last.expression) {
            Some(number) if number < i32::MAX => {
                let facts = last.facts;
                drop(last);
                Draft {
                    expression: Expression::Literal(Some(Arg::Whole(number + 1))),
                    facts: Facts::number(Bounds::of(number + 1), facts.cost),
                }
            }
            _ => {
                let one = self.number(1);
                self.operate(Operator::Plus, last, one)
            }
        }
    }

    /// What is gathered over a span, in whose body the number is the newest local.
    pub fn gather(&mut self, gather: Gather, span: Span, body: Draft) -> Draft {
        let facts = gathered(gather, &span, body.facts);
        let Span { from, past, rounds } = span;
        let Draft {
            expression: first,
            facts: _,
        } = from;
        let Draft {
            expression: second,
            facts: _,
        } = past;
        let Draft {
            expression: third,
            facts: _,
        } = body;
        let rounds = Rounds {
            gather,
            most: rounds,
        };
        let made = nodes::gather(self.alloc(), rounds, first, second, third);
        self.kept(made, facts, 1)
    }
}

/// The number that a literal is.
fn number_of(expression: &Expression) -> Option<i32> {
    match expression {
        Expression::Literal(Some(Arg::Whole(number))) => Some(*number),
        _ => None,
    }
}

/// What is known of what is gathered.
fn gathered(gather: Gather, span: &Span, body: Facts) -> Facts {
    let cost = span.cost(body.cost);
    match gather {
        Gather::Any => Facts::condition(cost),
        Gather::First => Facts::number(found(span), cost),
        Gather::Sum => Facts::number(body.bounds.summed(span.rounds), cost),
        Gather::Greatest => Facts::number(Bounds::UNKNOWN, cost),
    }
}

/// The ends of a number that is found in a span: its own, one past the last among them.
fn found(span: &Span) -> Bounds {
    Bounds {
        least: span.from.facts.bounds.least,
        greatest: span.past.facts.bounds.greatest,
    }
}
