//! Expressions and conditions.
//!
//! Each function takes how many levels may still stand in one another; that number is its measure.

use crate::drafter::Drafter;
use crate::scope::{Bound, LocalValue, Meaning, argument_facts, seats_below};
use crate::slots::Whole;
use crate::text::CodeText;
use crate::trouble::Trouble;
use code_draft::{Bounds, Draft, Kind};
use game_code::Word;
use game_frame::ConstantKind;
use game_sheet::Short;
use game_syntax::{FaultName, Hint, Id, Many, Node, Operator, Shape, Span, Word as CodeWord};
use slot_values::Operator as ValueOperator;

/// An operator with the operand behind it.
#[derive(Clone, Copy)]
struct Joint {
    /// The operand before it.
    before: Id,
    operator: Operator,
    operand: Id,
    at: usize,
}

impl Drafter<'_> {
    /// A value or a condition.
    #[cycle(value)]
    pub(crate) fn expression(&mut self, code: &CodeText<'_>, id: Id, left: usize) -> Draft {
        if self.halted() {
            return Draft::blank();
        }
        let node = code.node(id);
        if left == 0 {
            self.too_deep(code, node.at);
            return Draft::blank();
        }
        let draft = self.leaf(code, node, left - 1);
        self.check_limits(code, draft.facts.cost.depth, node.at);
        draft
    }

    /// A number.
    #[cycle(value)]
    pub(crate) fn number(&mut self, code: &CodeText<'_>, id: Id, left: usize) -> Draft {
        let draft = self.expression(code, id, left);
        self.want_number(code, draft.facts.kind, code.at(id));
        draft
    }

    /// A condition.
    #[cycle(value)]
    pub(crate) fn condition(&mut self, code: &CodeText<'_>, id: Id, left: usize) -> Draft {
        let draft = self.expression(code, id, left);
        self.want_condition(code, draft.facts.kind, code.at(id));
        draft
    }

    /// What is made of no other value, or what is.
    #[cycle(value)]
    fn leaf(&mut self, code: &CodeText<'_>, node: Node, left: usize) -> Draft {
        match node.shape {
            Shape::Number(number) => self.maker.number(number),
            Shape::Text(span) => self.text(code, span),
            Shape::Null => self.maker.null(),
            Shape::True => self.maker.yes(),
            Shape::False => self.maker.no(),
            Shape::Word(word) => self.word(code, word, node.at),
            Shape::Name(name) => self.name(code, node, name, left),
            _ => self.made(code, node, left),
        }
    }

    /// What is made of other values.
    #[cycle(value)]
    fn made(&mut self, code: &CodeText<'_>, node: Node, left: usize) -> Draft {
        match node.shape {
            Shape::Negate(of) => self.negative(code, of, left),
            Shape::Not(of) => self.denied(code, of, left),
            Shape::Row(items) => self.operands(code, items, left),
            Shape::Choose(test, a, b) => self.choice(code, (test, a, b), node.at, left),
            Shape::Body(lets, of) => self.body(code, lets, 0, of, left),
            Shape::Round(gathering, binders, body) => {
                self.round(code, gathering, binders, body, node.at, left)
            }
            Shape::Built(builtin, arguments) => self.built(code, builtin, arguments, left),
            Shape::Call(name, arguments) => self.call(code, name, arguments, left),
            _ => self.stored(code, node, left),
        }
    }

    /// What stands in a slot.
    #[cycle(value)]
    fn stored(&mut self, code: &CodeText<'_>, node: Node, left: usize) -> Draft {
        let place = self.place(code, node, Whole::Read, left);
        self.maker.read(place)
    }

    fn text(&mut self, code: &CodeText<'_>, span: Span) -> Draft {
        match Short::of(code.letters(span)) {
            Some(text) => self.maker.text(text),
            None => self.failed(
                code,
                Trouble::said(
                    FaultName::LongText,
                    span.from,
                    "a text has at most 64 bytes",
                ),
            ),
        }
    }

    /// `seat`, or what the context has.
    fn word(&mut self, code: &CodeText<'_>, word: CodeWord, at: usize) -> Draft {
        let most = self.most_seats();
        match word {
            CodeWord::Seat => {
                if !self.sight.seat {
                    self.no_seat(code, at);
                }
                self.maker.word(Word::Seat, seats_below(most))
            }
            CodeWord::Seats => {
                let least = i64::from(self.frame.sheet.min_seats);
                self.maker
                    .word(Word::Seats, Bounds::between(least, i64::from(most)))
            }
            _ => self.context_word(code, word, at),
        }
    }

    fn context_word(&mut self, code: &CodeText<'_>, word: CodeWord, at: usize) -> Draft {
        if !self.sight.context {
            self.no_context(code, at);
        }
        match word {
            CodeWord::Current => {
                let bounds = seats_below(self.most_seats());
                self.maker.word(Word::Current, bounds)
            }
            CodeWord::Turn => self.maker.word(Word::Turn, Bounds::UNKNOWN),
            CodeWord::Moves => self.maker.word(Word::Moves, Bounds::UNKNOWN),
            CodeWord::Pos => self.maker.word(Word::Place, Bounds::between(0, 63)),
            _ => self.maker.word(Word::Phase, Bounds::UNKNOWN),
        }
    }

    /// What a bare name stands for.
    #[cycle(value)]
    fn name(&mut self, code: &CodeText<'_>, node: Node, name: Span, left: usize) -> Draft {
        match self.meaning(code, name) {
            Meaning::Local(Bound::Value(value)) => self.local(code, &value, name.from),
            Meaning::Argument(place) => self.argument(place),
            Meaning::Constant(ConstantKind::Number(number)) => self.maker.number(number),
            Meaning::Constant(_) => self.failed(
                code,
                Trouble::hinted(FaultName::ListNeedsIndex, name.from, Hint::WriteIndex),
            ),
            Meaning::Code(_, true) => self.failed(
                code,
                Trouble::said(
                    FaultName::UnknownName,
                    name.from,
                    "this is a named expression: write its arguments in brackets behind it, or `()`",
                ),
            ),
            Meaning::Code(_, false) => self.failed(
                code,
                Trouble::about(FaultName::UnknownName, Hint::IsProcedure, name),
            ),
            Meaning::Nothing => {
                self.unknown(code, name);
                Draft::blank()
            }
            _ => self.stored(code, node, left),
        }
    }

    /// A value that a name stands for.
    fn local(&mut self, code: &CodeText<'_>, value: &LocalValue, at: usize) -> Draft {
        match self.place_of(value) {
            Some(place) => self.local_at(place, value),
            None => {
                self.too_deep(code, at);
                Draft::blank()
            }
        }
    }

    fn local_at(&mut self, place: u8, value: &LocalValue) -> Draft {
        if value.kind != Kind::Condition {
            return self.maker.local(place, value.kind, value.bounds);
        }
        let stored = self.maker.local(place, Kind::Number, Bounds::UNKNOWN);
        let one = self.maker.number(1);
        self.maker.operate(ValueOperator::Equal, stored, one)
    }

    fn argument(&mut self, place: u8) -> Draft {
        let most = self.most_seats();
        let arguments = self.arguments;
        match arguments.get(usize::from(place)) {
            Some(argument) => {
                let (kind, bounds) = argument_facts(argument.kind, most);
                self.maker.argument(place, kind, bounds)
            }
            None => Draft::blank(),
        }
    }

    /// `-e`
    #[cycle(value)]
    fn negative(&mut self, code: &CodeText<'_>, of: Id, left: usize) -> Draft {
        let value = self.number(code, of, left);
        self.maker.negated(value)
    }

    /// `!c`
    #[cycle(value)]
    fn denied(&mut self, code: &CodeText<'_>, of: Id, left: usize) -> Draft {
        let test = self.condition(code, of, left);
        self.maker.not(test)
    }

    /// Operands in a row, joined from the left on.
    #[cycle(value)]
    fn operands(&mut self, code: &CodeText<'_>, items: Many, left: usize) -> Draft {
        let mut draft = Draft::blank();
        let mut before = 0;
        for id in code.tree.many(items) {
            let node = code.node(*id);
            draft = match node.shape {
                Shape::Next(operator, operand) => {
                    let joint = Joint {
                        before,
                        operator,
                        operand,
                        at: node.at,
                    };
                    self.joined(code, draft, joint, left)
                }
                _ => {
                    drop(draft);
                    self.expression(code, *id, left)
                }
            };
            before = *id;
        }
        draft
    }

    /// What is before an operator, and the operand behind it.
    #[cycle(value)]
    fn joined(&mut self, code: &CodeText<'_>, first: Draft, joint: Joint, left: usize) -> Draft {
        let second = match self.phase_text(code, &joint) {
            Some(name) => self.phase_place(code, name),
            None => self.expression(code, joint.operand, left),
        };
        self.check_operands(code, &joint, first.facts.kind, second.facts.kind);
        self.operated(joint.operator, first, second)
    }

    /// The name of a phase, where one is compared with the phase.
    fn phase_text(&self, code: &CodeText<'_>, joint: &Joint) -> Option<Span> {
        let compares = match joint.operator {
            Operator::Equal | Operator::Differs => true,
            _ => false,
        };
        match (
            code.node(joint.before).shape,
            code.node(joint.operand).shape,
        ) {
            (Shape::Word(CodeWord::Phase), Shape::Text(name)) if compares => Some(name),
            _ => None,
        }
    }

    /// The place of a phase that is named.
    fn phase_place(&mut self, code: &CodeText<'_>, name: Span) -> Draft {
        match self.phase_named(code.letters(name)) {
            Some(place) => self.maker.number(i32::from(place)),
            None => self.failed(
                code,
                Trouble::about(FaultName::UnknownPhase, Hint::Named, name),
            ),
        }
    }

    /// Both operands have to be of the kinds that their operator wants.
    fn check_operands(&mut self, code: &CodeText<'_>, joint: &Joint, one: Kind, other: Kind) {
        let (first, second) = (code.at(joint.before), code.at(joint.operand));
        match joint.operator {
            Operator::Or | Operator::And => {
                self.want_condition(code, one, first);
                self.want_condition(code, other, second);
            }
            Operator::Equal | Operator::Differs => {
                self.want_value(code, one, first);
                self.want_value(code, other, second);
                self.same_kind(code, one, other, joint.at);
            }
            _ => {
                self.want_number(code, one, first);
                self.want_number(code, other, second);
            }
        }
    }

    /// What an operator makes of two operands of its kinds.
    fn operated(&mut self, operator: Operator, a: Draft, b: Draft) -> Draft {
        match operator {
            Operator::Or => self.maker.or(a, b),
            Operator::And => self.maker.and(a, b),
            Operator::Equal => self.maker.operate(ValueOperator::Equal, a, b),
            Operator::Differs => {
                let same = self.maker.operate(ValueOperator::Equal, a, b);
                self.maker.not(same)
            }
            Operator::Less => self.maker.operate(ValueOperator::Less, a, b),
            Operator::AtMost => self.maker.operate(ValueOperator::AtMost, a, b),
            Operator::Greater => self.maker.operate(ValueOperator::Less, b, a),
            Operator::AtLeast => self.maker.operate(ValueOperator::AtMost, b, a),
            Operator::Plus => self.maker.operate(ValueOperator::Plus, a, b),
            Operator::Minus => self.maker.operate(ValueOperator::Minus, a, b),
            Operator::Times => self.maker.operate(ValueOperator::Times, a, b),
            Operator::Over => self.maker.operate(ValueOperator::Over, a, b),
            Operator::Rest => self.maker.operate(ValueOperator::Rest, a, b),
        }
    }

    /// `c ? a : b`
    #[cycle(value)]
    fn choice(
        &mut self,
        code: &CodeText<'_>,
        parts: (Id, Id, Id),
        at: usize,
        left: usize,
    ) -> Draft {
        let test = self.condition(code, parts.0, left);
        let a = self.expression(code, parts.1, left);
        let b = self.expression(code, parts.2, left);
        let kind = self.same_kind(code, a.facts.kind, b.facts.kind, at);
        self.maker.choose(test, a, b, kind)
    }

    /// Lets from a place on, and what they stand before.
    #[cycle(value)]
    fn body(&mut self, code: &CodeText<'_>, lets: Many, from: usize, of: Id, left: usize) -> Draft {
        if left == 0 {
            self.too_deep(code, code.at(of));
            return Draft::blank();
        }
        let Some(id) = code.child(lets, from) else {
            return self.expression(code, of, left - 1);
        };
        match code.node(id).shape {
            Shape::Bind(name, value) => {
                let value = self.bound(code, name, value, left - 1);
                let rest = self.body(code, lets, from.saturating_add(1), of, left - 1);
                self.leave();
                self.maker.bind(value, rest)
            }
            _ => Draft::blank(),
        }
    }

    /// The value of a let, whose name is in sight from now on.
    #[cycle(value)]
    pub(crate) fn bound(
        &mut self,
        code: &CodeText<'_>,
        name: Span,
        value: Id,
        left: usize,
    ) -> Draft {
        self.check_name(code, name);
        let draft = self.expression(code, value, left);
        self.enter(name, draft.facts.kind, draft.facts.bounds);
        self.as_value(draft)
    }

    /// A condition as a number, or the value that it is.
    pub(crate) fn as_value(&mut self, draft: Draft) -> Draft {
        if draft.facts.kind == Kind::Condition {
            self.maker.one_or_zero(draft)
        } else {
            draft
        }
    }
}
