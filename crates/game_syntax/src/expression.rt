//! Expressions and conditions, by recursive descent.
//!
//! Each function takes how many levels may still stand in one another; that number is its measure.

ghost use Rattle.std.specs.Prelude.{◌≤◌};

use crate::called::{Called, Gathering};
use crate::cursor::{MOST_DEPTH, Reader};
use crate::fault_name::FaultName;
use crate::hint::Hint;
use crate::slip::Slip;
use crate::token::{Sign, Span, Token, TokenKind, Word};
use crate::tree::{Id, Many, Operator, Shape};

/// The levels of operators, from `||` to `*`, and the one of comparisons, which do not chain.
const LEVELS: u8 = 5;

const COMPARISONS: u8 = 2;

const SUMS: u8 = 3;

/// How many arguments a call of named code has at most.
const MOST_ARGUMENTS: usize = 255;

/// The operator of a sign, and its level.
fn operator_of(sign: Sign) -> Option<(Operator, u8)> {
    Some(match sign {
        Sign::Or => (Operator::Or, 0),
        Sign::And => (Operator::And, 1),
        Sign::Equal => (Operator::Equal, COMPARISONS),
        Sign::Differs => (Operator::Differs, COMPARISONS),
        Sign::Less => (Operator::Less, COMPARISONS),
        Sign::AtMost => (Operator::AtMost, COMPARISONS),
        Sign::Greater => (Operator::Greater, COMPARISONS),
        Sign::AtLeast => (Operator::AtLeast, COMPARISONS),
        Sign::Plus => (Operator::Plus, SUMS),
        Sign::Minus => (Operator::Minus, SUMS),
        Sign::Times => (Operator::Times, 4),
        Sign::Over => (Operator::Over, 4),
        Sign::Rest => (Operator::Rest, 4),
        _ => return None,
    })
}

/// The number of this magnitude, negative or not, if it has 32 bits.
fn number_of(magnitude: u32, negative: bool) -> Option<i32> {
    let value = i64::from(magnitude);
    let value = if negative { -value } else { value };
    i32::try_from(value).ok()
}

impl<'a> Reader<'a> {
    /// Lets, and what they stand before.
    #[cycle(expression)]
    pub fn body(&mut self, depth: usize) -> Id {
        let at = self.at();
        let mark = self.mark();
        for _turn in 0..self.turns() {
            if !self.eat_word(Word::Let) {
                break;
            }
            let name = self.bind_name();
            let value = self.expression(depth);
            self.semicolon();
            let bind = self.add(Shape::Bind(name, value), name.from);
            self.wait(bind);
        }
        let lets = self.gather(mark);
        let value = self.expression(depth);
        if lets.from == lets.past {
            return value;
        }
        self.add(Shape::Body(lets, value), at)
    }

    /// A choice, or operands in a row.
    #[cycle(expression)]
    pub fn expression(&mut self, depth: usize) -> Id {
        let at = self.at();
        let test = self.row(depth, 0);
        if !self.eat(Sign::Question) {
            return test;
        }
        if depth == 0 {
            return self.too_deep();
        }
        let yes = self.expression(depth - 1);
        self.expect(Sign::Colon, Hint::ColonOfChoice);
        let no = self.expression(depth - 1);
        self.add(Shape::Choose(test, yes, no), at)
    }

    /// Operands in a row, joined by operators of one level.
    #[cycle(expression)]
    fn row(&mut self, depth: usize, level: u8) -> Id
        requires { level ≤ 5 }
    {
        if level >= LEVELS {
            return self.unary(depth);
        }
        let at = self.at();
        let first = self.row(depth, level + 1);
        if self.operator(level).is_none() {
            return first;
        }
        let mark = self.mark();
        self.wait(first);
        for _turn in 1..MOST_DEPTH {
            let Some(operator) = self.operator(level) else {
                break;
            };
            let place = self.take().span.from;
            self.after_operator();
            let operand = self.row(depth, level + 1);
            let next = self.add(Shape::Next(operator, operand), place);
            self.wait(next);
            if level == COMPARISONS {
                break;
            }
        }
        self.row_ends(level);
        let items = self.gather(mark);
        self.add(Shape::Row(items), at)
    }

    /// A sign before an operand, or the operand.
    #[cycle(expression)]
    fn unary(&mut self, depth: usize) -> Id {
        let token = self.peek();
        let negative = token.kind == TokenKind::Sign(Sign::Minus);
        if !negative && token.kind != TokenKind::Sign(Sign::Not) {
            return self.primary(depth);
        }
        if negative && let TokenKind::Number(magnitude) = self.ahead(1).kind {
            self.take();
            self.take();
            return self.number(magnitude, true, token.span.from);
        }
        if depth == 0 {
            return self.too_deep();
        }
        self.take();
        let operand = self.unary(depth - 1);
        let shape = if negative {
            Shape::Negate(operand)
        } else {
            Shape::Not(operand)
        };
        self.add(shape, token.span.from)
    }

    /// A value without operators.
    #[cycle(expression)]
    fn primary(&mut self, depth: usize) -> Id {
        let token = self.peek();
        if let TokenKind::Number(magnitude) = token.kind {
            self.take();
            return self.number(magnitude, false, token.span.from);
        }
        if let Some(shape) = self.simple(token) {
            self.take();
            return self.add(shape, token.span.from);
        }
        if depth == 0 {
            return self.too_deep();
        }
        match token.kind {
            TokenKind::Sign(Sign::OpenRound) => {
                self.take();
                let body = self.body(depth - 1);
                self.expect(Sign::CloseRound, Hint::CloseRound);
                body
            }
            TokenKind::Name => self.named(token, depth - 1),
            TokenKind::Word(Word::Me | Word::Players | Word::Secret | Word::Order) => {
                self.place(depth - 1)
            }
            _ => self.refused(no_value(token)),
        }
    }

    /// A call, or a place that begins with a name.
    #[cycle(expression)]
    fn named(&mut self, token: Token, depth: usize) -> Id {
        if self.ahead(1).kind != TokenKind::Sign(Sign::OpenRound) {
            return self.place(depth);
        }
        match self.called(token) {
            Some(Called::Gathering(gathering)) => self.round(gathering, depth),
            Some(Called::Builtin(builtin)) => {
                let arguments = self.arguments(builtin.arguments(), builtin.arguments(), depth);
                self.add(Shape::Built(builtin, arguments), token.span.from)
            }
            Some(Called::Die) => {
                self.failed(Slip::hinted(FaultName::DieNotHere, token.span.from, Hint::Die))
            }
            Some(Called::Change(_) | Called::Event(_)) => { self.refused(Hint::StatementHere) }
            None => {
                let arguments = self.arguments(0, MOST_ARGUMENTS, depth);
                self.add(Shape::Call(token.span, arguments), token.span.from)
            }
        }
    }

    /// The arguments of a call, in brackets, behind its name.
    #[cycle(expression)]
    pub fn arguments(&mut self, least: usize, most: usize, depth: usize) -> Many {
        self.take();
        self.take();
        let mark = self.mark();
        if least == 0 && self.eat(Sign::CloseRound) {
            return self.gather(mark);
        }
        for count in 1..=most {
            let argument = self.expression(depth);
            self.wait(argument);
            if count >= least && self.eat(Sign::CloseRound) {
                return self.gather(mark);
            }
            if count == most || self.halted() {
                break;
            }
            self.expect(Sign::Comma, Hint::Comma);
        }
        self.refuse(Hint::CloseRound);
        self.gather(mark)
    }

    /// `any(.. : ..)` and the like.
    #[cycle(expression)]
    fn round(&mut self, gathering: Gathering, depth: usize) -> Id {
        let at = self.take().span.from;
        self.take();
        let mark = self.mark();
        for _turn in 0..self.turns() {
            let binder = self.binder(depth);
            self.wait(binder);
            if !self.eat(Sign::Comma) {
                break;
            }
        }
        let binders = self.gather(mark);
        self.expect(Sign::Colon, Hint::BinderColon);
        let body = self.body(depth);
        self.expect(Sign::CloseRound, Hint::CloseRound);
        self.add(Shape::Round(gathering, binders, body), at)
    }

    /// `NAME in SPAN` or `NAME in LIST`.
    #[cycle(expression)]
    pub fn binder(&mut self, depth: usize) -> Id {
        let name = self.bound_name();
        self.expect_in();
        let from = self.row(depth, SUMS);
        let last = self.sees(Sign::Through);
        if !last && !self.sees(Sign::Below) {
            return self.add(Shape::Among(name, from), name.from);
        }
        self.take();
        let to = self.row(depth, SUMS);
        self.add(Shape::Within(name, from, to, last), name.from)
    }

    /// A slot, a list, or an item.
    #[cycle(expression)]
    pub fn place(&mut self, depth: usize) -> Id {
        let list = self.list(depth);
        let at = self.at();
        if !self.eat(Sign::OpenSquare) {
            self.no_member();
            return list;
        }
        let index = self.expression(depth);
        let shape = if self.eat(Sign::Comma) {
            Shape::Cell(list, index, self.expression(depth))
        } else {
            Shape::Index(list, index)
        };
        self.expect(Sign::CloseSquare, Hint::CloseSquare);
        if self.sees(Sign::OpenSquare) {
            return self.refused(Hint::Grid);
        }
        self.no_member();
        self.add(shape, at)
    }

    /// What a place stands in.
    #[cycle(expression)]
    fn list(&mut self, depth: usize) -> Id {
        let token = self.take();
        let at = token.span.from;
        match token.kind {
            TokenKind::Name => self.add(Shape::Name(token.span), at),
            TokenKind::Word(Word::Me) => {
                let name = self.member();
                self.add(Shape::Me(name), at)
            }
            TokenKind::Word(Word::Secret) => {
                let name = self.member();
                self.add(Shape::Secret(name), at)
            }
            TokenKind::Word(Word::Players) => {
                self.expect(Sign::OpenSquare, Hint::OpenSquare);
                let seat = self.expression(depth);
                self.expect(Sign::CloseSquare, Hint::CloseSquare);
                let name = self.member();
                self.add(Shape::Players(seat, name), at)
            }
            _ => self.add(Shape::Order, at),
        }
    }

    /// A number's node, if it has 32 bits.
    pub fn number(&mut self, magnitude: u32, negative: bool, at: usize) -> Id {
        match number_of(magnitude, negative) {
            Some(value) => self.add(Shape::Number(value), at),
            None => self.failed(Slip::plain(FaultName::OutOfRange, at)),
        }
    }

    /// The value of a token that is one by itself.
    fn simple(&self, token: Token) -> Option<Shape> {
        match token.kind {
            TokenKind::Text => Some(Shape::Text(inside(token.span))),
            TokenKind::Name => match self.ahead(1).kind {
                TokenKind::Sign(Sign::OpenRound | Sign::OpenSquare | Sign::Dot) => None,
                _ => Some(Shape::Name(token.span)),
            },
            TokenKind::Word(word) => simple_word(word),
            _ => None,
        }
    }

    /// The operator of this level that comes next.
    fn operator(&self, level: u8) -> Option<Operator> {
        let TokenKind::Sign(sign) = self.peek().kind else {
            return None;
        };
        match operator_of(sign) {
            Some((operator, of)) if of == level => Some(operator),
            _ => None,
        }
    }

    /// `===`, `!==` and `++` are none.
    fn after_operator(&mut self) {
        match self.peek().kind {
            TokenKind::Sign(Sign::Put) => self.refuse(Hint::ThreeEqual),
            TokenKind::Sign(Sign::Plus) => self.refuse(Hint::AddOne),
            _ => {}
        }
    }

    /// Comparisons do not chain, and other rows have at most so many operands.
    fn row_ends(&mut self, level: u8) {
        if self.operator(level).is_none() {
            return;
        }
        if level == COMPARISONS {
            self.refuse(Hint::NoChain);
        } else {
            self.too_deep();
        }
    }

    /// Whether a die comes next.
    pub fn sees_die(&self) -> bool {
        self.sees_name(b"die") && self.ahead(1).kind == TokenKind::Sign(Sign::OpenRound)
    }

    /// The name of a let, and its `=`.
    fn bind_name(&mut self) -> Span {
        let name = self.name(Hint::Name);
        self.expect(Sign::Put, Hint::Put);
        self.no_die();
        name
    }

    /// No die comes next.
    pub fn no_die(&mut self) {
        if self.sees_die() {
            let at = self.at();
            self.fail(Slip::hinted(FaultName::DieNotHere, at, Hint::Die));
        }
    }

    /// The name of a binder.
    fn bound_name(&mut self) -> Span {
        let name = self.name(Hint::Name);
        if let TokenKind::Sign(Sign::CloseRound | Sign::Comma) = self.peek().kind {
            self.fail(Slip::about(FaultName::Syntax, Hint::Binder, name));
        }
        name
    }

    /// `.NAME`
    fn member(&mut self) -> Span {
        self.expect(Sign::Dot, Hint::Dot);
        self.name(Hint::NameOfSlot)
    }

    /// No member follows.
    fn no_member(&mut self) {
        if self.sees(Sign::Dot) {
            self.refuse(Hint::NoMember);
        }
    }
}

/// What to say where a value is missing.
fn no_value(token: Token) -> Hint {
    match token.kind {
        TokenKind::Word(Word::Let) => Hint::LetAtBeginning,
        TokenKind::Sign(Sign::Put) => Hint::OneEqual,
        _ => Hint::Expression,
    }
}

/// The part between the quotes.
pub fn inside(span: Span) -> Span {
    Span {
        from: span.from.saturating_add(1),
        past: span.past.saturating_sub(1),
    }
}

/// The value of a word that is one by itself.
fn simple_word(word: Word) -> Option<Shape> {
    match word {
        Word::Null => Some(Shape::Null),
        Word::True => Some(Shape::True),
        Word::False => Some(Shape::False),
        Word::Seat
        | Word::Seats
        | Word::Current
        | Word::Turn
        | Word::Moves
        | Word::Pos
        | Word::Phase => Some(Shape::Word(word)),
        _ => None,
    }
}
