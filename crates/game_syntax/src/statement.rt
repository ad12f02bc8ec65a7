//! Statements, by recursive descent.

use crate::called::{Called, EventWord};
use crate::cursor::Reader;
use crate::fault_name::FaultName;
use crate::hint::Hint;
use crate::slip::Slip;
use crate::token::{Sign, Token, TokenKind, Word};
use crate::tree::{Id, Shape};

impl EventWord {
    /// How many arguments it has, at least and at most.
    pub fn arguments(self) -> (usize, usize) {
        match self {
            EventWord::EndTurn => (0, 1),
            EventWord::EndPhase | EventWord::EndStage | EventWord::Draw | EventWord::End => (0, 0),
            EventWord::Win | EventWord::SetPhase | EventWord::SetStage | EventWord::SetActive => {
                (1, 1)
            }
        }
    }

    /// Whether its argument is a text.
    fn names(self) -> bool {
        match self {
            EventWord::SetPhase | EventWord::SetStage | EventWord::SetActive => true,
            _ => false,
        }
    }
}

impl<'a> Reader<'a> {
    /// Statements up to the end of the text, or of the block.
    #[cycle(statement)]
    pub fn statements(&mut self, depth: usize) -> Id {
        let at = self.at();
        let mark = self.mark();
        for _turn in 0..self.turns() {
            if self.ends() {
                break;
            }
            let statement = self.statement(depth);
            self.wait(statement);
        }
        let all = self.gather(mark);
        self.add(Shape::Block(all), at)
    }

    /// `{ .. }`
    #[cycle(statement)]
    pub fn block(&mut self, depth: usize) -> Id {
        self.expect(Sign::OpenCurly, Hint::OpenCurly);
        let all = self.statements(depth);
        self.expect(Sign::CloseCurly, Hint::CloseCurly);
        all
    }

    #[cycle(statement)]
    fn statement(&mut self, depth: usize) -> Id {
        let token = self.peek();
        match token.kind {
            TokenKind::Word(Word::If) => self.conditional(depth),
            TokenKind::Word(Word::For) => self.repeated(depth),
            TokenKind::Word(Word::Let) => self.let_statement(depth),
            TokenKind::Word(Word::Var) => self.var_statement(depth),
            TokenKind::Name => self.named_statement(token, depth),
            TokenKind::Word(Word::Me | Word::Players | Word::Secret | Word::Order) => {
                self.assignment(token, depth)
            }
            TokenKind::Sign(Sign::OpenCurly) => self.refused(Hint::NoBlock),
            _ => self.refused(Hint::Statement),
        }
    }

    /// `if e { .. } else ..`
    #[cycle(statement)]
    fn conditional(&mut self, depth: usize) -> Id {
        let at = self.take().span.from;
        let test = self.expression(depth);
        if depth == 0 {
            return self.too_deep();
        }
        let block = self.block(depth - 1);
        if !self.eat_word(Word::Else) {
            return self.add(Shape::If(test, block, None), at);
        }
        let other = if self.sees_word(Word::If) {
            self.conditional(depth - 1)
        } else {
            self.block(depth - 1)
        };
        self.add(Shape::If(test, block, Some(other)), at)
    }

    /// `for x in .. { .. }`
    #[cycle(statement)]
    fn repeated(&mut self, depth: usize) -> Id {
        let at = self.take().span.from;
        let binder = self.binder(depth);
        if depth == 0 {
            return self.too_deep();
        }
        let block = self.block(depth - 1);
        self.add(Shape::For(binder, block), at)
    }

    /// Whether a block or the text ends here.
    fn ends(&self) -> bool {
        self.sees(Sign::CloseCurly) || self.peek().kind == TokenKind::End
    }

    /// `let NAME = ..;`
    fn let_statement(&mut self, depth: usize) -> Id {
        self.take();
        let name = self.name(Hint::Name);
        self.expect(Sign::Put, Hint::Put);
        let is_die = self.sees_die();
        let value = self.drawn(depth);
        self.semicolon();
        let shape = if is_die {
            Shape::LetDie(name, value)
        } else {
            Shape::Let(name, value)
        };
        self.add(shape, name.from)
    }

    /// The value behind `=`; of a die the number of its faces.
    fn drawn(&mut self, depth: usize) -> Id {
        if !self.sees_die() {
            return self.expression(depth);
        }
        self.take();
        self.take();
        let faces = self.expression(depth);
        self.expect(Sign::CloseRound, Hint::CloseRound);
        faces
    }

    /// `var NAME = e;` or `var NAME: SLOT;`
    fn var_statement(&mut self, depth: usize) -> Id {
        self.take();
        let name = self.name(Hint::Name);
        let shape = if self.eat(Sign::Colon) {
            Shape::VarSlot(name, self.slot())
        } else {
            self.expect(Sign::Put, Hint::Put);
            self.no_die();
            Shape::Var(name, self.expression(depth))
        };
        self.semicolon();
        self.add(shape, name.from)
    }

    /// A call, or an assignment to what begins with a name.
    fn named_statement(&mut self, token: Token, depth: usize) -> Id {
        if self.ahead(1).kind != TokenKind::Sign(Sign::OpenRound) {
            return self.assignment(token, depth);
        }
        let id = match self.called(token) {
            Some(Called::Change(change)) => {
                let count = change.arguments();
                let arguments = self.arguments(count, count, depth);
                self.add(Shape::Change(change, arguments), token.span.from)
            }
            Some(Called::Event(event)) => self.event(event, token, depth),
            Some(Called::Die) => {
                self.failed(Slip::hinted(FaultName::DieNotHere, token.span.from, Hint::Die))
            }
            Some(_) => self.refused(Hint::ValueHere),
            None => {
                let arguments = self.arguments(0, 255, depth);
                self.add(Shape::Call(token.span, arguments), token.span.from)
            }
        };
        self.semicolon();
        id
    }

    /// `endTurn(..)` and the like.
    fn event(&mut self, event: EventWord, token: Token, depth: usize) -> Id {
        let argument = self.ahead(2);
        if event.names() && argument.kind != TokenKind::Text {
            let slip = Slip::hinted(FaultName::Syntax, argument.span.from, Hint::Text);
            return self.failed(slip);
        }
        let (least, most) = event.arguments();
        let arguments = self.arguments(least, most, depth);
        self.add(Shape::Event(event, arguments), token.span.from)
    }

    /// `PLACE = ..;` and the like.
    fn assignment(&mut self, token: Token, depth: usize) -> Id {
        let place = self.place(depth);
        let at = self.at();
        let shape = if self.eat(Sign::Put) {
            self.put(place, depth)
        } else if self.eat(Sign::PlusPut) {
            self.no_die();
            Shape::Add(place, self.expression(depth))
        } else if self.eat(Sign::MinusPut) {
            self.no_die();
            Shape::Take(place, self.expression(depth))
        } else {
            let slip = self.no_assignment(token);
            return self.failed(slip);
        };
        self.semicolon();
        self.add(shape, at)
    }

    /// What is put, behind `=`.
    fn put(&mut self, place: Id, depth: usize) -> Shape {
        let is_die = self.sees_die();
        if self.sees(Sign::Put) {
            self.refuse(Hint::Assignment);
        }
        let value = self.drawn(depth);
        if is_die {
            Shape::PutDie(place, value)
        } else {
            Shape::Put(place, value)
        }
    }

    /// The error where no `=` follows a place.
    fn no_assignment(&self, token: Token) -> Slip {
        let is_name = token.kind == TokenKind::Name;
        match self.peek().kind {
            TokenKind::Sign(Sign::Semicolon) if is_name => {
                Slip::about(FaultName::Syntax, Hint::CallIt, token.span)
            }
            TokenKind::Name | TokenKind::Number(_) if is_name => {
                Slip::hinted(FaultName::Syntax, token.span.from, Hint::ForeignWord)
            }
            TokenKind::Sign(Sign::Plus | Sign::Minus) => self.refusal(Hint::AddOne),
            _ => self.refusal(Hint::Assignment),
        }
    }
}
