//! Slots with their types, arguments of moves, and heads of named code.

use crate::cursor::{MOST_DEPTH, Reader};
use crate::expression::inside;
use crate::hint::Hint;
use crate::token::{Sign, Span, TokenKind, Word};
use crate::tree::{Id, Many, Shape};

impl<'a> Reader<'a> {
    /// A type, with its start.
    pub fn slot(&mut self) -> Id {
        let at = self.at();
        let of = if self.eat(Sign::OpenSquare) {
            self.list_type(at)
        } else {
            self.item()
        };
        let start = if self.eat(Sign::Put) {
            Some(self.literal())
        } else {
            None
        };
        self.add(Shape::Slot(of, start), at)
    }

    /// `[ITEM; ..]` behind its bracket.
    fn list_type(&mut self, at: usize) -> Id {
        let item = self.item();
        if self.sees(Sign::Put) {
            return self.refused(Hint::StartBehind);
        }
        self.expect(Sign::Semicolon, Hint::Semicolon);
        let shape = self.length(item);
        self.expect(Sign::CloseSquare, Hint::CloseSquare);
        self.add(shape, at)
    }

    /// How long a list is.
    fn length(&mut self, item: Id) -> Shape {
        if self.eat(Sign::Through) {
            if self.eat_word(Word::Seats) {
                return Shape::AtMostSeats(item);
            }
            return Shape::AtMost(item, self.count());
        }
        if self.eat_word(Word::Seats) {
            if !self.eat_by() {
                return Shape::Seats(item);
            }
            return Shape::SeatsBy(item, self.count());
        }
        let count = self.count();
        if !self.eat_by() {
            return Shape::List(item, count);
        }
        Shape::Grid(item, count, self.count())
    }

    fn eat_by(&mut self) -> bool {
        let found = self.sees_name(b"by");
        if found {
            self.take();
        }
        found
    }

    /// What is in a slot.
    fn item(&mut self) -> Id {
        let at = self.at();
        let base = self.range(Hint::Type);
        if self.eat(Sign::Question) {
            return self.add(Shape::Nullable(base), at);
        }
        base
    }

    /// `a..b`, `seat` or `text`.
    fn range(&mut self, hint: Hint) -> Id {
        let at = self.at();
        if self.eat_word(Word::Seat) {
            return self.add(Shape::Seat, at);
        }
        if self.sees_name(b"text") {
            self.take();
            return self.add(Shape::AnyText, at);
        }
        if !self.sees_number() {
            return self.refused(hint);
        }
        let from = self.count();
        let last = self.sees(Sign::Through);
        if !last && !self.sees(Sign::Below) {
            return self.refused(hint);
        }
        self.take();
        let to = self.count();
        self.add(Shape::Range(from, to, last), at)
    }

    fn sees_number(&self) -> bool {
        match self.peek().kind {
            TokenKind::Number(_) | TokenKind::Name | TokenKind::Sign(Sign::Minus) => true,
            _ => false,
        }
    }

    /// A number, or the name of a constant, with a sign or not.
    fn count(&mut self) -> Id {
        let at = self.at();
        let negative = self.eat(Sign::Minus);
        let token = self.peek();
        match token.kind {
            TokenKind::Number(magnitude) => {
                self.take();
                self.number(magnitude, negative, at)
            }
            TokenKind::Name => {
                self.take();
                let name = self.add(Shape::Name(token.span), token.span.from);
                if negative {
                    return self.add(Shape::Negate(name), at);
                }
                name
            }
            _ => self.refused(Hint::Number),
        }
    }

    /// A start, or what is offered.
    fn literal(&mut self) -> Id {
        let token = self.peek();
        let shape = match token.kind {
            TokenKind::Text => Shape::Text(inside(token.span)),
            TokenKind::Word(Word::Null) => Shape::Null,
            _ if self.sees_number() => return self.count(),
            _ => return self.refused(Hint::Literal),
        };
        self.take();
        self.add(shape, token.span.from)
    }

    /// An argument of a move with what is offered, or arguments in a list.
    pub fn move_arguments(&mut self) -> Id {
        let at = self.at();
        let mark = self.mark();
        let first = self.argument();
        if self.sees_name(b"offer") {
            self.take();
            let offers = self.offers(mark);
            return self.add(Shape::Offer(first, offers), at);
        }
        self.wait(first);
        for _turn in 0..self.turns() {
            if !self.eat(Sign::Comma) {
                break;
            }
            let further = self.argument();
            self.wait(further);
        }
        let all = self.gather(mark);
        if !self.eat_word(Word::In) {
            self.alone(all);
            return first;
        }
        let list = self.place(MOST_DEPTH);
        self.add(Shape::InList(all, list), at)
    }

    /// Several arguments in one text stand in a list.
    fn alone(&mut self, all: Many) {
        if all.past > all.from.saturating_add(1) {
            self.refuse(Hint::OfferOrIn);
        }
    }

    /// `NAME: RANGE`
    fn argument(&mut self) -> Id {
        let name = self.name(Hint::Name);
        self.expect(Sign::Colon, Hint::Colon);
        let range = self.range(Hint::Range);
        self.add(Shape::Argument(name, range), name.from)
    }

    /// `[..]` behind `offer`.
    fn offers(&mut self, mark: usize) -> Many {
        self.expect(Sign::OpenSquare, Hint::OpenSquare);
        if self.eat(Sign::CloseSquare) {
            return self.gather(mark);
        }
        for _turn in 0..self.turns() {
            let offer = self.literal();
            self.wait(offer);
            if !self.eat(Sign::Comma) {
                break;
            }
        }
        self.expect(Sign::CloseSquare, Hint::CloseSquare);
        self.gather(mark)
    }

    /// The parameters of named code, and `=>`.
    pub fn head(&mut self) -> Many {
        self.expect(Sign::OpenRound, Hint::OpenRound);
        let mark = self.mark();
        for turn in 0..self.turns() {
            if turn == 0 && self.sees(Sign::CloseRound) {
                break;
            }
            let name = self.name(Hint::Name);
            let parameter = self.add(Shape::Name(name), name.from);
            self.wait(parameter);
            if !self.eat(Sign::Comma) {
                break;
            }
        }
        self.expect(Sign::CloseRound, Hint::CloseRound);
        self.expect(Sign::Arrow, Hint::Arrow);
        self.gather(mark)
    }
}
