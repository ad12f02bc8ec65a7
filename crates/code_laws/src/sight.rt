//! What a seat's conditions may read: what the seat sees.

ghost use Rattle.std.specs.Prelude.{◌≡◌};
ghost use Rattle.code_laws.specs.Sight.{is_mover, is_seat, is_seen, reads_own};

use game_code::{Expression, ItemList, Word};

/// Whether an expression reads no secret slots, and of seats' slots those of the seat that moves alone.
pub fn reads_own(expression: &Expression) -> bool
    ensures { result ≡ reads_own expression.now }
{
    match expression {
        Expression::Literal(_)
        | Expression::Local(_)
        | Expression::Argument(_)
        | Expression::Word(_) => true,
        Expression::Item(list, seat, at) => is_seen(*list, seat)
            && reads_own(seat)
            && reads_own(at),
        Expression::Cell(row, column, _) => reads_own(row) && reads_own(column),
        Expression::Length(list, seat) => is_seen(*list, seat) && reads_own(seat),
        Expression::Size(text) => reads_own(text),
        Expression::Not(test) => reads_own(test),
        Expression::Operate(_, a, b) => reads_own(a) && reads_own(b),
        Expression::If(test, a, b) => reads_own(test) && reads_own(a) && reads_own(b),
        Expression::Let(value, body) => reads_own(value) && reads_own(body),
        Expression::Gather(_, _, from, to, body) => {
            reads_own(from) && reads_own(to) && reads_own(body)
        }
    }
}

/// Whether the seat that moves sees a list, of the seat that an expression is.
fn is_seen(list: ItemList, seat: &Expression) -> bool
    ensures { result ≡ is_seen list seat.now }
{
    match list {
        ItemList::Player(_) => is_mover(seat),
        ItemList::Secret(_) => false,
        _ => true,
    }
}

/// Whether an expression is the seat that moves, as it stands.
fn is_mover(seat: &Expression) -> bool
    ensures { result ≡ is_mover seat.now }
{
    match seat {
        Expression::Word(word) => is_seat(*word),
        _ => false,
    }
}

fn is_seat(word: Word) -> bool
    ensures { result ≡ is_seat word }
{
    match word {
        Word::Seat => true,
        _ => false,
    }
}
