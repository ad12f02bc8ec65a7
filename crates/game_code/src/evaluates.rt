//! The value of an expression.

ghost use Rattle.std.specs.Prelude.{◌≡◌, ◌∷◌, pos, Some, None};
ghost use Rattle.slot_values.specs.Spans.{first_over, gathered, greatest_with, put_together, sum_with};
ghost use Rattle.game_code.specs.Meaning.{value_of, values_of};
ghost use Rattle.game_code.specs.Setting.{setting_of};
ghost use Rattle.slot_values.specs.Values.{number_of, whole};

use crate::expression::{Expression, Locals};
use crate::lists::{cell_place, list_item, list_length};
use crate::scene::Sight;
use crate::words::{argument_at, local_at, size_of_value, word_value};
use slot_values::{
    Gather, Number, Value, count_between, greatest_with, is_true, next, number_of, operate,
    sum_with, truth, whole,
};

/// The value of an expression.
#[cycle(evaluate)]
pub fn evaluate(expression: &Expression, sight: &Sight, locals: &Locals) -> Value
    ensures { result ≡ value_of expression.now (setting_of sight.now.scene.now) sight.now.table.now sight.now.work.now (values_of locals.now) }
{
    match expression {
        Expression::Literal(value) => *value,
        Expression::Local(place) => local_at(locals, *place),
        Expression::Argument(place) => argument_at(sight.scene.arguments, *place),
        Expression::Word(word) => word_value(*word, sight.scene),
        Expression::Item(list, seat, at) => {
            let seat = number(seat, sight, locals);
            let at = number(at, sight, locals);
            list_item(*list, seat, at, sight)
        }
        Expression::Cell(row, column, columns) => {
            let row = number(row, sight, locals);
            let column = number(column, sight, locals);
            whole(cell_place(*columns, row, column))
        }
        Expression::Length(list, seat) => {
            let seat = number(seat, sight, locals);
            whole(list_length(*list, seat, sight))
        }
        Expression::Size(text) => size_of_value(&evaluate(text, sight, locals)),
        Expression::Not(test) => truth(!is_true(&evaluate(test, sight, locals))),
        Expression::Operate(operator, a, b) => {
            let a = evaluate(a, sight, locals);
            let b = evaluate(b, sight, locals);
            operate(*operator, &a, &b)
        }
        Expression::If(test, a, b) => {
            if is_true(&evaluate(test, sight, locals)) {
                evaluate(a, sight, locals)
            } else {
                evaluate(b, sight, locals)
            }
        }
        Expression::Let(value, body) => {
            let value = evaluate(value, sight, locals);
            evaluate(body, sight, &Locals::With(value, &*locals))
        }
        Expression::Gather(gather, most, from, to, body) => {
            let first = number(from, sight, locals);
            let count = count_between(*most, first, number(to, sight, locals));
            gathered_over(*gather, body, count, first, sight, locals)
        }
    }
}

/// The number that an expression is; none where it is null or a text.
#[cycle(evaluate)]
pub(crate) fn number(expression: &Expression, sight: &Sight, locals: &Locals) -> Number
    ensures { result ≡ number_of (value_of expression.now (setting_of sight.now.scene.now) sight.now.table.now sight.now.work.now (values_of locals.now)) }
{
    number_of(&evaluate(expression, sight, locals))
}

/// The value of an expression with a number as the newest local.
#[cycle(evaluate)]
fn evaluate_at(body: &Expression, i: Number, sight: &Sight, locals: &Locals) -> Value
    ensures { result ≡ value_of body.now (setting_of sight.now.scene.now) sight.now.table.now sight.now.work.now (whole i ∷ values_of locals.now) }
{
    evaluate(body, sight, &Locals::With(whole(i), &*locals))
}

/// What is gathered over so many numbers from one on.
#[cycle(evaluate)]
fn gathered_over(
    gather: Gather,
    body: &Expression,
    count: u32,
    first: Number,
    sight: &Sight,
    locals: &Locals,
) -> Value
    ensures { result ≡ gathered gather (λ i. value_of body.now (setting_of sight.now.scene.now) sight.now.table.now sight.now.work.now (whole i ∷ values_of locals.now)) count first }
{
    match gather {
        Gather::Any => truth(first_over(body, count, first, sight, locals).is_some()),
        Gather::First => whole(first_over(body, count, first, sight, locals)),
        Gather::Sum => whole(sum_over(body, count, first, sight, locals)),
        Gather::Greatest => whole(greatest_over(body, count, first, sight, locals)),
    }
}

/// The first of so many numbers from one on at which an expression is true. It looks no further.
#[cycle(evaluate)]
fn first_over(
    body: &Expression,
    count: u32,
    first: Number,
    sight: &Sight,
    locals: &Locals,
) -> Number
    ensures { result ≡ first_over (λ i. value_of body.now (setting_of sight.now.scene.now) sight.now.table.now sight.now.work.now (whole i ∷ values_of locals.now)) count first }
{
    let mut i = first;
    for _ in 0..count {
        if is_true(&evaluate_at(body, i, sight, locals)) {
            return i;
        }
        i = next(i);
    }
    None
}

/// The sum of an expression's numbers at so many numbers from one on.
#[cycle(evaluate)]
fn sum_over(body: &Expression, count: u32, first: Number, sight: &Sight, locals: &Locals) -> Number
    ensures { result ≡ put_together sum_with (λ i. value_of body.now (setting_of sight.now.scene.now) sight.now.table.now sight.now.work.now (whole i ∷ values_of locals.now)) count first (Some (pos 0)) }
{
    let mut so_far = Some(0);
    let mut i = first;
    for _ in 0..count {
        so_far = sum_with(so_far, number_of(&evaluate_at(body, i, sight, locals)));
        i = next(i);
    }
    so_far
}

/// The greatest of an expression's numbers at so many numbers from one on.
#[cycle(evaluate)]
fn greatest_over(
    body: &Expression,
    count: u32,
    first: Number,
    sight: &Sight,
    locals: &Locals,
) -> Number
    ensures { result ≡ put_together greatest_with (λ i. value_of body.now (setting_of sight.now.scene.now) sight.now.table.now sight.now.work.now (whole i ∷ values_of locals.now)) count first None }
{
    let mut so_far = None;
    let mut i = first;
    for _ in 0..count {
        so_far = greatest_with(so_far, number_of(&evaluate_at(body, i, sight, locals)));
        i = next(i);
    }
    so_far
}
