//! Arguments that stand in a list: what is offered of them, and the test that they stand there.

use code_draft::{Bounds, Cost, Draft, Facts, Kind, ListDraft, ListFacts, Maker, Span};
use code_loader::CodedList;
use described_game::{ListedRow, NumberRange};
use game_code::{Expression, ItemList, Word};
use game_sheet::{List, NoMemory};
use slot_values::{Gather, Operator};
use std::alloc::Global;

/// The row of arguments that stand in a list, from the first one of these ranges on.
pub(crate) fn listed_row(
    alloc: Global,
    ranges: List<NumberRange>,
    list: &CodedList,
) -> Result<ListedRow, NoMemory> {
    let mut maker = Maker::new(alloc);
    let length = length_of(&mut maker, list);
    let item = item_of(&mut maker, list);
    if maker.starved() {
        drop(length);
        drop(item);
        drop(ranges);
        return Err(NoMemory);
    }
    Ok(ListedRow {
        ranges,
        length: expression_of(length),
        item: expression_of(item),
        most: list.most,
    })
}

/// A condition behind the test that the number of arguments is an item of a list. The first of them stands at a place.
pub(crate) fn when_listed(
    alloc: Global,
    ranges: &[NumberRange],
    first: u8,
    list: &CodedList,
    when: Expression,
) -> Result<Expression, NoMemory> {
    let mut maker = Maker::new(alloc);
    let test = has_number(&mut maker, ranges, first, list);
    let when = Draft {
        expression: when,
        facts: Facts::condition(Cost::LEAF),
    };
    let both = maker.and(test, when);
    if maker.starved() {
        drop(both);
        return Err(NoMemory);
    }
    Ok(expression_of(both))
}

/// Whether the number of arguments is an item of a list.
fn has_number(maker: &mut Maker, ranges: &[NumberRange], first: u8, list: &CodedList) -> Draft {
    let from = maker.number(0);
    let past = length_of(maker, list);
    let item = item_of(maker, list);
    let number = number_of(maker, ranges, first);
    let same = maker.operate(Operator::Equal, item, number);
    let span = Span {
        from,
        past,
        rounds: u32::from(list.most),
    };
    maker.gather(Gather::Any, span, same)
}

/// The number of arguments, the first of which stands at a place: how far each is above its least, the last one fastest.
fn number_of(maker: &mut Maker, ranges: &[NumberRange], first: u8) -> Draft {
    let mut number = maker.number(0);
    let mut place = first;
    for range in ranges {
        let size = maker.number(size_of(range));
        let product = maker.operate(Operator::Times, number, size);
        let further = distance(maker, range, place);
        number = maker.operate(Operator::Plus, product, further);
        place = place.saturating_add(1);
    }
    number
}

/// How far an argument is above its least.
fn distance(maker: &mut Maker, range: &NumberRange, place: u8) -> Draft {
    let value = maker.argument(place, Kind::Number, Bounds::UNKNOWN);
    let least = maker.number(range.least);
    maker.operate(Operator::Minus, value, least)
}

/// How many numbers a range has.
fn size_of(range: &NumberRange) -> i32 {
    let size = i64::from(range.greatest)
        .saturating_sub(i64::from(range.least))
        .saturating_add(1);
    i32::try_from(size).unwrap_or(i32::MAX)
}

/// How many items a list has.
fn length_of(maker: &mut Maker, list: &CodedList) -> Draft {
    let list = list_of(maker, list);
    maker.length(list)
}

/// The item of a list at the place that is the newest local.
fn item_of(maker: &mut Maker, list: &CodedList) -> Draft {
    let list = list_of(maker, list);
    let at = maker.local(0, Kind::Number, Bounds::UNKNOWN);
    let place = maker.item(list, at);
    maker.read(place)
}

/// A list; one that is a slot of a seat is of the seat that moves.
fn list_of(maker: &mut Maker, list: &CodedList) -> ListDraft {
    let facts = ListFacts {
        kind: Kind::Number,
        bounds: Bounds::UNKNOWN,
        most: list.most,
        columns: None,
        lone: false,
        fixed: true,
    };
    match list.list {
        ItemList::Player(slot) => {
            let seat = maker.word(Word::Seat, Bounds::UNKNOWN);
            maker.list_of(slot, seat, facts)
        }
        other => maker.list(other, facts),
    }
}

fn expression_of(draft: Draft) -> Expression {
    let Draft {
        expression,
        facts: _,
    } = draft;
    expression
}
