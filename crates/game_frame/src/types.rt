//! Types of slots and ranges of arguments, with the numbers and starts that stand in them.

ghost use Rattle.std.specs.Prelude.{◌≡◌, true, IfOk};
ghost use Rattle.game_frame.specs.FrameFits.{begins_within, is_sound};

use crate::frame::{ArgumentKind, SlotType};
use crate::misfit::Misfit;
use game_file::{Constant, ConstantMember};
use game_sheet::{Arg, Short};
use game_slots::{Count, ItemKind, SlotRow, value_fits};
use game_syntax::{FaultName, Id, Node, Shape, Span, Tree};
use slot_values::Value;

/// The greatest count of items of a list.
const MOST_ITEMS: u16 = 1_024;

/// What types can name: constants, and how many seats there are.
#[derive(Clone, Copy)]
pub struct Known<'a> {
    /// The constants of the file.
    pub constants: &'a [ConstantMember],
    /// The greatest count of seats, 1 to 16.
    pub most_seats: u8,
}

/// A text with a type in it, and its tree.
#[derive(Clone, Copy)]
pub struct TypeText<'a> {
    /// The text.
    pub text: &'a str,
    /// Its tree.
    pub tree: &'a Tree,
    /// What it can name.
    pub known: Known<'a>,
}

/// What the items of a slot are.
#[derive(Clone, Copy)]
struct ItemType {
    kind: ItemKind,
    null: bool,
}

/// How many items a slot has.
#[derive(Clone, Copy)]
struct Extent {
    begin: Count,
    most: u16,
    columns: Option<u16>,
    lone: bool,
}

impl<'a> TypeText<'a> {
    /// What a slot is, by its node `Shape::Slot`. The start of each item is one that the slot may hold, and so are its items at the beginning.
    pub fn slot(&self, id: Id) -> Result<SlotType, Misfit>
        ensures { IfOk result (λ slot. is_sound self.now.known.most_seats slot.row ≡ true) }
    {
        let node = self.node(id)?;
        match node.shape {
            Shape::Slot(of, start) => self.slot_of(of, start, node.at),
            _ => Err(Misfit::shape(node.at)),
        }
    }

    fn slot_of(&self, of: Id, start: Option<Id>, at: usize) -> Result<SlotType, Misfit>
        ensures { IfOk result (λ slot. is_sound self.now.known.most_seats slot.row ≡ true) }
    {
        let item_id = self.item_of(of)?;
        let item = self.item(item_id)?;
        let extent = self.extent(of)?;
        match self.start(item, start) {
            Ok(value) => self.slot_with(
                extent,
                slot_row(item, extent, value),
                self.place(start, at),
            ),
            Err(misfit) => Err(misfit),
        }
    }

    /// The slot of a row, if it may hold what it begins with.
    fn slot_with(&self, extent: Extent, row: SlotRow, at: usize) -> Result<SlotType, Misfit>
        ensures { IfOk result (λ slot. is_sound self.now.known.most_seats slot.row ≡ true) }
    {
        if is_sound(&row, self.known.most_seats) {
            return Ok(SlotType {
                row,
                columns: extent.columns,
            });
        }
        Err(Misfit::new(
            FaultName::StartOutsideRange,
            at,
            "a start is a value that the slot may hold",
        ))
    }

    /// The byte where a start stands, or the slot where there is none.
    fn place(&self, start: Option<Id>, at: usize) -> usize {
        match start {
            Some(id) => self.at(id),
            None => at,
        }
    }

    /// The byte where a node stands.
    pub(crate) fn at(&self, id: Id) -> usize {
        match self.tree.node(id) {
            Some(node) => node.at,
            None => 0,
        }
    }

    pub(crate) fn node(&self, id: Id) -> Result<Node, Misfit> {
        match self.tree.node(id) {
            Some(node) => Ok(node),
            None => Err(Misfit::shape(0)),
        }
    }

    /// The bytes of a name or a text.
    pub(crate) fn said(&self, span: Span) -> &'a [u8] {
        let bytes = self.text.as_bytes();
        bytes.get(span.from..span.past).unwrap_or(&[])
    }

    /// What the items of a type are, as a node.
    fn item_of(&self, of: Id) -> Result<Id, Misfit> {
        let node = self.node(of)?;
        match node.shape {
            Shape::List(item, _) => Ok(item),
            Shape::AtMost(item, _) => Ok(item),
            Shape::Grid(item, _, _) => Ok(item),
            Shape::Seats(item) => Ok(item),
            Shape::SeatsBy(item, _) => Ok(item),
            Shape::AtMostSeats(item) => Ok(item),
            _ => Ok(of),
        }
    }

    fn item(&self, id: Id) -> Result<ItemType, Misfit> {
        let node = self.node(id)?;
        match node.shape {
            Shape::Nullable(of) => self.item_type(of, true),
            _ => self.item_type(id, false),
        }
    }

    fn item_type(&self, id: Id, null: bool) -> Result<ItemType, Misfit> {
        let range = self.range(id)?;
        Ok(ItemType {
            kind: item_kind(range, self.known.most_seats),
            null,
        })
    }

    /// What a range is: numbers, seats or texts.
    pub(crate) fn range(&self, id: Id) -> Result<ArgumentKind, Misfit> {
        let node = self.node(id)?;
        match node.shape {
            Shape::Range(from, to, last) => self.numbers(from, to, last),
            Shape::Seat => Ok(ArgumentKind::Seat),
            Shape::AnyText => Ok(ArgumentKind::Text),
            _ => Err(Misfit::shape(node.at)),
        }
    }

    fn numbers(&self, from: Id, to: Id, last: bool) -> Result<ArgumentKind, Misfit> {
        let least = self.number(from)?;
        let end = self.number(to)?;
        match greatest(least, end, last) {
            Some(greatest) => Ok(ArgumentKind::Number { least, greatest }),
            None => Err(Misfit::new(
                FaultName::EmptyRange,
                self.at(from),
                "a range begins with its least number, as 1..9",
            )),
        }
    }

    /// The number that a node is: one that is written there, or a constant.
    fn number(&self, id: Id) -> Result<i32, Misfit> {
        let node = self.node(id)?;
        match node.shape {
            Shape::Number(number) => Ok(number),
            Shape::Name(name) => self.constant(name),
            Shape::Negate(of) => self.negative(of),
            _ => Err(Misfit::shape(node.at)),
        }
    }

    /// The negative of a constant.
    fn negative(&self, of: Id) -> Result<i32, Misfit> {
        let node = self.node(of)?;
        match node.shape {
            Shape::Name(name) => negated(self.constant(name)?, node.at),
            _ => Err(Misfit::shape(node.at)),
        }
    }

    /// The constant with a name, which has to be a number.
    fn constant(&self, name: Span) -> Result<i32, Misfit> {
        let letters = self.said(name);
        for row in self.known.constants {
            if row.name.as_str().as_bytes() == letters {
                return number_in(&row.value, name.from);
            }
        }
        Err(Misfit::new(
            FaultName::UnknownName,
            name.from,
            "no constant has this name",
        ))
    }

    fn extent(&self, of: Id) -> Result<Extent, Misfit> {
        let node = self.node(of)?;
        match node.shape {
            Shape::List(_, count) => self.list(count),
            Shape::AtMost(_, count) => self.list_at_most(count),
            Shape::Grid(_, rows, columns) => self.grid(rows, columns),
            Shape::Seats(_) => Ok(self.one_a_seat()),
            Shape::SeatsBy(_, columns) => self.row_a_seat(columns),
            Shape::AtMostSeats(_) => Ok(at_most(u16::from(self.known.most_seats))),
            _ => Ok(LONE),
        }
    }

    /// How many items a part of a list has.
    fn count(&self, id: Id) -> Result<u16, Misfit> {
        let number = self.number(id)?;
        match u16::try_from(number) {
            Ok(count) if count >= 1 && count <= MOST_ITEMS => Ok(count),
            _ => Err(bad_length(self.at(id))),
        }
    }

    fn list(&self, count: Id) -> Result<Extent, Misfit> {
        let count = self.count(count)?;
        Ok(Extent {
            begin: Count::Fixed(count),
            most: count,
            columns: None,
            lone: false,
        })
    }

    fn list_at_most(&self, count: Id) -> Result<Extent, Misfit> {
        let count = self.count(count)?;
        Ok(at_most(count))
    }

    fn grid(&self, rows: Id, columns: Id) -> Result<Extent, Misfit> {
        let count = self.count(rows)?;
        let width = self.count(columns)?;
        let most = items(count, width, self.at(rows))?;
        Ok(Extent {
            begin: Count::Fixed(most),
            most,
            columns: Some(width),
            lone: false,
        })
    }

    fn one_a_seat(&self) -> Extent {
        Extent {
            begin: Count::PerSeat(1),
            most: u16::from(self.known.most_seats),
            columns: None,
            lone: false,
        }
    }

    fn row_a_seat(&self, columns: Id) -> Result<Extent, Misfit> {
        let width = self.count(columns)?;
        let most = items(u16::from(self.known.most_seats), width, self.at(columns))?;
        Ok(Extent {
            begin: Count::PerSeat(width),
            most,
            columns: Some(width),
            lone: false,
        })
    }

    /// What an item starts as: as is written, or null, the number nearest to 0, or the empty text.
    fn start(&self, item: ItemType, start: Option<Id>) -> Result<Value, Misfit> {
        match start {
            Some(id) => self.literal(id),
            None => Ok(first_value(item)),
        }
    }

    /// A start, or what is offered.
    pub(crate) fn literal(&self, id: Id) -> Result<Value, Misfit> {
        let node = self.node(id)?;
        match node.shape {
            Shape::Null => Ok(None),
            Shape::Text(span) => self.short(span),
            _ => Ok(Some(Arg::Whole(self.number(id)?))),
        }
    }

    fn short(&self, span: Span) -> Result<Value, Misfit> {
        match Short::of(self.said(span)) {
            Some(text) => Ok(Some(Arg::Text(text))),
            None => Err(Misfit::new(
                FaultName::LongText,
                span.from,
                "a text has at most 64 bytes",
            )),
        }
    }
}

/// A slot of one value.
const LONE: Extent = Extent {
    begin: Count::Fixed(1),
    most: 1,
    columns: None,
    lone: true,
};

/// A list that begins empty.
fn at_most(most: u16) -> Extent {
    Extent {
        begin: Count::Fixed(0),
        most,
        columns: None,
        lone: false,
    }
}

fn bad_length(at: usize) -> Misfit {
    Misfit::new(FaultName::BadLength, at, "a list has 1 to 1,024 items")
}

/// How many items a grid has.
fn items(rows: u16, columns: u16, at: usize) -> Result<u16, Misfit> {
    match u16::try_from(u32::from(rows) * u32::from(columns)) {
        Ok(count) if count <= MOST_ITEMS => Ok(count),
        _ => Err(bad_length(at)),
    }
}

/// The last number of a range, if it has numbers.
fn greatest(least: i32, end: i32, last: bool) -> Option<i32> {
    let greatest = if last { end } else { end.checked_sub(1)? };
    if least <= greatest {
        Some(greatest)
    } else {
        None
    }
}

fn negated(number: i32, at: usize) -> Result<i32, Misfit> {
    match number.checked_neg() {
        Some(number) => Ok(number),
        None => Err(Misfit::new(FaultName::OutOfRange, at, "a number has 32 bits")),
    }
}

fn number_in(constant: &Constant, at: usize) -> Result<i32, Misfit> {
    match constant {
        Constant::Number(number) => Ok(*number),
        _ => Err(Misfit::new(
            FaultName::WantsNumber,
            at,
            "this constant is a row, and no number",
        )),
    }
}

/// What the items of a slot are whose range is given, in matches of so many seats at most.
pub(crate) fn item_kind(range: ArgumentKind, most_seats: u8) -> ItemKind {
    match range {
        ArgumentKind::Number { least, greatest } => ItemKind::Number { least, greatest },
        ArgumentKind::Seat => ItemKind::Number {
            least: 0,
            greatest: i32::from(most_seats.saturating_sub(1)),
        },
        ArgumentKind::Text => ItemKind::Text,
    }
}

fn first_value(item: ItemType) -> Value {
    if item.null {
        return None;
    }
    match item.kind {
        ItemKind::Number { least, greatest } => Some(Arg::Whole(nearest(least, greatest))),
        ItemKind::Text => empty_text(),
    }
}

/// The number of a range that is nearest to 0.
fn nearest(least: i32, greatest: i32) -> i32 {
    if least > 0 {
        least
    } else if greatest < 0 {
        greatest
    } else {
        0
    }
}

fn empty_text() -> Value {
    match Short::of(&[]) {
        Some(text) => Some(Arg::Text(text)),
        None => None,
    }
}

fn slot_row(item: ItemType, extent: Extent, start: Value) -> SlotRow {
    SlotRow {
        kind: item.kind,
        null: item.null,
        start,
        begin: extent.begin,
        most: extent.most,
        lone: extent.lone,
    }
}

/// Whether a slot may hold its start, and begins with no more items than it may have.
fn is_sound(row: &SlotRow, most_seats: u8) -> bool
    ensures { result ≡ is_sound most_seats row.now }
{
    value_fits(row, &row.start) && begins_within(row, most_seats) && row.most <= MOST_ITEMS
}

/// Whether a slot begins with no more items than it may have.
fn begins_within(row: &SlotRow, most_seats: u8) -> bool
    ensures { result ≡ begins_within most_seats row.now }
{
    match row.begin {
        Count::Fixed(count) => count <= row.most,
        Count::PerSeat(count) => { u32::from(count) * u32::from(most_seats) <= u32::from(row.most) }
    }
}
