//! Names in sight, and what they mean.

use crate::text::CodeText;
use code_draft::{Bounds, Kind, ListFacts};
use game_frame::{ArgumentFrame, ArgumentKind, ConstantFrame, ConstantKind, SlotFrame, SlotType};
use game_slots::{ItemKind, SlotRow};
use game_syntax::Span;

/// A value that a name stands for.
#[derive(Clone, Copy)]
pub(crate) struct LocalValue {
    /// Its place among the values in force, the oldest first.
    pub(crate) level: usize,
    pub(crate) kind: Kind,
    pub(crate) bounds: Bounds,
}

/// A slot of work that a name stands for.
#[derive(Clone, Copy)]
pub(crate) struct LocalSlot {
    /// Its place among the slots of work of the piece.
    pub(crate) slot: u8,
    pub(crate) facts: ListFacts,
}

/// What a name of a let, a var, a binder or a parameter stands for.
#[derive(Clone, Copy)]
pub(crate) enum Bound {
    Value(LocalValue),
    Slot(LocalSlot),
}

/// A name that code gives.
#[derive(Clone, Copy)]
pub(crate) struct Local {
    pub(crate) name: Span,
    pub(crate) bound: Bound,
}

/// What a name means.
#[derive(Clone, Copy)]
pub(crate) enum Meaning {
    Local(Bound),
    Argument(u8),
    Constant(ConstantKind),
    Common(u8),
    Work(u8),
    /// Named code, by its place among all, and whether it is an expression.
    Code(usize, bool),
    Nothing,
}

/// The local with a name, the newest first.
pub(crate) fn local_named(locals: &[Local], code: &CodeText<'_>, letters: &[u8]) -> Option<Bound> {
    for local in locals.iter().rev() {
        if code.letters(local.name) == letters {
            return Some(local.bound);
        }
    }
    None
}

/// The slot with a name.
pub(crate) fn slot_named(slots: &[SlotFrame], letters: &[u8]) -> Option<u8> {
    for (place, row) in slots.iter().enumerate() {
        if row.name.as_str().as_bytes() == letters {
            return u8::try_from(place).ok();
        }
    }
    None
}

/// The argument with a name.
pub(crate) fn argument_named(arguments: &[ArgumentFrame], letters: &[u8]) -> Option<u8> {
    for (place, row) in arguments.iter().enumerate() {
        if row.name.as_str().as_bytes() == letters {
            return u8::try_from(place).ok();
        }
    }
    None
}

/// The constant with a name.
pub(crate) fn constant_named(constants: &[ConstantFrame], letters: &[u8]) -> Option<ConstantKind> {
    for row in constants {
        if row.name.as_str().as_bytes() == letters {
            return Some(row.kind);
        }
    }
    None
}

/// What is known of a slot.
pub(crate) fn facts_of(slot: &SlotType) -> ListFacts {
    facts_of_row(&slot.row, slot.columns)
}

/// What is known of a slot with a row.
pub(crate) fn facts_of_row(row: &SlotRow, columns: Option<u16>) -> ListFacts {
    ListFacts {
        kind: kind_of(row.kind),
        bounds: bounds_of(row.kind),
        most: row.most,
        columns,
        lone: row.lone,
        fixed: false,
    }
}

fn kind_of(kind: ItemKind) -> Kind {
    match kind {
        ItemKind::Number { .. } => Kind::Number,
        ItemKind::Text => Kind::Text,
    }
}

fn bounds_of(kind: ItemKind) -> Bounds {
    match kind {
        ItemKind::Number { least, greatest } => {
            Bounds::between(i64::from(least), i64::from(greatest))
        }
        ItemKind::Text => Bounds::UNKNOWN,
    }
}

/// The kind and the ends of an argument, in matches of so many seats at most.
pub(crate) fn argument_facts(kind: ArgumentKind, most_seats: u8) -> (Kind, Bounds) {
    match kind {
        ArgumentKind::Number { least, greatest } => (
            Kind::Number,
            Bounds::between(i64::from(least), i64::from(greatest)),
        ),
        ArgumentKind::Seat => (Kind::Number, seats_below(most_seats)),
        ArgumentKind::Text => (Kind::Text, Bounds::UNKNOWN),
    }
}

/// The ends of a seat, in matches of so many seats at most.
pub(crate) fn seats_below(most_seats: u8) -> Bounds {
    Bounds::between(0, i64::from(most_seats).saturating_sub(1))
}
