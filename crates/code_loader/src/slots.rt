//! Slots, lists and places in them.

use crate::drafter::Drafter;
use crate::scope::{Bound, Meaning, facts_of, seats_below, slot_named};
use crate::text::CodeText;
use crate::trouble::Trouble;
use crate::work::WorkRow;
use code_draft::{Bounds, Draft, Kind, ListDraft, ListFacts, PlaceDraft};
use game_code::{ItemList, Word};
use game_frame::{ConstantKind, SlotType};
use game_syntax::{FaultName, Hint, Id, Node, Shape, Span};

/// What is said of what is no list where a list is wanted.
#[derive(Clone, Copy)]
pub(crate) enum Wanted {
    /// A list, as `len` wants one.
    List,
    /// A list before an index.
    Indexed,
}

/// What is said of a list where a value is wanted.
#[derive(Clone, Copy)]
pub(crate) enum Whole {
    /// It is read.
    Read,
    /// It is assigned.
    Assigned,
}

/// A list that isn't there.
const NO_LIST: ListFacts = ListFacts {
    kind: Kind::Null,
    bounds: Bounds::UNKNOWN,
    most: 0,
    columns: None,
    lone: true,
    fixed: true,
};

/// How many seats a play order has at most.
const MOST_ORDER: u16 = 64;

impl Drafter<'_> {
    /// A slot or a list that a node names.
    #[cycle(value)]
    pub(crate) fn slot(
        &mut self,
        code: &CodeText<'_>,
        node: Node,
        wanted: Wanted,
        left: usize,
    ) -> ListDraft {
        match node.shape {
            Shape::Name(name) => self.bare_slot(code, name, wanted),
            Shape::Me(name) => self.own_slot(code, name, node.at),
            Shape::Secret(name) => self.secret_slot(code, name, node.at),
            Shape::Players(seat, name) => self.slot_of(code, seat, name, left),
            Shape::Order => self.order(code, node.at),
            _ => self.no_list(code, wanted, node.at),
        }
    }

    /// Refuses what is no list.
    fn no_list(&mut self, code: &CodeText<'_>, wanted: Wanted, at: usize) -> ListDraft {
        let trouble = match wanted {
            Wanted::List => Trouble::said(
                FaultName::WantsList,
                at,
                "a list is wanted here, and this is a value",
            ),
            Wanted::Indexed => Trouble::said(
                FaultName::NotAList,
                at,
                "an index stands behind a list, and this is a value",
            ),
        };
        self.fail(code, trouble);
        self.maker.list(ItemList::Order, NO_LIST)
    }

    fn absent(&mut self) -> ListDraft {
        self.maker.list(ItemList::Order, NO_LIST)
    }

    /// A slot of `common` or `work`, a var or a row of constants.
    fn bare_slot(&mut self, code: &CodeText<'_>, name: Span, wanted: Wanted) -> ListDraft {
        match self.meaning(code, name) {
            Meaning::Common(slot) => self.common_slot(slot),
            Meaning::Work(slot) => self.work_slot(code, slot, name.from),
            Meaning::Local(Bound::Slot(local)) => {
                self.maker.list(ItemList::Work(local.slot), local.facts)
            }
            Meaning::Constant(kind) => self.constant_row(code, kind, wanted, name.from),
            Meaning::Local(Bound::Value(_)) | Meaning::Argument(_) | Meaning::Code(_, _) => {
                self.no_list(code, wanted, name.from)
            }
            Meaning::Nothing => {
                self.unknown(code, name);
                self.absent()
            }
        }
    }

    fn common_slot(&mut self, slot: u8) -> ListDraft {
        let frame = self.frame;
        match frame.names.slots.common.get(usize::from(slot)) {
            Some(row) => {
                let facts = facts_of(&row.slot);
                self.maker.list(ItemList::Common(slot), facts)
            }
            None => self.absent(),
        }
    }

    /// A slot of `work`, which is one of the piece from its first use on.
    fn work_slot(&mut self, code: &CodeText<'_>, slot: u8, at: usize) -> ListDraft {
        if !self.sight.work {
            self.fail(
                code,
                Trouble::said(
                    FaultName::NoWorkHere,
                    at,
                    "slots of `work` live in `setup`, `do` and hooks alone",
                ),
            );
        }
        let frame = self.frame;
        match frame.names.slots.work.get(usize::from(slot)) {
            Some(row) => {
                let slot_type = row.slot;
                let place = self.work_place(code, slot, &slot_type, at);
                self.maker.list(ItemList::Work(place), facts_of(&slot_type))
            }
            None => self.absent(),
        }
    }

    /// The place of a slot of `work` in the piece.
    fn work_place(&mut self, code: &CodeText<'_>, slot: u8, of: &SlotType, at: usize) -> u8 {
        match self.work_of(slot) {
            Some(place) => place,
            None => match self.add_work(WorkRow::of(&of.row, Some(slot))) {
                Some(place) => place,
                None => self.too_many_vars(code, at),
            },
        }
    }

    pub(crate) fn too_many_vars(&mut self, code: &CodeText<'_>, at: usize) -> u8 {
        self.fail(
            code,
            Trouble::said(
                FaultName::TooManyVars,
                at,
                "a piece of code has at most 16 vars and slots of `work`, those of named code among them",
            ),
        );
        0
    }

    /// A row of constants.
    fn constant_row(
        &mut self,
        code: &CodeText<'_>,
        kind: ConstantKind,
        wanted: Wanted,
        at: usize,
    ) -> ListDraft {
        match kind {
            ConstantKind::Number(_) => self.no_list(code, wanted, at),
            ConstantKind::Numbers {
                row,
                least,
                greatest,
            } => {
                let bounds = Bounds::between(i64::from(least), i64::from(greatest));
                self.row(row, Kind::Number, bounds)
            }
            ConstantKind::Texts(row) => self.row(row, Kind::Text, Bounds::UNKNOWN),
        }
    }

    fn row(&mut self, row: u16, kind: Kind, bounds: Bounds) -> ListDraft {
        let facts = ListFacts {
            kind,
            bounds,
            most: self.row_length(row),
            columns: None,
            lone: false,
            fixed: true,
        };
        self.maker.list(ItemList::Constant(row), facts)
    }

    fn row_length(&self, row: u16) -> u16 {
        match self.frame.names.rows.as_slice().get(usize::from(row)) {
            Some(items) => u16::try_from(items.len()).unwrap_or(u16::MAX),
            None => 0,
        }
    }

    /// `me.NAME`
    fn own_slot(&mut self, code: &CodeText<'_>, name: Span, at: usize) -> ListDraft {
        if !self.sight.seat {
            self.no_seat(code, at);
        }
        let seat = self.mover();
        self.seat_slot(code, name, seat)
    }

    pub(crate) fn no_seat(&mut self, code: &CodeText<'_>, at: usize) {
        self.fail(
            code,
            Trouble::said(
                FaultName::NoSeatHere,
                at,
                "no seat moves here: write `players[e].` or `current`",
            ),
        );
    }

    fn mover(&mut self) -> Draft {
        let bounds = seats_below(self.most_seats());
        self.maker.word(Word::Seat, bounds)
    }

    /// A slot of a seat.
    fn seat_slot(&mut self, code: &CodeText<'_>, name: Span, seat: Draft) -> ListDraft {
        let frame = self.frame;
        let slots = &frame.names.slots.players;
        match slot_named(slots.as_slice(), code.letters(name)) {
            Some(slot) => {
                let facts = match slots.get(usize::from(slot)) {
                    Some(row) => facts_of(&row.slot),
                    None => NO_LIST,
                };
                self.maker.list_of(slot, seat, facts)
            }
            None => {
                self.unknown_slot(code, name);
                self.maker.list_of(0, seat, NO_LIST)
            }
        }
    }

    /// `players[e].NAME`
    #[cycle(value)]
    fn slot_of(&mut self, code: &CodeText<'_>, seat: Id, name: Span, left: usize) -> ListDraft {
        self.see_hidden(code, code.at(seat));
        let seat = self.number(code, seat, left);
        self.seat_slot(code, name, seat)
    }

    /// What is hidden has to be in sight, and is noted.
    fn see_hidden(&mut self, code: &CodeText<'_>, at: usize) {
        if !self.sight.hidden {
            self.fail(
                code,
                Trouble::said(
                    FaultName::ReadsHidden,
                    at,
                    "`when` and lists of arguments read `common` and `me.` alone",
                ),
            );
        }
        self.notes.hidden = true;
    }

    /// `secret.NAME`
    fn secret_slot(&mut self, code: &CodeText<'_>, name: Span, at: usize) -> ListDraft {
        self.see_hidden(code, at);
        let frame = self.frame;
        let slots = &frame.names.slots.secret;
        match slot_named(slots.as_slice(), code.letters(name)) {
            Some(slot) => {
                let facts = match slots.get(usize::from(slot)) {
                    Some(row) => facts_of(&row.slot),
                    None => NO_LIST,
                };
                self.maker.list(ItemList::Secret(slot), facts)
            }
            None => {
                self.unknown_slot(code, name);
                self.absent()
            }
        }
    }

    /// The play order.
    fn order(&mut self, code: &CodeText<'_>, at: usize) -> ListDraft {
        if !self.sight.context {
            self.no_context(code, at);
        }
        let facts = ListFacts {
            kind: Kind::Number,
            bounds: seats_below(self.most_seats()),
            most: MOST_ORDER,
            columns: None,
            lone: false,
            fixed: true,
        };
        self.maker.list(ItemList::Order, facts)
    }

    pub(crate) fn no_context(&mut self, code: &CodeText<'_>, at: usize) {
        self.fail(
            code,
            Trouble::said(
                FaultName::NoContextHere,
                at,
                "of the context `setup` sees `seats` alone",
            ),
        );
    }

    /// A list.
    #[cycle(value)]
    pub(crate) fn list(
        &mut self,
        code: &CodeText<'_>,
        id: Id,
        wanted: Wanted,
        left: usize,
    ) -> ListDraft {
        let node = code.node(id);
        let list = self.slot(code, node, wanted, left);
        if list.facts.lone {
            self.no_list_at(code, wanted, node.at);
        }
        list
    }

    fn no_list_at(&mut self, code: &CodeText<'_>, wanted: Wanted, at: usize) {
        let list = self.no_list(code, wanted, at);
        drop(list);
    }

    /// A place: a slot of one value, or an item of a list.
    #[cycle(value)]
    pub(crate) fn place(
        &mut self,
        code: &CodeText<'_>,
        node: Node,
        whole: Whole,
        left: usize,
    ) -> PlaceDraft {
        match node.shape {
            Shape::Index(list, at) => self.item_at(code, list, at, left),
            Shape::Cell(list, row, column) => self.cell_at(
                code,
                list,
                (row, column),
                node.at,
                left,
            ),
            _ => self.lone_slot(code, node, whole, left),
        }
    }

    #[cycle(value)]
    fn lone_slot(
        &mut self,
        code: &CodeText<'_>,
        node: Node,
        whole: Whole,
        left: usize,
    ) -> PlaceDraft {
        let slot = self.slot(code, node, Wanted::Indexed, left);
        if !slot.facts.lone {
            self.whole_list(code, whole, node.at);
        }
        self.maker.lone(slot)
    }

    /// Refuses a list without an index.
    pub(crate) fn whole_list(&mut self, code: &CodeText<'_>, whole: Whole, at: usize) {
        let trouble = match whole {
            Whole::Read => Trouble::hinted(FaultName::ListNeedsIndex, at, Hint::WriteIndex),
            Whole::Assigned => Trouble::hinted(FaultName::NotAssignable, at, Hint::NotWhole),
        };
        self.fail(code, trouble);
    }

    /// `list[e]`
    #[cycle(value)]
    fn item_at(&mut self, code: &CodeText<'_>, list: Id, at: Id, left: usize) -> PlaceDraft {
        let list = self.list(code, list, Wanted::Indexed, left);
        let at = self.number(code, at, left);
        self.maker.item(list, at)
    }

    /// `grid[row, column]`
    #[cycle(value)]
    fn cell_at(
        &mut self,
        code: &CodeText<'_>,
        list: Id,
        place: (Id, Id),
        at: usize,
        left: usize,
    ) -> PlaceDraft {
        let list = self.list(code, list, Wanted::Indexed, left);
        let columns = self.columns(code, list.facts.columns, at);
        let row = self.number(code, place.0, left);
        let column = self.number(code, place.1, left);
        self.maker.cell(list, columns, row, column)
    }

    /// How many columns a grid has.
    fn columns(&mut self, code: &CodeText<'_>, columns: Option<u16>, at: usize) -> u16 {
        match columns {
            Some(columns) => columns,
            None => {
                self.fail(
                    code,
                    Trouble::said(
                        FaultName::NotAGrid,
                        at,
                        "this list has no columns: write one index, or give it a type as [0..9; 6 by 7]",
                    ),
                );
                1
            }
        }
    }
}
