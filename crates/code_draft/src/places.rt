//! Slots, lists and places in them.

use crate::bounds::Bounds;
use crate::cost::Cost;
use crate::draft::{Draft, Facts, Kind};
use crate::maker::Maker;
use crate::nodes;
use game_code::{Expression, ItemList};
use game_sheet::Arg;

/// What is known of a slot or a list.
#[derive(Clone, Copy)]
pub struct ListFacts {
    /// What its items are.
    pub kind: Kind,
    /// The ends of its items.
    pub bounds: Bounds,
    /// How many items it has at most.
    pub most: u16,
    /// How many columns it has, if it is a grid.
    pub columns: Option<u16>,
    /// Whether it is one value and no list.
    pub lone: bool,
    /// Whether nothing changes it.
    pub fixed: bool,
}

/// A slot or a list that is named.
#[derive(Drop)]
pub struct ListDraft {
    /// Which one.
    pub list: ItemList,
    /// The seat that it is of, if it is one of a seat.
    pub seat: Expression,
    /// What naming it costs.
    pub cost: Cost,
    /// What is known of it.
    pub facts: ListFacts,
}

/// A place: a slot of one value, or an item of a list.
#[derive(Drop)]
pub struct PlaceDraft {
    /// In which list it is.
    pub list: ItemList,
    /// The seat that the list is of, if it is one of a seat.
    pub seat: Expression,
    /// The place in the list.
    pub at: Expression,
    /// What is known of the value there.
    pub facts: Facts,
}

impl ListFacts {
    /// What is known of an item, whose place costs so much.
    fn item(&self, cost: Cost) -> Facts {
        Facts {
            kind: self.kind,
            bounds: self.bounds,
            cost,
        }
    }
}

impl Maker {
    /// A slot or a list that isn't one of a seat.
    pub fn list(&mut self, list: ItemList, facts: ListFacts) -> ListDraft {
        self.count(1);
        ListDraft {
            list,
            seat: Expression::Literal(None),
            cost: Cost::LEAF,
            facts,
        }
    }

    /// A slot or a list of a seat.
    pub fn list_of(&mut self, slot: u8, seat: Draft, facts: ListFacts) -> ListDraft {
        self.count(1);
        let Draft {
            expression,
            facts: of_seat,
        } = seat;
        ListDraft {
            list: ItemList::Player(slot),
            seat: expression,
            cost: of_seat.cost.within(),
            facts,
        }
    }

    /// The place of a slot of one value.
    pub fn lone(&mut self, slot: ListDraft) -> PlaceDraft {
        let ListDraft {
            list,
            seat,
            cost,
            facts,
        } = slot;
        PlaceDraft {
            list,
            seat,
            at: Expression::Literal(Some(Arg::Whole(0))),
            facts: facts.item(cost),
        }
    }

    /// An item of a list.
    pub fn item(&mut self, list: ListDraft, at: Draft) -> PlaceDraft {
        self.count(1);
        let ListDraft {
            list,
            seat,
            cost,
            facts,
        } = list;
        let Draft {
            expression,
            facts: of_place,
        } = at;
        PlaceDraft {
            list,
            seat,
            at: expression,
            facts: facts.item(cost.and(of_place.cost).within()),
        }
    }

    /// The item of a grid of so many columns in a row and a column.
    pub fn cell(&mut self, list: ListDraft, columns: u16, row: Draft, column: Draft) -> PlaceDraft {
        let Draft {
            expression: first,
            facts: one,
        } = row;
        let Draft {
            expression: second,
            facts: other,
        } = column;
        let made = nodes::cell(self.alloc(), first, second, columns);
        let at = Draft {
            expression: self.made(made),
            facts: Facts::number(Bounds::UNKNOWN, one.cost.and(other.cost)),
        };
        self.item(list, at)
    }

    /// The value at a place.
    pub fn read(&mut self, place: PlaceDraft) -> Draft {
        let PlaceDraft {
            list,
            seat,
            at,
            facts,
        } = place;
        let made = nodes::item(self.alloc(), list, seat, at);
        self.kept(made, facts, 0)
    }

    /// How many items a list has.
    pub fn length(&mut self, list: ListDraft) -> Draft {
        let ListDraft {
            list,
            seat,
            cost,
            facts,
        } = list;
        let bounds = Bounds::between(0, i64::from(facts.most));
        let made = nodes::length(self.alloc(), list, seat);
        self.kept(made, Facts::number(bounds, cost.within()), 1)
    }
}
