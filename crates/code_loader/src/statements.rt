//! Statements.
//!
//! Each function takes how many levels may still stand in one another; that number is its measure.

use crate::drafter::{Drafter, MOST_LEVELS};
use crate::rounds::Within;
use crate::scope::{Bound, Local, LocalSlot, Meaning, facts_of_row};
use crate::slots::{Wanted, Whole};
use crate::text::CodeText;
use crate::trouble::Trouble;
use crate::work::WorkRow;
use code_draft::{Bounds, Cost, Deed, Draft, Kind, ListDraft, PlaceDraft, Span as Rounds};
use game_code::{ItemList, Wish};
use game_frame::{ConstantKind, SlotType, TypeText};
use game_sheet::{Arg, PhaseId, SpecId, StageId};
use game_slots::{Count, ItemKind, SlotRow};
use game_syntax::{Change, EventWord, FaultName, Hint, Id, Many, Node, Shape, Span};
use slot_values::{Operator, Value};

/// Statements of a block, from a place on.
#[derive(Clone, Copy)]
struct Rest {
    all: Many,
    from: usize,
}

/// `let NAME = e;` or `let NAME = die(e);`
#[derive(Clone, Copy)]
struct Binding {
    name: Span,
    /// The value, or the number of faces of the die.
    value: Id,
    is_die: bool,
}

/// A let whose name is in sight.
#[derive(Drop)]
struct Entered {
    /// The value, or the number of faces of the die.
    value: Draft,
    is_die: bool,
    /// How many names there were before it.
    names: usize,
}

/// A loop whose name is in sight.
#[derive(Drop)]
struct Turns {
    span: Rounds,
    /// The item of each turn, where it goes over a list.
    item: Option<Draft>,
    /// Where its name stands.
    at: usize,
}

impl Drafter<'_> {
    /// A block.
    #[cycle(deed)]
    pub(crate) fn block_at(&mut self, code: &CodeText<'_>, id: Id, left: usize) -> Deed {
        match code.node(id).shape {
            Shape::Block(all) => {
                let names = self.names();
                let deed = self.block(code, Rest { all, from: 0 }, left);
                self.forget(names);
                deed
            }
            _ => self.statement(code, id, left),
        }
    }

    /// Statements from a place on. A let has what follows it inside.
    #[cycle(deed)]
    fn block(&mut self, code: &CodeText<'_>, rest: Rest, left: usize) -> Deed {
        if left == 0 {
            self.too_deep(code, at_of(code, rest));
            return Deed::nothing();
        }
        let mut row = self.maker.row();
        for place in rest.from..code.count(rest.all) {
            if self.halted() {
                break;
            }
            let id = code.child(rest.all, place).unwrap_or(0);
            if let Some(binding) = binding_at(code, id) {
                let after = Rest {
                    all: rest.all,
                    from: place.saturating_add(1),
                };
                let deed = self.bound_then(code, binding, after, left - 1);
                self.maker.add(&mut row, deed);
                break;
            }
            let deed = self.statement(code, id, left - 1);
            self.maker.add(&mut row, deed);
        }
        self.maker.joined(row)
    }

    /// A let and what follows.
    #[cycle(deed)]
    fn bound_then(
        &mut self,
        code: &CodeText<'_>,
        binding: Binding,
        after: Rest,
        left: usize,
    ) -> Deed {
        let entered = self.enter_let(code, binding);
        let rest = self.block(code, after, left);
        self.leave_let(entered, rest)
    }

    /// A statement that nothing has inside but its own blocks.
    #[cycle(deed)]
    fn statement(&mut self, code: &CodeText<'_>, id: Id, left: usize) -> Deed {
        if self.halted() {
            return Deed::nothing();
        }
        let node = code.node(id);
        let deed = match node.shape {
            Shape::If(test, block, other) => self.conditional(code, (test, block, other), left),
            Shape::For(binder, block) => self.repeated(code, binder, block, left),
            Shape::Call(name, arguments) => self.call_deed(code, name, arguments, left),
            _ => self.plain(code, node),
        };
        self.check_limits(code, deed.cost.depth, node.at);
        deed
    }

    /// `if e { .. } else ..`
    #[cycle(deed)]
    fn conditional(
        &mut self,
        code: &CodeText<'_>,
        parts: (Id, Id, Option<Id>),
        left: usize,
    ) -> Deed {
        if left == 0 {
            self.too_deep(code, code.at(parts.0));
            return Deed::nothing();
        }
        let test = self.condition(code, parts.0, MOST_LEVELS);
        let one = self.block_at(code, parts.1, left - 1);
        let other = match parts.2 {
            Some(id) => self.block_at(code, id, left - 1),
            None => Deed::nothing(),
        };
        self.maker.if_else(test, one, other)
    }

    /// `for x in .. { .. }`
    #[cycle(deed)]
    fn repeated(&mut self, code: &CodeText<'_>, binder: Id, block: Id, left: usize) -> Deed {
        if left == 0 {
            self.too_deep(code, code.at(binder));
            return Deed::nothing();
        }
        match self.enter_loop(code, binder) {
            Some(turns) => {
                let body = self.block_at(code, block, left - 1);
                self.leave_loop(code, turns, body)
            }
            None => Deed::nothing(),
        }
    }

    /// The name of a let is in sight from now on.
    fn enter_let(&mut self, code: &CodeText<'_>, binding: Binding) -> Entered {
        if binding.is_die {
            self.rolled(code, binding)
        } else {
            let names = self.names();
            let value = self.bound(code, binding.name, binding.value, MOST_LEVELS);
            Entered {
                value,
                is_die: false,
                names,
            }
        }
    }

    /// The name of a die's face is in sight from now on.
    fn rolled(&mut self, code: &CodeText<'_>, binding: Binding) -> Entered {
        self.check_name(code, binding.name);
        let faces = self.number(code, binding.value, MOST_LEVELS);
        self.notes.draws = true;
        let names = self.names();
        self.enter(binding.name, Kind::Number, Bounds::UNKNOWN);
        Entered {
            value: faces,
            is_die: true,
            names,
        }
    }

    /// A let with what follows, whose names are out of sight from now on.
    fn leave_let(&mut self, entered: Entered, rest: Deed) -> Deed {
        let Entered {
            value,
            is_die,
            names,
        } = entered;
        self.forget(names);
        self.shallower();
        if is_die {
            self.maker.roll_before(value, rest)
        } else {
            self.maker.let_before(value, rest)
        }
    }

    /// The name of a loop is in sight from now on; none where there is no loop.
    fn enter_loop(&mut self, code: &CodeText<'_>, binder: Id) -> Option<Turns> {
        match code.node(binder).shape {
            Shape::Within(name, from, to, last) => {
                let within = Within {
                    name,
                    from,
                    to,
                    last,
                };
                Some(self.over_numbers(code, within))
            }
            Shape::Among(name, list) => Some(self.over_items(code, name, list)),
            _ => None,
        }
    }

    /// `for x in a..b`
    fn over_numbers(&mut self, code: &CodeText<'_>, within: Within) -> Turns {
        let span = self.span(code, within, MOST_LEVELS);
        self.enter(within.name, Kind::Number, span.bounds());
        Turns {
            span,
            item: None,
            at: within.name.from,
        }
    }

    /// `for x in LIST`: the place is a value without a name, and the item one with it.
    fn over_items(&mut self, code: &CodeText<'_>, name: Span, list: Id) -> Turns {
        self.check_name(code, name);
        let span = self.places(code, list, MOST_LEVELS);
        self.deeper();
        let item = self.item_of(code, list, MOST_LEVELS);
        self.enter(name, item.facts.kind, item.facts.bounds);
        Turns {
            span,
            item: Some(item),
            at: name.from,
        }
    }

    /// A loop over its body, whose name is out of sight from now on.
    fn leave_loop(&mut self, code: &CodeText<'_>, turns: Turns, body: Deed) -> Deed {
        let Turns { span, item, at } = turns;
        self.leave();
        let body = self.with_item(item, body);
        let deed = self.maker.for_each(span, body);
        self.note_loop(code, at, deed.cost.steps);
        deed
    }

    /// The body of a loop with the item before it, where it goes over a list.
    fn with_item(&mut self, item: Option<Draft>, body: Deed) -> Deed {
        match item {
            Some(item) => {
                self.shallower();
                self.maker.let_before(item, body)
            }
            None => body,
        }
    }

    /// A statement without blocks.
    fn plain(&mut self, code: &CodeText<'_>, node: Node) -> Deed {
        match node.shape {
            Shape::Var(name, value) => self.var(code, name, value),
            Shape::VarSlot(name, slot) => self.var_slot(code, name, slot),
            Shape::Put(place, value) => self.put(code, place, value),
            Shape::PutDie(place, faces) => self.put_die(code, place, faces),
            Shape::Add(place, value) => self.put_more(code, place, value, Operator::Plus),
            Shape::Take(place, value) => self.put_more(code, place, value, Operator::Minus),
            Shape::Change(change, arguments) => self.change(code, change, arguments, node.at),
            Shape::Event(event, arguments) => self.event(code, event, arguments, node.at),
            _ => {
                self.fail(
                    code,
                    Trouble::hinted(FaultName::Syntax, node.at, Hint::Statement),
                );
                Deed::nothing()
            }
        }
    }

    /// `var NAME = e;`
    fn var(&mut self, code: &CodeText<'_>, name: Span, value: Id) -> Deed {
        self.check_name(code, name);
        let start = self.expression(code, value, MOST_LEVELS);
        self.want_value(code, start.facts.kind, code.at(value));
        let row = var_row(start.facts.kind);
        self.begin_var(code, name, row, None, start)
    }

    /// `var NAME: SLOT;`
    fn var_slot(&mut self, code: &CodeText<'_>, name: Span, slot: Id) -> Deed {
        self.check_name(code, name);
        let types = TypeText {
            text: code.text,
            tree: code.tree,
            known: self.known,
        };
        match types.slot(slot) {
            Ok(SlotType { row, columns }) => {
                let start = self.literal(&row.start);
                self.begin_var(code, name, row, columns, start)
            }
            Err(misfit) => {
                self.fail(code, Trouble::misfit(misfit));
                Deed::nothing()
            }
        }
    }

    /// A value as it stands there.
    pub(crate) fn literal(&mut self, value: &Value) -> Draft {
        match value {
            None => self.maker.null(),
            Some(Arg::Whole(number)) => self.maker.number(*number),
            Some(Arg::Text(text)) => self.maker.text(*text),
        }
    }

    /// A new slot of work with a name, which begins.
    fn begin_var(
        &mut self,
        code: &CodeText<'_>,
        name: Span,
        row: SlotRow,
        columns: Option<u16>,
        start: Draft,
    ) -> Deed {
        let slot = match self.add_work(WorkRow::of(&row, None)) {
            Some(slot) => slot,
            None => self.too_many_vars(code, name.from),
        };
        let facts = facts_of_row(&row, columns);
        self.call_it(Local {
            name,
            bound: Bound::Slot(LocalSlot { slot, facts }),
        });
        self.maker.begin(slot, start, items_of(&row))
    }

    /// What is assigned has to be one that changes.
    fn check_target(&mut self, code: &CodeText<'_>, id: Id) {
        let node = code.node(id);
        match node.shape {
            Shape::Name(name) => self.check_bare_target(code, name),
            Shape::Index(list, _) => self.check_changes(code, list),
            Shape::Cell(list, _, _) => self.check_changes(code, list),
            Shape::Order => self.fixed(code, node.at),
            _ => {}
        }
    }

    fn check_bare_target(&mut self, code: &CodeText<'_>, name: Span) {
        match self.meaning(code, name) {
            Meaning::Local(Bound::Value(_)) | Meaning::Argument(_) => self.fail(
                code,
                Trouble::hinted(FaultName::NotAssignable, name.from, Hint::LetIsFixed),
            ),
            Meaning::Constant(_) => self.fixed(code, name.from),
            _ => {}
        }
    }

    /// A list whose items are assigned has to be one that changes.
    fn check_changes(&mut self, code: &CodeText<'_>, list: Id) {
        let node = code.node(list);
        match node.shape {
            Shape::Order => self.fixed(code, node.at),
            Shape::Name(name) => match self.meaning(code, name) {
                Meaning::Constant(ConstantKind::Numbers { .. } | ConstantKind::Texts(_)) => {
                    self.fixed(code, name.from)
                }
                _ => {}
            },
            _ => {}
        }
    }

    fn fixed(&mut self, code: &CodeText<'_>, at: usize) {
        self.fail(
            code,
            Trouble::said(
                FaultName::NotAssignable,
                at,
                "constants and the play order stay as they are",
            ),
        );
    }

    /// A place that is assigned.
    fn target(&mut self, code: &CodeText<'_>, id: Id) -> PlaceDraft {
        self.check_target(code, id);
        let node = code.node(id);
        let place = self.place(code, node, Whole::Assigned, MOST_LEVELS);
        self.note_write(code, place.list, node.at);
        place
    }

    /// Notes where what not everybody sees is written first.
    fn note_write(&mut self, code: &CodeText<'_>, list: ItemList, at: usize) {
        match list {
            ItemList::Player(_) | ItemList::Secret(_) => {
                if self.notes.writes.is_none() {
                    let spot = self.spot(code, at);
                    self.notes.writes = Some(spot);
                }
            }
            _ => {}
        }
    }

    /// `PLACE = e;`
    fn put(&mut self, code: &CodeText<'_>, place: Id, value: Id) -> Deed {
        let target = self.target(code, place);
        let draft = self.expression(code, value, MOST_LEVELS);
        self.want_fitting(code, target.facts.kind, draft.facts.kind, code.at(value));
        self.maker.set(target, draft)
    }

    /// `PLACE = die(e);`: the place is made with the face as one more value in force.
    fn put_die(&mut self, code: &CodeText<'_>, place: Id, faces: Id) -> Deed {
        self.deeper();
        let target = self.target(code, place);
        self.shallower();
        self.want_number(code, target.facts.kind, code.at(place));
        let faces = self.number(code, faces, MOST_LEVELS);
        self.notes.draws = true;
        let face = self.maker.local(0, Kind::Number, Bounds::UNKNOWN);
        self.maker.roll_into(target, faces, face)
    }

    /// `PLACE += e;` and `PLACE -= e;`, in which the nodes of the place count once.
    fn put_more(&mut self, code: &CodeText<'_>, place: Id, value: Id, operator: Operator) -> Deed {
        let target = self.target(code, place);
        self.want_number(code, target.facts.kind, code.at(place));
        let nodes = self.maker.nodes();
        let again = self.target(code, place);
        self.maker.recount(nodes);
        let before = self.maker.read(again);
        let draft = self.number(code, value, MOST_LEVELS);
        let after = self.maker.operate(operator, before, draft);
        self.maker.set(target, after)
    }

    /// `push(..)` and the like.
    fn change(&mut self, code: &CodeText<'_>, change: Change, arguments: Many, at: usize) -> Deed {
        let first = code.child(arguments, 0).unwrap_or(0);
        let second = code.child(arguments, 1).unwrap_or(0);
        self.check_changes(code, first);
        let list = self.list(code, first, Wanted::List, MOST_LEVELS);
        self.note_write(code, list.list, at);
        match change {
            Change::Push => {
                let value = self.fitting(code, list.facts.kind, second);
                self.maker.push(list, value)
            }
            Change::Fill => {
                let value = self.fitting(code, list.facts.kind, second);
                self.maker.fill(list, value)
            }
            Change::Remove => {
                let place = self.number(code, second, MOST_LEVELS);
                self.maker.remove(list, place)
            }
            Change::Clear => self.maker.clear(list),
            Change::Shuffle => self.shuffle(list),
        }
    }

    fn shuffle(&mut self, list: ListDraft) -> Deed {
        self.notes.draws = true;
        self.maker.shuffle(list)
    }

    /// A value that a slot of a kind may hold.
    fn fitting(&mut self, code: &CodeText<'_>, kind: Kind, id: Id) -> Draft {
        let draft = self.expression(code, id, MOST_LEVELS);
        self.want_fitting(code, kind, draft.facts.kind, code.at(id));
        draft
    }

    /// `endTurn(..)` and the like.
    fn event(&mut self, code: &CodeText<'_>, event: EventWord, arguments: Many, at: usize) -> Deed {
        if !self.sight.events {
            self.fail(
                code,
                Trouble::said(
                    FaultName::NoContextHere,
                    at,
                    "`setup` queues no events: the match hasn't begun",
                ),
            );
        }
        let argument = code.child(arguments, 0);
        match event {
            EventWord::EndTurn => self.end_turn(code, argument, at),
            EventWord::Win => self.win(code, argument.unwrap_or(0)),
            EventWord::EndPhase => self.maker.queue(Wish::EndPhase, Cost::NOTHING),
            EventWord::EndStage => self.maker.queue(Wish::EndStage, Cost::NOTHING),
            EventWord::Draw => self.maker.queue(Wish::Draw, Cost::NOTHING),
            EventWord::End => self.maker.queue(Wish::End, Cost::NOTHING),
            EventWord::SetPhase | EventWord::SetStage | EventWord::SetActive => {
                self.set_named(code, event, argument.unwrap_or(0))
            }
        }
    }

    fn end_turn(&mut self, code: &CodeText<'_>, seat: Option<Id>, at: usize) -> Deed {
        if self.notes.ends_turn.is_none() {
            let spot = self.spot(code, at);
            self.notes.ends_turn = Some(spot);
        }
        match seat {
            None => self.end_turn_plainly(),
            Some(id) => {
                let Draft { expression, facts } = self.number(code, id, MOST_LEVELS);
                self.maker.queue(Wish::EndTurnTo(expression), facts.cost)
            }
        }
    }

    /// `endTurn()`, which counts as `endTurn(null)`.
    fn end_turn_plainly(&mut self) -> Deed {
        let Draft { expression, facts } = self.maker.null();
        drop(expression);
        self.maker.queue(Wish::EndTurn, facts.cost)
    }

    fn win(&mut self, code: &CodeText<'_>, seat: Id) -> Deed {
        let Draft { expression, facts } = self.number(code, seat, MOST_LEVELS);
        self.maker.queue(Wish::Win(expression), facts.cost)
    }

    /// `setPhase("..")` and the like.
    fn set_named(&mut self, code: &CodeText<'_>, event: EventWord, text: Id) -> Deed {
        let Shape::Text(name) = code.node(text).shape else {
            self.fail(
                code,
                Trouble::hinted(FaultName::Syntax, code.at(text), Hint::Text),
            );
            return Deed::nothing();
        };
        let (place, fault) = self.named_row(event, code.letters(name));
        match place {
            Some(place) => {
                let wish = wish_of(event, place);
                self.maker.queue(wish, Cost::NOTHING)
            }
            None => {
                self.fail(code, Trouble::about(fault, Hint::Named, name));
                Deed::nothing()
            }
        }
    }

    /// The place of what an event names, and the fault if there is none.
    fn named_row(&self, event: EventWord, name: &[u8]) -> (Option<u8>, FaultName) {
        match event {
            EventWord::SetPhase => (self.phase_named(name), FaultName::UnknownPhase),
            EventWord::SetStage => (self.stage_named(name), FaultName::UnknownStage),
            _ => (self.spec_named(name), FaultName::UnknownActive),
        }
    }

    /// The place of a phase.
    pub(crate) fn phase_named(&self, name: &[u8]) -> Option<u8> {
        for (place, row) in self.frame.sheet.phases.as_slice().iter().enumerate() {
            if row.name.as_str().as_bytes() == name {
                return u8::try_from(place).ok();
            }
        }
        None
    }

    fn stage_named(&self, name: &[u8]) -> Option<u8> {
        for (place, row) in self.frame.sheet.stages.as_slice().iter().enumerate() {
            if row.name.as_str().as_bytes() == name {
                return u8::try_from(place).ok();
            }
        }
        None
    }

    fn spec_named(&self, name: &[u8]) -> Option<u8> {
        for (place, row) in self.frame.specs.as_slice().iter().enumerate() {
            if row.name.as_str().as_bytes() == name {
                return u8::try_from(place).ok();
            }
        }
        None
    }
}

/// The let that a statement is, if it is one.
fn binding_at(code: &CodeText<'_>, id: Id) -> Option<Binding> {
    match code.node(id).shape {
        Shape::Let(name, value) => Some(Binding {
            name,
            value,
            is_die: false,
        }),
        Shape::LetDie(name, faces) => Some(Binding {
            name,
            value: faces,
            is_die: true,
        }),
        _ => None,
    }
}

/// Where the statements from a place on stand.
fn at_of(code: &CodeText<'_>, rest: Rest) -> usize {
    match code.child(rest.all, rest.from) {
        Some(id) => code.at(id),
        None => 0,
    }
}

fn wish_of(event: EventWord, place: u8) -> Wish {
    match event {
        EventWord::SetPhase => Wish::SetPhase(PhaseId::at(place)),
        EventWord::SetStage => Wish::SetStage(StageId::at(place)),
        _ => Wish::SetActive(SpecId::at(place)),
    }
}

/// What a var may hold that begins with a value of a kind: any number, or any text, and null.
fn var_row(kind: Kind) -> SlotRow {
    let kind = match kind {
        Kind::Text => ItemKind::Text,
        _ => ItemKind::Number {
            least: i32::MIN,
            greatest: i32::MAX,
        },
    };
    SlotRow {
        kind,
        null: true,
        start: None,
        begin: Count::Fixed(1),
        most: 1,
        lone: true,
    }
}

/// How many items count where a slot begins: none of one value.
pub(crate) fn items_of(row: &SlotRow) -> u16 {
    if row.lone { 0 } else { row.most }
}
