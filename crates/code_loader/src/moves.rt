//! The code of moves.

use crate::drafter::{Drafter, MOST_LEVELS};
use crate::pieces::{CodedPiece, CodedValue, MOST_STEPS, PieceCost, Purpose, Surroundings, passed};
use crate::scope::argument_facts;
use crate::sight::{CodeSight, Notes};
use crate::slots::Wanted;
use crate::text::CodeText;
use crate::trouble::Trouble;
use code_draft::{Draft, Kind};
use game_code::{Expression, ItemList, Piece};
use game_file::{MoveMember, Source, Unread};
use game_frame::{ArgumentFrame, ArgumentKind, ListFrame, MoveFrame};
use game_sheet::List;
use game_syntax::FaultName;
use slot_values::{Gather, Operator};

/// The greatest count of rows of arguments of one move.
const MOST_ROWS: u64 = 4_096;

/// The code of a move.
#[derive(Drop)]
pub struct CodedMove {
    /// Whether it is allowed, beside the lists of its arguments.
    pub when: Expression,
    /// The lists in which the numbers of arguments have to be, in the order of the frame's.
    pub lists: List<CodedList>,
    /// What it does.
    pub code: Piece,
    /// Whether what it does draws no words and names nothing that is hidden.
    pub is_open: bool,
    /// What it takes.
    pub cost: MoveCost,
}

/// What a move takes at most.
#[derive(Clone, Copy)]
pub struct MoveCost {
    /// Steps of `when`.
    pub own: u64,
    /// Steps of `when` with the lists of its arguments.
    pub when: u64,
    /// What it does.
    pub deed: PieceCost,
    /// How many rows of arguments are offered.
    pub rows: u64,
    /// Steps of all offers of the move.
    pub offers: u64,
}

/// A list in which the number of arguments has to be. One that is a slot of a seat is of the seat that moves.
#[derive(Clone, Copy)]
pub struct CodedList {
    /// The list.
    pub list: ItemList,
    /// How many items it has at most.
    pub most: u16,
}

/// A move as the file and the frame have it.
#[derive(Clone, Copy)]
pub(crate) struct MoveAt<'a> {
    pub(crate) member: &'a MoveMember,
    pub(crate) frame: &'a MoveFrame,
}

/// What the lists of a move take.
#[derive(Clone, Copy)]
struct ListsCost {
    /// Steps of the tests whether they have the numbers.
    tests: u64,
    /// Steps of going over each once.
    passes: u64,
}

/// The lists of a move, with what they take.
#[derive(Drop)]
struct Lists {
    lists: List<CodedList>,
    cost: ListsCost,
}

impl<'a> Drafter<'a> {
    /// The code of a move: its lists, `when` and `do` in this order, and then what has to be said of it.
    pub(crate) fn coded_move(&mut self, at: MoveAt<'a>) -> Result<CodedMove, Unread> {
        let lists = self.lists(at)?;
        match self.when(at) {
            Ok(when) => self.move_with(at, lists, when),
            Err(unread) => {
                drop(lists);
                Err(unread)
            }
        }
    }

    fn move_with(
        &mut self,
        at: MoveAt<'a>,
        lists: Lists,
        when: CodedValue,
    ) -> Result<CodedMove, Unread> {
        match self.deed(at) {
            Ok(deed) => self.move_of(at, lists, when, deed),
            Err(unread) => {
                drop(lists);
                drop(when);
                Err(unread)
            }
        }
    }

    /// A move of its parts, if it is within its limits.
    fn move_of(
        &mut self,
        at: MoveAt<'a>,
        lists: Lists,
        when: CodedValue,
        deed: CodedPiece,
    ) -> Result<CodedMove, Unread> {
        let notes = self.noted();
        let cost = move_cost(at, &lists, when.steps, deed.cost, self.most_seats());
        let fault = self.move_fault(at, &cost);
        let coded = CodedMove {
            when: when_of(when),
            lists: lists_of(lists),
            code: piece_of(deed),
            is_open: is_open(&notes),
            cost,
        };
        match fault {
            None => Ok(coded),
            Some(fault) => {
                drop(coded);
                Err(fault)
            }
        }
    }

    /// The first limit that a move passes.
    fn move_fault(&self, at: MoveAt<'a>, cost: &MoveCost) -> Option<Unread> {
        let alloc = self.maker.alloc();
        let path = at.member.title.path.as_str();
        if cost.when > MOST_STEPS {
            let name = FaultName::TooCostly;
            return Some(passed(alloc, name, path, cost.when, "steps of `when`", MOST_STEPS));
        }
        if cost.rows > MOST_ROWS {
            let name = FaultName::TooManyOffers;
            let what =
                "rows of arguments (say what is offered by `offer [..]`, or name a list by `in`)";
            return Some(passed(alloc, name, path, cost.rows, what, MOST_ROWS));
        }
        None
    }

    /// Whether a move is allowed.
    fn when(&mut self, at: MoveAt<'a>) -> Result<CodedValue, Unread> {
        let around = Surroundings {
            sight: CodeSight::WHEN,
            arguments: at.frame.arguments.as_slice(),
        };
        match at.member.when.source() {
            Some(source) => self.value(source, Purpose::Condition, around),
            None => {
                let Draft { expression, facts } = self.maker.yes();
                Ok(CodedValue {
                    expression,
                    steps: facts.cost.steps,
                })
            }
        }
    }

    /// What a move does.
    fn deed(&mut self, at: MoveAt<'a>) -> Result<CodedPiece, Unread> {
        let around = Surroundings {
            sight: CodeSight::MOVE,
            arguments: at.frame.arguments.as_slice(),
        };
        let deed = self.piece(&at.member.deed, around)?;
        match self.said_fault(at) {
            None => Ok(deed),
            Some(fault) => {
                drop(deed);
                Err(fault)
            }
        }
    }

    /// What has to be said of a move, or may not stand in it, by what was noted.
    fn said_fault(&self, at: MoveAt<'a>) -> Option<Unread> {
        let source = at.member.deed.source()?;
        let notes = self.noted();
        if at.frame.ends_turn
            && let Some(spot) = notes.ends_turn
        {
            return Some(self.told_at(
                source,
                FaultName::EndsTwice,
                spot,
                "with `maxMoves = 1` the turn ends by itself: leave `maxMoves` out, or this `endTurn`",
            ));
        }
        if !at.frame.arguments.is_empty()
            && at.member.says.redact.is_none()
            && let Some(spot) = notes.writes
        {
            return Some(self.told_at(
                source,
                FaultName::SayRedact,
                spot,
                "this writes what not everybody sees: say `redact = true` if others may not see the move's arguments, else `redact = false`",
            ));
        }
        None
    }

    /// The lists in which the numbers of arguments have to be.
    fn lists(&mut self, at: MoveAt<'a>) -> Result<Lists, Unread> {
        let mut lists = List::new(self.maker.alloc());
        let mut cost = ListsCost {
            tests: 0,
            passes: 0,
        };
        for row in at.frame.lists.as_slice() {
            let (list, of) = self.listed(at, row)?;
            lists.push(list)?;
            cost = ListsCost {
                tests: cost.tests.saturating_add(of.tests),
                passes: cost.passes.saturating_add(of.passes),
            };
        }
        Ok(Lists { lists, cost })
    }

    /// One list.
    fn listed(
        &mut self,
        at: MoveAt<'a>,
        row: &'a ListFrame,
    ) -> Result<(CodedList, ListsCost), Unread> {
        match at.member.args.get(usize::from(row.text)) {
            Some(source) => self.listed_in(at, row, source),
            None => Err(Unread::NoMemory),
        }
    }

    fn listed_in(
        &mut self,
        at: MoveAt<'a>,
        row: &'a ListFrame,
        source: &Source,
    ) -> Result<(CodedList, ListsCost), Unread> {
        self.begin(CodeSight::WHEN, at.frame.arguments.as_slice());
        let text = CodeText {
            text: source.text.as_str(),
            tree: &row.tree,
            code: None,
        };
        let list = self.list(&text, row.list, Wanted::List, MOST_LEVELS);
        self.want_numbers(&text, list.facts.kind, text.at(row.list));
        let test = self.has_number(&text, row);
        let cost = ListsCost {
            tests: test.facts.cost.steps.saturating_add(1),
            passes: list
                .cost
                .steps
                .saturating_add(1)
                .saturating_add(u64::from(list.facts.most)),
        };
        let coded = CodedList {
            list: list.list,
            most: list.facts.most,
        };
        drop(test);
        drop(list);
        match self.stopped() {
            None => Ok((coded, cost)),
            Some(stop) => Err(self.told(stop, source)),
        }
    }

    /// A list of arguments has to be one of numbers.
    fn want_numbers(&mut self, code: &CodeText<'_>, kind: Kind, at: usize) {
        if kind == Kind::Text {
            self.fail(
                code,
                Trouble::said(
                    FaultName::WantsNumber,
                    at,
                    "arguments stand in a list of numbers, and this one is of texts",
                ),
            );
        }
    }

    /// Whether a list has the number of its arguments.
    fn has_number(&mut self, code: &CodeText<'_>, row: &ListFrame) -> Draft {
        self.deeper();
        let span = self.places(code, row.list, MOST_LEVELS);
        self.deeper();
        let item = self.item_of(code, row.list, MOST_LEVELS);
        self.shallower();
        self.shallower();
        let number = self.number_of(row);
        let test = self.found_in(Gather::Any, span, item, number);
        self.check_limits(code, test.facts.cost.depth, code.at(row.list));
        test
    }

    /// The number of the arguments of a list.
    fn number_of(&mut self, row: &ListFrame) -> Draft {
        let mut number = self.distance(row.first);
        for place in row.first.saturating_add(1)..row.past {
            number = self.number_with(number, place);
        }
        number
    }

    /// The number so far with a further argument.
    fn number_with(&mut self, number: Draft, place: u8) -> Draft {
        let size = self.size_of(place);
        let size = self.maker.number(size);
        let product = self.maker.operate(Operator::Times, number, size);
        let further = self.distance(place);
        self.maker.operate(Operator::Plus, product, further)
    }

    /// How far an argument is above its least.
    fn distance(&mut self, place: u8) -> Draft {
        let arguments = self.arguments;
        match arguments.get(usize::from(place)) {
            Some(argument) => {
                let (kind, bounds) = argument_facts(argument.kind, self.most_seats());
                let least = least_of(argument.kind);
                let value = self.maker.argument(place, kind, bounds);
                if least == 0 {
                    return value;
                }
                let least = self.maker.number(least);
                self.maker.operate(Operator::Minus, value, least)
            }
            None => Draft::blank(),
        }
    }

    /// How many values an argument may have.
    fn size_of(&self, place: u8) -> i32 {
        match self.arguments.get(usize::from(place)) {
            Some(argument) => {
                let size = values_of(argument.kind, self.most_seats());
                i32::try_from(size).unwrap_or(i32::MAX)
            }
            None => 1,
        }
    }
}

fn when_of(when: CodedValue) -> Expression {
    let CodedValue {
        expression,
        steps: _,
    } = when;
    expression
}

fn lists_of(lists: Lists) -> List<CodedList> {
    let Lists { lists, cost: _ } = lists;
    lists
}

fn piece_of(piece: CodedPiece) -> Piece {
    let CodedPiece { piece, cost: _ } = piece;
    piece
}

/// Whether code draws no words and names nothing that is hidden.
pub(crate) fn is_open(notes: &Notes) -> bool {
    !notes.draws && !notes.hidden
}

fn least_of(kind: ArgumentKind) -> i32 {
    match kind {
        ArgumentKind::Number { least, .. } => least,
        ArgumentKind::Seat | ArgumentKind::Text => 0,
    }
}

/// How many values an argument may have, in matches of so many seats at most; none of a text.
fn values_of(kind: ArgumentKind, most_seats: u8) -> u64 {
    match kind {
        ArgumentKind::Number { least, greatest } => {
            let size = i64::from(greatest)
                .saturating_sub(i64::from(least))
                .saturating_add(1);
            u64::try_from(size).unwrap_or(0)
        }
        ArgumentKind::Seat => u64::from(most_seats),
        ArgumentKind::Text => 0,
    }
}

/// How many values of an argument are offered.
fn offers_of(argument: &ArgumentFrame, most_seats: u8) -> u64 {
    match &argument.offered {
        Some(items) => u64::try_from(items.len()).unwrap_or(u64::MAX),
        None => values_of(argument.kind, most_seats),
    }
}

/// What a move takes.
fn move_cost(at: MoveAt<'_>, lists: &Lists, own: u64, deed: PieceCost, most_seats: u8) -> MoveCost {
    let rows = rows_of(at.frame, lists.lists.as_slice(), most_seats);
    let each = rows.saturating_mul(own.saturating_add(1));
    MoveCost {
        own,
        when: own.saturating_add(lists.cost.tests),
        deed,
        rows,
        offers: each.saturating_add(lists.cost.passes),
    }
}

/// How many rows of arguments are offered: the product of the offers of each, or of those in a list as many as it has items.
fn rows_of(frame: &MoveFrame, lists: &[CodedList], most_seats: u8) -> u64 {
    let mut rows = 1;
    for (place, argument) in frame.arguments.as_slice().iter().enumerate() {
        if !is_listed(frame, place) {
            rows = saturating_product(rows, offers_of(argument, most_seats));
        }
    }
    for (place, row) in frame.lists.as_slice().iter().enumerate() {
        let most = match lists.get(place) {
            Some(list) => u64::from(list.most),
            None => 0,
        };
        rows = saturating_product(rows, product_of(frame, row, most_seats).min(most));
    }
    rows
}

fn saturating_product(one: u64, other: u64) -> u64 {
    one.saturating_mul(other)
}

/// Whether an argument is one in a list.
fn is_listed(frame: &MoveFrame, place: usize) -> bool {
    for row in frame.lists.as_slice() {
        if usize::from(row.first) <= place && place < usize::from(row.past) {
            return true;
        }
    }
    false
}

/// How many rows the ranges of arguments in a list have.
fn product_of(frame: &MoveFrame, row: &ListFrame, most_seats: u8) -> u64 {
    let mut product = 1;
    for place in row.first..row.past {
        let size = match frame.arguments.get(usize::from(place)) {
            Some(argument) => values_of(argument.kind, most_seats),
            None => 1,
        };
        product = saturating_product(product, size);
    }
    product
}
