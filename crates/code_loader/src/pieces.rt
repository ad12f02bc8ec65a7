//! Whole pieces of code, with their limits.

use crate::drafter::{Drafter, MOST_LEVELS};
use crate::named::Named;
use crate::sight::{CodeSight, DearLoop, Notes};
use crate::statements::items_of;
use crate::text::CodeText;
use crate::trouble::{Spot, Stop, Trouble, told};
use crate::work::rows_of;
use code_draft::{Deed, Draft};
use code_laws::{events_of, words_of};
use game_code::{Expression, Piece, Statement};
use game_file::{Code, Source, Unread};
use game_frame::ArgumentFrame;
use game_sheet::{List, NoMemory};
use game_slots::SlotRow;
use game_syntax::{Fault, FaultName, Form, Halt, Tree, place_in, read_code};
use std::alloc::{AllocError, Global};

/// The greatest count of steps of a piece of code.
pub const MOST_STEPS: u64 = 1_000_000;

/// The greatest count of random words of a piece of code.
pub const MOST_WORDS: u32 = 256;

/// The greatest count of events of a piece of code.
pub const MOST_EVENTS: u32 = 16;

/// What a piece of code takes at most.
#[derive(Clone, Copy)]
pub struct PieceCost {
    /// Steps.
    pub steps: u64,
    /// Random words.
    pub words: u32,
    /// Events.
    pub events: u32,
}

impl PieceCost {
    /// Of a piece that does nothing.
    pub const NOTHING: PieceCost = PieceCost {
        steps: 0,
        words: 0,
        events: 0,
    };
}

/// A piece of code, with what it takes.
#[derive(Drop)]
pub struct CodedPiece {
    /// The piece.
    pub piece: Piece,
    /// What it takes.
    pub cost: PieceCost,
}

/// A value or a condition, with how many steps it takes.
#[derive(Drop)]
pub struct CodedValue {
    /// The expression.
    pub expression: Expression,
    /// Its greatest count of steps.
    pub steps: u64,
}

/// What a value is for.
#[derive(Clone, Copy, PartialEq, Eq)]
pub(crate) enum Purpose {
    /// It is a condition.
    Condition,
    /// It is a number.
    Number,
}

/// What a text of code is drafted with.
#[derive(Clone, Copy)]
pub(crate) struct Surroundings<'a> {
    pub(crate) sight: CodeSight,
    pub(crate) arguments: &'a [ArgumentFrame],
}

impl<'a> Surroundings<'a> {
    /// Without arguments.
    pub(crate) fn plain(sight: CodeSight) -> Surroundings<'a> {
        Surroundings {
            sight,
            arguments: &[],
        }
    }
}

impl<'a> Drafter<'a> {
    /// A piece of code; one that does nothing where there is no code.
    pub(crate) fn piece(
        &mut self,
        code: &Code,
        around: Surroundings<'a>,
    ) -> Result<CodedPiece, Unread> {
        self.begin(around.sight, around.arguments);
        match code.source() {
            None => Ok(nothing(self.maker.alloc())),
            Some(source) => self.piece_of(source),
        }
    }

    fn piece_of(&mut self, source: &Source) -> Result<CodedPiece, Unread> {
        let tree = tree_of(self.maker.alloc(), Form::Statements, source)?;
        let piece = self.piece_in(source, &tree);
        drop(tree);
        piece
    }

    fn piece_in(&mut self, source: &Source, tree: &Tree) -> Result<CodedPiece, Unread> {
        let text = CodeText {
            text: source.text.as_str(),
            tree,
            code: None,
        };
        let inside = self.block_at(&text, tree.root, MOST_LEVELS);
        let deed = self.with_work(inside);
        self.check_limits(&text, deed.cost.depth, 0);
        match self.stopped() {
            None => self.finished(source, deed),
            Some(stop) => {
                drop(deed);
                Err(self.told(stop, source))
            }
        }
    }

    /// Statements behind the beginnings of those slots of work that are the file's.
    fn with_work(&mut self, deed: Deed) -> Deed {
        let mut row = self.maker.row();
        for slot in 0..self.work.len() {
            if let Some(origin) = self.origin_of(slot) {
                let begun = self.begun(slot, origin);
                self.maker.add(&mut row, begun);
            }
        }
        self.maker.add(&mut row, deed);
        self.maker.joined(row)
    }

    /// The beginning of a slot of work that is one of the file.
    fn begun(&mut self, slot: usize, origin: u8) -> Deed {
        let frame = self.frame;
        match (
            frame.names.slots.work.get(usize::from(origin)),
            u8::try_from(slot),
        ) {
            (Some(of), Ok(slot)) => {
                let start = self.literal(&of.slot.row.start);
                self.maker.begin(slot, start, items_of(&of.slot.row))
            }
            _ => Deed::nothing(),
        }
    }

    /// A piece whose code has no fault, if it is within its limits.
    fn finished(&mut self, source: &Source, deed: Deed) -> Result<CodedPiece, Unread> {
        let alloc = self.maker.alloc();
        let cost = PieceCost {
            steps: deed.cost.steps,
            words: words_of(&deed.statement),
            events: events_of(&deed.statement),
        };
        let Deed { statement, cost: _ } = deed;
        let fault = self.limit_fault(source, &cost);
        match rows_of(alloc, self.work.as_slice()) {
            Ok(work) => whole_piece(work, statement, cost, fault),
            Err(NoMemory) => {
                drop(statement);
                drop(fault);
                Err(Unread::NoMemory)
            }
        }
    }

    /// A value or a condition.
    pub(crate) fn value(
        &mut self,
        source: &Source,
        purpose: Purpose,
        around: Surroundings<'a>,
    ) -> Result<CodedValue, Unread> {
        self.begin(around.sight, around.arguments);
        let tree = tree_of(self.maker.alloc(), Form::Expression, source)?;
        let value = self.value_in(source, purpose, &tree);
        drop(tree);
        value
    }

    fn value_in(
        &mut self,
        source: &Source,
        purpose: Purpose,
        tree: &Tree,
    ) -> Result<CodedValue, Unread> {
        let text = CodeText {
            text: source.text.as_str(),
            tree,
            code: None,
        };
        let draft = match purpose {
            Purpose::Condition => self.condition(&text, tree.root, MOST_LEVELS),
            Purpose::Number => self.number(&text, tree.root, MOST_LEVELS),
        };
        self.coded(source, draft)
    }

    /// A draft without a fault.
    fn coded(&mut self, source: &Source, draft: Draft) -> Result<CodedValue, Unread> {
        match self.stopped() {
            None => {
                let Draft { expression, facts } = draft;
                Ok(CodedValue {
                    expression,
                    steps: facts.cost.steps,
                })
            }
            Some(stop) => {
                drop(draft);
                Err(self.told(stop, source))
            }
        }
    }

    /// The first limit that a piece passes.
    fn limit_fault(&self, source: &Source, cost: &PieceCost) -> Option<Unread> {
        if cost.steps > MOST_STEPS {
            return Some(self.dear(source, cost.steps, MOST_STEPS));
        }
        count_fault(self.maker.alloc(), source.path.as_str(), cost)
    }

    /// Too many steps, at the dearest loop.
    pub(crate) fn dear(&self, source: &Source, steps: u64, most: u64) -> Unread {
        let alloc = self.maker.alloc();
        match self.notes.dearest {
            None => passed(
                alloc,
                FaultName::TooCostly,
                source.path.as_str(),
                steps,
                "steps",
                most,
            ),
            Some(dearest) => {
                let text = code_at(self.named, dearest.spot.code, source);
                match dear_fault(alloc, text, &dearest, steps, most) {
                    Ok(fault) => Unread::Fault(fault),
                    Err(_) => Unread::NoMemory,
                }
            }
        }
    }

    /// A fault as the author reads it.
    pub(crate) fn told(&self, stop: Stop, source: &Source) -> Unread {
        told(self.maker.alloc(), stop, source, self.named)
    }

    /// A fault at a place that was noted.
    pub(crate) fn told_at(
        &self,
        source: &Source,
        name: FaultName,
        spot: Spot,
        words: &'static str,
    ) -> Unread {
        let trouble = Trouble::said(name, spot.at, words);
        self.told(Stop::Trouble(trouble, spot), source)
    }

    /// What was noted of the piece that was drafted last.
    pub(crate) fn noted(&self) -> Notes {
        self.notes
    }
}

/// A piece of its parts, if it has no fault.
fn whole_piece(
    work: List<SlotRow>,
    code: Statement,
    cost: PieceCost,
    fault: Option<Unread>,
) -> Result<CodedPiece, Unread> {
    let piece = Piece { work, code };
    match fault {
        None => Ok(CodedPiece { piece, cost }),
        Some(fault) => {
            drop(piece);
            Err(fault)
        }
    }
}

/// A piece that does nothing.
fn nothing(alloc: Global) -> CodedPiece {
    CodedPiece {
        piece: Piece {
            work: List::new(alloc),
            code: Statement::Nothing,
        },
        cost: PieceCost::NOTHING,
    }
}

/// The tree of a text, or its fault.
fn tree_of(alloc: Global, form: Form, source: &Source) -> Result<Tree, Unread> {
    match read_code(alloc, form, source.text.as_str()) {
        Ok(tree) => Ok(tree),
        Err(Halt::Memory) => Err(Unread::NoMemory),
        Err(Halt::Slip(slip)) => {
            let spot = Spot {
                at: slip.at,
                code: None,
                used: 0,
            };
            Err(told(alloc, Stop::Trouble(Trouble::read(slip), spot), source, &[]))
        }
    }
}

/// The limits of words and events that a piece passes.
fn count_fault(alloc: Global, path: &str, cost: &PieceCost) -> Option<Unread> {
    if cost.words > MOST_WORDS {
        let words = u64::from(cost.words);
        return Some(passed(
            alloc,
            FaultName::TooManyWords,
            path,
            words,
            "random words",
            u64::from(MOST_WORDS),
        ));
    }
    if cost.events > MOST_EVENTS {
        let events = u64::from(cost.events);
        return Some(passed(
            alloc,
            FaultName::TooManyEvents,
            path,
            events,
            "events",
            u64::from(MOST_EVENTS),
        ));
    }
    None
}

/// The text in which a place is.
fn code_at<'s>(named: &'s [Named<'_>], code: Option<usize>, source: &'s Source) -> &'s Source {
    match code {
        Some(place) => match named.get(place) {
            Some(code) => code.source,
            None => source,
        },
        None => source,
    }
}

fn dear_fault(
    alloc: Global,
    source: &Source,
    dearest: &DearLoop,
    steps: u64,
    most: u64,
) -> Result<Fault, AllocError> {
    let of_loop = dearest.steps;
    let words = format!(in alloc;
        "{steps} steps, of at most {most}; the dearest loop begins here, with {of_loop}"
    )?;
    let path = source.path.clone()?;
    Ok(Fault {
        name: FaultName::TooCostly,
        path,
        place: Some(place_in(source.text.as_bytes(), dearest.spot.at)),
        words,
    })
}

/// A limit that is passed.
pub(crate) fn passed(
    alloc: Global,
    name: FaultName,
    path: &str,
    count: u64,
    what: &str,
    most: u64,
) -> Unread {
    match passed_fault(alloc, name, path, count, what, most) {
        Ok(fault) => Unread::Fault(fault),
        Err(_) => Unread::NoMemory,
    }
}

fn passed_fault(
    alloc: Global,
    name: FaultName,
    path: &str,
    count: u64,
    what: &str,
    most: u64,
) -> Result<Fault, AllocError> {
    let words = format!(in alloc; "{count} {what}, of at most {most}")?;
    let path = String::from_str(alloc, path)?;
    Ok(Fault {
        name,
        path,
        place: None,
        words,
    })
}
