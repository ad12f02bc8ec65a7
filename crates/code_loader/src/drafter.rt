//! What is known while code is drafted: names in sight, the values in force, slots of work, notes and the first fault.

use crate::calls::Calling;
use crate::named::Named;
use crate::scope::{
    Bound, Local, LocalValue, Meaning, argument_named, constant_named, local_named, slot_named,
};
use crate::sight::{CodeSight, DearLoop, Notes};
use crate::text::CodeText;
use crate::trouble::{Spot, Stop, Trouble};
use crate::work::WorkRow;
use code_draft::{Bounds, Draft, Kind, MOST_NODES, Maker};
use game_frame::{ArgumentFrame, Frame, Known};
use game_syntax::{FaultName, Hint, Shape, Span};
use std::alloc::Global;

/// How many nodes stand in one another at most.
const MOST_DEPTH: u32 = 64;

/// How deep code is looked into: more than the levels of a text, of named code in one another and of values in force.
pub(crate) const MOST_LEVELS: usize = 448;

/// How many uses of named code stand in one another at most.
pub(crate) const MOST_CALLS: usize = 64;

/// How many vars and slots of work a piece has at most.
const MOST_WORK: usize = 16;

/// A drafter of pieces of code.
#[derive(Drop)]
pub(crate) struct Drafter<'a> {
    pub(crate) frame: &'a Frame,
    pub(crate) known: Known<'a>,
    pub(crate) named: &'a [Named<'a>],
    pub(crate) arguments: &'a [ArgumentFrame],
    pub(crate) sight: CodeSight,
    pub(crate) maker: Maker,
    pub(crate) notes: Notes,
    /// Whether no `onMove` and no `endIf` so far draws words or names what is hidden.
    pub(crate) is_open: bool,
    stop: Option<Stop>,
    locals: Vec<Local>,
    /// Where the names in sight begin among the locals.
    base: usize,
    /// How many values are in force.
    level: usize,
    /// What is given to named code that isn't entered yet.
    given: Vec<LocalValue>,
    /// Which named code is in use.
    calls: Vec<usize>,
    /// Where the piece uses the named code at hand.
    used: usize,
    pub(crate) work: Vec<WorkRow>,
}

/// What is put back where named code is left.
#[derive(Clone, Copy)]
pub(crate) struct Left {
    base: usize,
    count: usize,
}

impl<'a> Drafter<'a> {
    /// A drafter with no piece at hand.
    pub(crate) fn new(
        alloc: Global,
        frame: &'a Frame,
        known: Known<'a>,
        named: &'a [Named<'a>],
    ) -> Drafter<'a> {
        Drafter {
            frame,
            known,
            named,
            arguments: &[],
            sight: CodeSight::END,
            maker: Maker::new(alloc),
            notes: Notes::NONE,
            is_open: true,
            stop: None,
            locals: Vec::new(alloc),
            base: 0,
            level: 0,
            given: Vec::new(alloc),
            calls: Vec::new(alloc),
            used: 0,
            work: Vec::new(alloc),
        }
    }

    /// Begins a piece.
    pub(crate) fn begin(&mut self, sight: CodeSight, arguments: &'a [ArgumentFrame]) {
        self.arguments = arguments;
        self.sight = sight;
        self.notes = Notes::NONE;
        self.stop = None;
        self.locals.clear();
        self.base = 0;
        self.level = 0;
        self.given.clear();
        self.calls.clear();
        self.used = 0;
        self.work.clear();
    }

    /// Why the piece gives nothing, if it doesn't.
    pub(crate) fn stopped(&self) -> Option<Stop> {
        if self.maker.starved() {
            Some(Stop::Memory)
        } else {
            self.stop
        }
    }

    /// Whether nothing more is to be drafted.
    pub(crate) fn halted(&self) -> bool {
        self.stop.is_some() || self.maker.starved()
    }

    /// A fault, if it is the first one.
    pub(crate) fn fail(&mut self, code: &CodeText<'_>, trouble: Trouble) {
        if self.stop.is_none() {
            let spot = self.spot(code, trouble.at);
            self.stop = Some(Stop::Trouble(trouble, spot));
        }
    }

    pub(crate) fn no_memory(&mut self) {
        if self.stop.is_none() {
            self.stop = Some(Stop::Memory);
        }
    }

    /// A place in the code at hand.
    pub(crate) fn spot(&self, code: &CodeText<'_>, at: usize) -> Spot {
        Spot {
            at,
            code: code.code,
            used: self.used,
        }
    }

    /// A draft in the place of one with a fault.
    pub(crate) fn failed(&mut self, code: &CodeText<'_>, trouble: Trouble) -> Draft {
        self.fail(code, trouble);
        Draft::blank()
    }

    /// Too many in one another.
    pub(crate) fn too_deep(&mut self, code: &CodeText<'_>, at: usize) {
        self.fail(code, Trouble::plain(FaultName::TooDeep, at));
    }

    /// A depth that is within its limit, as is the count of nodes.
    pub(crate) fn check_limits(&mut self, code: &CodeText<'_>, depth: u32, at: usize) {
        if depth > MOST_DEPTH {
            self.too_deep(code, at);
        }
        if self.maker.nodes() > MOST_NODES {
            self.fail(
                code,
                Trouble::said(
                    FaultName::TooMuchCode,
                    at,
                    "with all named code written out, the game has more than 20,000 nodes",
                ),
            );
        }
    }

    /// Notes a loop, if it is the dearest so far.
    pub(crate) fn note_loop(&mut self, code: &CodeText<'_>, at: usize, steps: u64) {
        let most = match &self.notes.dearest {
            Some(dearest) => dearest.steps,
            None => 0,
        };
        if steps > most {
            let spot = self.spot(code, at);
            self.notes.dearest = Some(DearLoop { spot, steps });
        }
    }

    /// The greatest count of seats.
    pub(crate) fn most_seats(&self) -> u8 {
        self.frame.sheet.max_seats
    }

    /// What a name means where it stands.
    pub(crate) fn meaning(&self, code: &CodeText<'_>, name: Span) -> Meaning {
        let letters = code.letters(name);
        let locals = self.locals.get(self.base..).unwrap_or(&[]);
        if let Some(bound) = local_named(locals, code, letters) {
            return Meaning::Local(bound);
        }
        if code.code.is_none()
            && let Some(place) = argument_named(self.arguments, letters)
        {
            return Meaning::Argument(place);
        }
        self.global(letters)
    }

    /// What a name means everywhere.
    pub(crate) fn global(&self, letters: &[u8]) -> Meaning {
        let names = &self.frame.names;
        if let Some(kind) = constant_named(names.constants.as_slice(), letters) {
            return Meaning::Constant(kind);
        }
        if let Some(place) = slot_named(names.slots.common.as_slice(), letters) {
            return Meaning::Common(place);
        }
        if let Some(place) = slot_named(names.slots.work.as_slice(), letters) {
            return Meaning::Work(place);
        }
        self.code_named(letters)
    }

    fn code_named(&self, letters: &[u8]) -> Meaning {
        for (place, code) in self.named.iter().enumerate() {
            if code.name.as_bytes() == letters {
                return Meaning::Code(place, code.is_value);
            }
        }
        Meaning::Nothing
    }

    /// Refuses a name for something new that means something already.
    pub(crate) fn check_name(&mut self, code: &CodeText<'_>, name: Span) {
        let hint = match self.meaning(code, name) {
            Meaning::Nothing => return,
            Meaning::Local(_) => Hint::TakenByLocal,
            Meaning::Argument(_) => Hint::TakenByArgument,
            Meaning::Constant(_) => Hint::TakenByConstant,
            Meaning::Common(_) | Meaning::Work(_) => Hint::TakenBySlot,
            Meaning::Code(_, _) => Hint::TakenByCode,
        };
        self.fail(code, Trouble::about(FaultName::NameTaken, hint, name));
    }

    /// One value more is in force, without a name.
    pub(crate) fn deeper(&mut self) {
        self.level = self.level.saturating_add(1);
    }

    /// One value less is in force.
    pub(crate) fn shallower(&mut self) {
        self.level = self.level.saturating_sub(1);
    }

    /// A name for a new value.
    pub(crate) fn enter(&mut self, name: Span, kind: Kind, bounds: Bounds) {
        let level = self.level;
        self.call_it(Local {
            name,
            bound: Bound::Value(LocalValue {
                level,
                kind,
                bounds,
            }),
        });
        self.deeper();
    }

    /// The newest name and its value are out of sight.
    pub(crate) fn leave(&mut self) {
        let count = self.locals.len().saturating_sub(1);
        self.locals.truncate(count);
        self.shallower();
    }

    /// A new name.
    pub(crate) fn call_it(&mut self, local: Local) {
        match self.locals.push(local) {
            Ok(()) => {}
            Err(_) => self.no_memory(),
        }
    }

    /// How many names there are.
    pub(crate) fn names(&self) -> usize {
        self.locals.len()
    }

    /// All but so many names are out of sight.
    pub(crate) fn forget(&mut self, count: usize) {
        self.locals.truncate(count);
    }

    /// A value that is in force, counted from the newest; none where it is too far away.
    pub(crate) fn place_of(&self, value: &LocalValue) -> Option<u8> {
        let distance = self.level.saturating_sub(value.level).saturating_sub(1);
        u8::try_from(distance).ok()
    }

    /// What is given to named code, as the newest value.
    pub(crate) fn give(&mut self, kind: Kind, bounds: Bounds) {
        let level = self.level;
        match self.given.push(LocalValue {
            level,
            kind,
            bounds,
        }) {
            Ok(()) => {}
            Err(_) => self.no_memory(),
        }
        self.deeper();
    }

    /// How much is given so far.
    pub(crate) fn gifts(&self) -> usize {
        self.given.len()
    }

    /// What was given from a place on is taken back.
    pub(crate) fn take_back(&mut self, mark: usize) {
        self.given.truncate(mark);
    }

    /// Whether named code is in use.
    pub(crate) fn is_used(&self, code: usize) -> bool {
        self.calls.as_slice().iter().any(|used| *used == code)
    }

    /// Whether as many uses of named code stand in one another as may.
    pub(crate) fn is_full(&self) -> bool {
        self.calls.len() >= MOST_CALLS
    }

    /// Where the piece uses named code that is used at a place of this text.
    pub(crate) fn use_of(&self, code: &CodeText<'_>, at: usize) -> usize {
        match code.code {
            None => at,
            Some(_) => self.used,
        }
    }

    /// The named code at hand is used at a place of the piece.
    pub(crate) fn used_at(&mut self, used: usize) {
        self.used = used;
    }

    /// Enters named code, whose parameters are what was given from a place on.
    pub(crate) fn step_in(&mut self, calling: &Calling, inside: &CodeText<'_>) -> Left {
        let left = Left {
            base: self.base,
            count: self.locals.len(),
        };
        self.used = calling.used;
        self.base = self.locals.len();
        self.name_gifts(calling.mark, inside);
        match self.calls.push(calling.target) {
            Ok(()) => {}
            Err(_) => self.no_memory(),
        }
        left
    }

    /// Calls what was given from a place on by the names of the parameters.
    fn name_gifts(&mut self, mark: usize, inside: &CodeText<'_>) {
        let count = self.given.len().saturating_sub(mark);
        for place in 0..count {
            let gift = self.given.get(mark.saturating_add(place)).copied();
            if let (Some(gift), Some(name)) = (gift, parameter(inside, place)) {
                self.call_it(Local {
                    name,
                    bound: Bound::Value(gift),
                });
            }
        }
    }

    /// Leaves named code.
    pub(crate) fn step_out(&mut self, left: Left) {
        self.locals.truncate(left.count);
        self.base = left.base;
        let count = self.calls.len().saturating_sub(1);
        self.calls.truncate(count);
    }

    /// A further slot of work.
    pub(crate) fn add_work(&mut self, row: WorkRow) -> Option<u8> {
        let place = self.work.len();
        if place >= MOST_WORK {
            return None;
        }
        match self.work.push(row) {
            Ok(()) => {}
            Err(_) => self.no_memory(),
        }
        u8::try_from(place).ok()
    }

    /// The slot of work that a slot of the file is in this piece, if it was used.
    pub(crate) fn work_of(&self, origin: u8) -> Option<u8> {
        for (place, row) in self.work.as_slice().iter().enumerate() {
            if row.origin == Some(origin) {
                return u8::try_from(place).ok();
            }
        }
        None
    }

    /// The slot of the file that a slot of work is, which begins where the piece does.
    pub(crate) fn origin_of(&self, slot: usize) -> Option<u8> {
        match self.work.get(slot) {
            Some(row) => row.origin,
            None => None,
        }
    }
}

/// The name of a parameter.
fn parameter(inside: &CodeText<'_>, place: usize) -> Option<Span> {
    match inside.node(inside.tree.root).shape {
        Shape::Code(parameters, _) => match inside.child(parameters, place) {
            Some(id) => match inside.node(id).shape {
                Shape::Name(name) => Some(name),
                _ => None,
            },
            None => None,
        },
        _ => None,
    }
}
