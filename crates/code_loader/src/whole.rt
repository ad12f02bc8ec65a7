//! The code of a whole file.

use crate::drafter::Drafter;
use crate::moves::{CodedMove, MoveAt, is_open};
use crate::named::NamedCode;
use crate::pieces::{CodedPiece, CodedValue, PieceCost, Purpose, Surroundings, passed};
use crate::sight::CodeSight;
use game_code::{Expression, Piece, Statement};
use game_file::{
    Code, EndKind, EndMember, FileFlow, GameFile, PhaseMember, Source, TurnHooks, TurnMember,
    Unread,
};
use game_frame::{Frame, Known};
use game_sheet::List;
use game_syntax::FaultName;
use std::alloc::Global;

/// The greatest count of steps of all of the game's `endIf` together, and of that of a turn or a phase.
const MOST_END_STEPS: u64 = 500_000;

/// The code of turns.
#[derive(Drop)]
pub struct CodedTurn {
    /// As a turn begins.
    pub on_begin: Piece,
    /// As a turn ends.
    pub on_end: Piece,
    /// After each move.
    pub on_move: Piece,
    /// Whether the turn ends; none where nothing is said.
    pub end_if: Option<Expression>,
    /// What it takes.
    pub cost: TurnCost,
}

/// What the code of turns takes at most.
#[derive(Clone, Copy)]
pub struct TurnCost {
    /// As a turn begins.
    pub on_begin: PieceCost,
    /// As a turn ends.
    pub on_end: PieceCost,
    /// After each move.
    pub on_move: PieceCost,
    /// Steps of `endIf`.
    pub end_if: u64,
}

/// The code of a phase.
#[derive(Drop)]
pub struct CodedPhase {
    /// That of its own turn, if it has one.
    pub turn: Option<CodedTurn>,
    /// As the phase begins.
    pub on_begin: Piece,
    /// As the phase ends.
    pub on_end: Piece,
    /// Whether the phase ends; none where nothing is said.
    pub end_if: Option<Expression>,
    /// What it takes beside the turn.
    pub cost: PhaseCost,
}

/// What the code of a phase takes at most.
#[derive(Clone, Copy)]
pub struct PhaseCost {
    /// As the phase begins.
    pub on_begin: PieceCost,
    /// As the phase ends.
    pub on_end: PieceCost,
    /// Steps of `endIf`.
    pub end_if: u64,
}

/// A way in which a match ends.
#[derive(Drop)]
pub struct CodedEnd {
    /// How it ends.
    pub kind: EndKind,
    /// Who wins, or whether it ends.
    pub value: Expression,
}

/// The code of a whole file.
#[derive(Drop)]
pub struct FileCode {
    /// Makes the first state.
    pub setup: CodedPiece,
    /// The code of the moves, in the order of the sheet.
    pub moves: Vec<CodedMove>,
    /// The code of turns where the phase has none of its own.
    pub turn: CodedTurn,
    /// The code of the phases, in the order of the sheet.
    pub phases: Vec<CodedPhase>,
    /// The ends, in the order of the file.
    pub ends: CodedEnds,
    /// Runs once the match has ended.
    pub on_end: CodedPiece,
    /// Whether no `onMove` and no `endIf` draws words or names what is hidden.
    pub is_open: bool,
    /// How many nodes all code has.
    pub nodes: u32,
}

/// The ends of a match.
#[derive(Drop)]
pub struct CodedEnds {
    /// In the order of the file.
    pub ends: Vec<CodedEnd>,
    /// Steps of all together.
    pub steps: u64,
}

/// The code of a file, whose frame is given. The first fault counts: of the heads of named code, and then of the pieces, each whole
/// before the next, as they stand here: `setup`, the moves, the turn, the phases, `endIf` and `onEnd`; of a move the lists of its
/// arguments, `when`, `do`, what has to be said of it, and its rows; of a turn and a phase its hooks and `endIf`.
pub fn code_of(alloc: Global, file: &GameFile, frame: &Frame) -> Result<FileCode, Unread> {
    let named = NamedCode::read(alloc, file)?;
    let known = Known {
        constants: file.names.constants.as_slice(),
        most_seats: frame.sheet.max_seats,
    };
    let mut drafter = Drafter::new(alloc, frame, known, named.as_slice());
    let code = drafter.file_code(alloc, file, frame);
    drop(drafter);
    drop(named);
    code
}

/// The parts of a file's code that were made.
#[derive(Drop)]
struct Made {
    setup: CodedPiece,
    moves: Vec<CodedMove>,
    turn: CodedTurn,
}

/// What follows moves and turns.
#[derive(Drop)]
struct Rest {
    phases: Vec<CodedPhase>,
    ends: CodedEnds,
    on_end: CodedPiece,
}

impl<'a> Drafter<'a> {
    fn file_code(
        &mut self,
        alloc: Global,
        file: &'a GameFile,
        frame: &'a Frame,
    ) -> Result<FileCode, Unread> {
        self.is_open = true;
        let made = self.first_parts(alloc, &file.flow, frame)?;
        match self.last_parts(alloc, file) {
            Ok(rest) => Ok(file_code(made, rest, self.is_open, self.maker.nodes())),
            Err(unread) => {
                drop(made);
                Err(unread)
            }
        }
    }

    fn first_parts(
        &mut self,
        alloc: Global,
        flow: &'a FileFlow,
        frame: &'a Frame,
    ) -> Result<Made, Unread> {
        let setup = self.piece(&flow.setup, Surroundings::plain(CodeSight::SETUP))?;
        match self.moves_and_turn(alloc, flow, frame) {
            Ok((moves, turn)) => Ok(Made { setup, moves, turn }),
            Err(unread) => {
                drop(setup);
                Err(unread)
            }
        }
    }

    fn moves_and_turn(
        &mut self,
        alloc: Global,
        flow: &'a FileFlow,
        frame: &'a Frame,
    ) -> Result<(Vec<CodedMove>, CodedTurn), Unread> {
        let moves = self.coded_moves(alloc, flow, frame)?;
        match self.coded_turn(&flow.turn) {
            Ok(turn) => Ok((moves, turn)),
            Err(unread) => {
                drop(moves);
                Err(unread)
            }
        }
    }

    fn coded_moves(
        &mut self,
        alloc: Global,
        flow: &'a FileFlow,
        frame: &'a Frame,
    ) -> Result<Vec<CodedMove>, Unread> {
        let mut moves = Vec::new(alloc);
        for (place, member) in flow.moves.as_slice().iter().enumerate() {
            if let Some(of) = frame.moves.get(place) {
                moves.push(self.coded_move(MoveAt { member, frame: of })?)?;
            }
        }
        Ok(moves)
    }

    fn last_parts(&mut self, alloc: Global, file: &GameFile) -> Result<Rest, Unread> {
        let phases = self.coded_phases(alloc, &file.flow)?;
        match self.ends_and_last(alloc, file) {
            Ok((ends, on_end)) => Ok(Rest {
                phases,
                ends,
                on_end,
            }),
            Err(unread) => {
                drop(phases);
                Err(unread)
            }
        }
    }

    fn ends_and_last(
        &mut self,
        alloc: Global,
        file: &GameFile,
    ) -> Result<(CodedEnds, CodedPiece), Unread> {
        let ends = self.coded_ends(alloc, file.end.ends.as_slice())?;
        match self.piece(&file.end.on_end, Surroundings::plain(CodeSight::HOOK)) {
            Ok(on_end) => Ok((ends, on_end)),
            Err(unread) => {
                drop(ends);
                Err(unread)
            }
        }
    }

    /// The sheet's turn, which does nothing where the file has none.
    fn coded_turn(&mut self, turn: &Option<TurnMember>) -> Result<CodedTurn, Unread> {
        match turn {
            Some(turn) => self.turn_of(&turn.hooks),
            None => self.no_turn(),
        }
    }

    fn no_turn(&mut self) -> Result<CodedTurn, Unread> {
        let alloc = self.maker.alloc();
        Ok(CodedTurn {
            on_begin: idle(alloc),
            on_end: idle(alloc),
            on_move: idle(alloc),
            end_if: None,
            cost: TurnCost {
                on_begin: PieceCost::NOTHING,
                on_end: PieceCost::NOTHING,
                on_move: PieceCost::NOTHING,
                end_if: NEVER,
            },
        })
    }

    fn turn_of(&mut self, hooks: &TurnHooks) -> Result<CodedTurn, Unread> {
        let hook = Surroundings::plain(CodeSight::HOOK);
        let on_begin = self.piece(&hooks.on_begin, hook)?;
        let on_end = self.piece(&hooks.on_end, hook)?;
        let on_move = self.piece(&hooks.on_move, Surroundings::plain(CodeSight::MOVE))?;
        self.note_open();
        let end_if = self.end_if(&hooks.end_if)?;
        let cost = TurnCost {
            on_begin: on_begin.cost,
            on_end: on_end.cost,
            on_move: on_move.cost,
            end_if: steps_of(&end_if),
        };
        Ok(CodedTurn {
            on_begin: piece_of(on_begin),
            on_end: piece_of(on_end),
            on_move: piece_of(on_move),
            end_if: value_of(end_if),
            cost,
        })
    }

    /// Whether the piece that was drafted last draws words or names what is hidden is kept.
    fn note_open(&mut self) {
        let clean = is_open(&self.noted());
        self.is_open = self.is_open && clean;
    }

    /// The condition by which a turn or a phase ends.
    fn end_if(&mut self, code: &Code) -> Result<Option<CodedValue>, Unread> {
        match code.source() {
            None => Ok(None),
            Some(source) => {
                let around = Surroundings::plain(CodeSight::END);
                let value = self.value(source, Purpose::Condition, around)?;
                self.note_open();
                match self.end_fault(source, value.steps) {
                    None => Ok(Some(value)),
                    Some(fault) => {
                        drop(value);
                        Err(fault)
                    }
                }
            }
        }
    }

    fn end_fault(&self, source: &Source, steps: u64) -> Option<Unread> {
        if steps <= MOST_END_STEPS {
            return None;
        }
        Some(self.dear(source, steps, MOST_END_STEPS))
    }

    fn coded_phases(&mut self, alloc: Global, flow: &FileFlow) -> Result<Vec<CodedPhase>, Unread> {
        let mut phases = Vec::new(alloc);
        for member in flow.tables.phases.as_slice() {
            phases.push(self.coded_phase(member)?)?;
        }
        Ok(phases)
    }

    fn coded_phase(&mut self, member: &PhaseMember) -> Result<CodedPhase, Unread> {
        let turn = self.own_turn(&member.turn)?;
        match self.phase_of(member) {
            Ok(phase) => Ok(with_turn(phase, turn)),
            Err(unread) => {
                drop(turn);
                Err(unread)
            }
        }
    }

    fn own_turn(&mut self, turn: &Option<TurnMember>) -> Result<Option<CodedTurn>, Unread> {
        match turn {
            Some(turn) => Ok(Some(self.turn_of(&turn.hooks)?)),
            None => Ok(None),
        }
    }

    fn phase_of(&mut self, member: &PhaseMember) -> Result<CodedPhase, Unread> {
        let hook = Surroundings::plain(CodeSight::HOOK);
        let on_begin = self.piece(&member.hooks.on_begin, hook)?;
        let on_end = self.piece(&member.hooks.on_end, hook)?;
        let end_if = self.end_if(&member.hooks.end_if)?;
        let cost = PhaseCost {
            on_begin: on_begin.cost,
            on_end: on_end.cost,
            end_if: steps_of(&end_if),
        };
        Ok(CodedPhase {
            turn: None,
            on_begin: piece_of(on_begin),
            on_end: piece_of(on_end),
            end_if: value_of(end_if),
            cost,
        })
    }

    /// The ends of a match, whose steps together are within their limit.
    fn coded_ends(&mut self, alloc: Global, members: &[EndMember]) -> Result<CodedEnds, Unread> {
        let mut ends = Vec::new(alloc);
        let mut steps = 0;
        for member in members {
            if let Some(source) = member.code.source() {
                let value = self.end_value(source, member.kind)?;
                steps = after(steps, value.steps);
                ends.push(end_of(member.kind, value))?;
            }
        }
        if steps > MOST_END_STEPS {
            drop(ends);
            let name = FaultName::TooCostly;
            return Err(passed(alloc, name, "endIf", steps, "steps", MOST_END_STEPS));
        }
        Ok(CodedEnds { ends, steps })
    }

    fn end_value(&mut self, source: &Source, kind: EndKind) -> Result<CodedValue, Unread> {
        let purpose = match kind {
            EndKind::Winner => Purpose::Number,
            EndKind::Draw | EndKind::Ended => Purpose::Condition,
        };
        let value = self.value(source, purpose, Surroundings::plain(CodeSight::END))?;
        self.note_open();
        Ok(value)
    }
}

/// The steps of a condition that never holds, which stands for one that isn't there.
const NEVER: u64 = 2;

/// Steps with those of one more end.
fn after(steps: u64, further: u64) -> u64 {
    steps.saturating_add(further).saturating_add(1)
}

/// A piece that does nothing.
fn idle(alloc: Global) -> Piece {
    Piece {
        work: List::new(alloc),
        code: Statement::Nothing,
    }
}

fn piece_of(piece: CodedPiece) -> Piece {
    let CodedPiece { piece, cost: _ } = piece;
    piece
}

fn steps_of(value: &Option<CodedValue>) -> u64 {
    match value {
        Some(value) => value.steps,
        None => NEVER,
    }
}

fn value_of(value: Option<CodedValue>) -> Option<Expression> {
    match value {
        Some(value) => {
            let CodedValue {
                expression,
                steps: _,
            } = value;
            Some(expression)
        }
        None => None,
    }
}

fn end_of(kind: EndKind, value: CodedValue) -> CodedEnd {
    let CodedValue {
        expression,
        steps: _,
    } = value;
    CodedEnd {
        kind,
        value: expression,
    }
}

fn with_turn(phase: CodedPhase, turn: Option<CodedTurn>) -> CodedPhase {
    let CodedPhase {
        turn: none,
        on_begin,
        on_end,
        end_if,
        cost,
    } = phase;
    drop(none);
    CodedPhase {
        turn,
        on_begin,
        on_end,
        end_if,
        cost,
    }
}

fn file_code(made: Made, rest: Rest, is_open: bool, nodes: u32) -> FileCode {
    let Made { setup, moves, turn } = made;
    let Rest {
        phases,
        ends,
        on_end,
    } = rest;
    FileCode {
        setup,
        moves,
        turn,
        phases,
        ends,
        on_end,
        is_open,
        nodes,
    }
}
