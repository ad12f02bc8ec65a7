//! What a file says, as a plain structure.

use crate::actives::SpecMember;
use crate::codes::CodeMember;
use crate::constants::ConstantMember;
use crate::ends::EndMember;
use crate::head::Seats;
use crate::hints::HintMember;
use crate::moves::MoveMember;
use crate::phases::{PhaseMember, StageMember};
use crate::slots::SlotMember;
use crate::source::Code;
use crate::turns::TurnMember;
use game_sheet::{List, Text};

/// What a file says. Sentences for people are left out.
pub struct GameFile {
    /// Its head.
    pub head: FileHead,
    /// What code can name.
    pub names: FileNames,
    /// How a match goes.
    pub flow: FileFlow,
    /// What players may ask for, and how a match ends.
    pub end: FileEnd,
    /// Display hints.
    pub hints: List<HintMember>,
}

/// The head of a file.
pub struct FileHead {
    /// The game's name: 1 to 32 lower-case letters, digits and dashes.
    pub game: Text,
    /// How many seats a match may have.
    pub seats: Seats,
    /// Whether clients are told the description without most of its code.
    pub hidden: bool,
    /// The name of the list by which seats are ranked.
    pub scores: Option<Text>,
}

/// What code can name.
pub struct FileNames {
    /// Constants.
    pub constants: List<ConstantMember>,
    /// The slots of each part, at most 64.
    pub slots: FileSlots,
    /// Named expressions.
    pub functions: List<CodeMember>,
    /// Named statements.
    pub procedures: List<CodeMember>,
}

/// The slots of a file, at most 64 of each part.
pub struct FileSlots {
    /// Slots that all see.
    pub common: List<SlotMember>,
    /// Slots of each seat.
    pub players: List<SlotMember>,
    /// Slots that nobody sees.
    pub secret: List<SlotMember>,
    /// Slots that live while one piece of code runs.
    pub work: List<SlotMember>,
}

/// How a match goes.
pub struct FileFlow {
    /// Makes the first state.
    pub setup: Code,
    /// The moves that a seat has where its stage and the phase say nothing.
    pub base: Option<List<Text>>,
    /// The moves, 1 to 64.
    pub moves: List<MoveMember>,
    /// The turn.
    pub turn: Option<TurnMember>,
    /// Phases, stages and specs.
    pub tables: FlowTables,
}

/// Phases, stages and specs of active players, at most 16 of each.
pub struct FlowTables {
    /// The phases, at most 16.
    pub phases: List<PhaseMember>,
    /// The stages, at most 16.
    pub stages: List<StageMember>,
    /// The specs of active players, at most 16.
    pub specs: List<SpecMember>,
}

/// What players may ask for, and how a match ends.
pub struct FileEnd {
    /// The events that players may raise.
    pub events: Option<List<Text>>,
    /// The ends, of which the first one that holds ends the match.
    pub ends: List<EndMember>,
    /// Runs once the match has ended.
    pub on_end: Code,
}

impl Drop for GameFile {
    fn drop(self) {
        let GameFile {
            head,
            names,
            flow,
            end,
            hints,
        } = self;
        drop(head);
        drop(names);
        drop(flow);
        drop(end);
        drop(hints);
    }
}

impl Drop for FileHead {
    fn drop(self) {
        let FileHead {
            game,
            seats: _,
            hidden: _,
            scores,
        } = self;
        drop(game);
        drop(scores);
    }
}

impl Drop for FileNames {
    fn drop(self) {
        let FileNames {
            constants,
            slots,
            functions,
            procedures,
        } = self;
        drop(constants);
        drop(slots);
        drop(functions);
        drop(procedures);
    }
}

impl Drop for FileSlots {
    fn drop(self) {
        let FileSlots {
            common,
            players,
            secret,
            work,
        } = self;
        drop(common);
        drop(players);
        drop(secret);
        drop(work);
    }
}

impl Drop for FileFlow {
    fn drop(self) {
        let FileFlow {
            setup,
            base,
            moves,
            turn,
            tables,
        } = self;
        drop(setup);
        drop(base);
        drop(moves);
        drop(turn);
        drop(tables);
    }
}

impl Drop for FlowTables {
    fn drop(self) {
        let FlowTables {
            phases,
            stages,
            specs,
        } = self;
        drop(phases);
        drop(stages);
        drop(specs);
    }
}

impl Drop for FileEnd {
    fn drop(self) {
        let FileEnd {
            events,
            ends,
            on_end,
        } = self;
        drop(events);
        drop(ends);
        drop(on_end);
    }
}
