//! Phases and stages.

use crate::members::Members;
use crate::names::check_row_name;
use crate::rows::{Row, RowAt, Title};
use crate::source::Code;
use crate::turns::{TurnMember, turn};
use crate::unread::Unread;
use game_sheet::{List, Text};
use std::alloc::Global;

/// A phase.
pub struct PhaseMember {
    /// Its name, 1 to 32 letters and digits, and its path.
    pub title: Title,
    /// Whether a match begins in it.
    pub start: bool,
    /// What follows it, and its moves.
    pub flow: RowFlow,
    /// Its own turn.
    pub turn: Option<TurnMember>,
    /// The phase's code.
    pub hooks: PhaseHooks,
}

/// The code of a phase.
pub struct PhaseHooks {
    /// Runs where the phase begins.
    pub on_begin: Code,
    /// Runs where the phase ends.
    pub on_end: Code,
    /// Whether the phase ends.
    pub end_if: Code,
}

/// A stage.
pub struct StageMember {
    /// Its name, 1 to 32 letters and digits, and its path.
    pub title: Title,
    /// What follows it, and its moves.
    pub flow: RowFlow,
}

/// What a phase and a stage say alike.
pub struct RowFlow {
    /// The one that follows it.
    pub next: Option<Text>,
    /// The moves that a seat has in it.
    pub moves: Option<List<Text>>,
}

impl Drop for PhaseMember {
    fn drop(self) {
        let PhaseMember {
            title,
            start: _,
            flow,
            turn,
            hooks,
        } = self;
        drop(title);
        drop(flow);
        drop(turn);
        drop(hooks);
    }
}

impl Drop for PhaseHooks {
    fn drop(self) {
        let PhaseHooks {
            on_begin,
            on_end,
            end_if,
        } = self;
        drop(on_begin);
        drop(on_end);
        drop(end_if);
    }
}

impl Drop for StageMember {
    fn drop(self) {
        let StageMember { title, flow } = self;
        drop(title);
        drop(flow);
    }
}

impl Drop for RowFlow {
    fn drop(self) {
        let RowFlow { next, moves } = self;
        drop(next);
        drop(moves);
    }
}

static PHASE_MEMBERS: [&str; 7] = [
    "start", "next", "moves", "turn", "onBegin", "onEnd", "endIf",
];

static STAGE_MEMBERS: [&str; 2] = ["next", "moves"];

/// The members of a phase.
fn phase_members<'a>(alloc: Global, at: &RowAt<'a>) -> Result<Members<'a>, Unread> {
    Members::of(alloc, at.value, at.path, &PHASE_MEMBERS)
}

impl Row for PhaseMember {
    ghost use Rattle.std.specs.Prelude.{◌≡◌, true};
    ghost use Rattle.std.specs.Char.{is_ascii_alphanumeric};
    ghost use Rattle.game_sheet.specs.SheetRules.{is_name};
    ghost use Rattle.game_file.specs.declared.phases.PhaseMember.{PhaseMember};

    ghost fits = { λ (row : PhaseMember). is_name is_ascii_alphanumeric row.title.name ≡ true };

    fn read(alloc: Global, at: &RowAt<'_>) -> Result<Self, Unread> {
        check_row_name(alloc, at.name, at.path)?;
        let members = phase_members(alloc, at)?;
        let start = members.is(alloc, "start")?;
        let flow = flow(alloc, &members)?;
        let turn = turn(alloc, &members)?;
        let hooks = hooks(alloc, &members)?;
        let title = at.title(alloc)?;
        Ok(PhaseMember {
            title,
            start,
            flow,
            turn,
            hooks,
        })
    }
}

fn flow(alloc: Global, members: &Members<'_>) -> Result<RowFlow, Unread> {
    let next = members.text(alloc, "next")?;
    let moves = members.names(alloc, "moves")?;
    Ok(RowFlow { next, moves })
}

fn hooks(alloc: Global, members: &Members<'_>) -> Result<PhaseHooks, Unread> {
    let on_begin = members.code(alloc, "onBegin")?;
    let on_end = members.code(alloc, "onEnd")?;
    let end_if = members.code(alloc, "endIf")?;
    Ok(PhaseHooks {
        on_begin,
        on_end,
        end_if,
    })
}

/// The members of a stage.
fn stage_members<'a>(alloc: Global, at: &RowAt<'a>) -> Result<Members<'a>, Unread> {
    Members::of(alloc, at.value, at.path, &STAGE_MEMBERS)
}

impl Row for StageMember {
    ghost use Rattle.std.specs.Prelude.{◌≡◌, true};
    ghost use Rattle.std.specs.Char.{is_ascii_alphanumeric};
    ghost use Rattle.game_sheet.specs.SheetRules.{is_name};
    ghost use Rattle.game_file.specs.declared.phases.StageMember.{StageMember};

    ghost fits = { λ (row : StageMember). is_name is_ascii_alphanumeric row.title.name ≡ true };

    fn read(alloc: Global, at: &RowAt<'_>) -> Result<Self, Unread> {
        check_row_name(alloc, at.name, at.path)?;
        let members = stage_members(alloc, at)?;
        let flow = flow(alloc, &members)?;
        let title = at.title(alloc)?;
        Ok(StageMember { title, flow })
    }
}
