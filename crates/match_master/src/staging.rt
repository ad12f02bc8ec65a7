//! The lines that tell everybody of an action, staged at each attachment.

ghost use Rattle.std.specs.Prelude.{◌≡◌, ◌<◌, length, true, OnOk};
ghost use Rattle.game_sheet.specs.Lines.{is_line};
ghost use Rattle.match_master.specs.Attached.{all_held, all_ready, all_told, staged};
ghost use Rattle.match_master.specs.Places.{at_place};
ghost use Rattle.match_master.specs.UpdateText.{AreMade, action_line};

use crate::action::Action;
use crate::attachments::{Attachments, stage_at, viewer_at};
use crate::line::shared_texts;
use crate::made_lines::{MadeLine, line_for};
use crate::running_match::RunningMatch;
use game_sheet::NoMemory;
use game_trait::Game;
use move_log::Entry;
use reducer::Prepared;
use std::alloc::Global;
use std::sync::Arc;
use wire_json::Protocol;

/// Stages what everybody is told of an action that a match has accepted and not yet taken in: at each attachment the line for its
/// viewer and, at the pass's own, the verdict behind that. What waits is as before.
pub fn stage<X: Game>(
    alloc: Global,
    running: &RunningMatch<X, X::G>,
    prepared: &Prepared<X::G>,
    entry: &Entry,
    attachments: &mut Attachments,
    pass: u32,
    verdict: &Arc<Vec<u8>>,
) -> Result<(), NoMemory>
    requires { is_line verdict.now.value.items ≡ true }
    ensures same { all_held attachments.new.entries ≡ all_held attachments.old.entries }
    ensures staged { OnOk result (all_ready attachments.new.entries
        ≡ all_told pass verdict.now.value.items (action_line (X.rules running.now.game) running.now.state prepared.now entry.now) (all_held attachments.old.entries)) }
{
    let sheet = running.game.sheet();
    let texts = shared_texts(
        alloc,
        sheet,
        running.state.ctx(),
        prepared.ctx(),
        entry,
        tells_changes(attachments),
    )?;
    let action = Action {
        game: &running.game,
        state: &running.state,
        prepared,
        entry,
        texts: &texts,
    };
    stage_all(alloc, &action, attachments, pass, verdict)
}

/// Whether somebody is told changes.
fn tells_changes(attachments: &Attachments) -> bool {
    for place in 0..attachments.len() {
        if let (_, Protocol::Two) = viewer_at(attachments, place) {
            return true;
        }
    }
    false
}

/// Stages the lines of an action at each attachment.
fn stage_all<X: Game>(
    alloc: Global,
    action: &Action<'_, X>,
    attachments: &mut Attachments,
    pass: u32,
    verdict: &Arc<Vec<u8>>,
) -> Result<(), NoMemory>
    requires { is_line verdict.now.value.items ≡ true }
    ensures same { all_held attachments.new.entries ≡ all_held attachments.old.entries }
    ensures staged { OnOk result (all_ready attachments.new.entries
        ≡ all_told pass verdict.now.value.items (action_line (X.rules action.now.game.now) action.now.state.now action.now.prepared.now action.now.entry.now) (all_held attachments.old.entries)) }
{
    let mut made = Vec::new(alloc);
    let count = attachments.len();
    for place in 0..count {
        stage_place(alloc, action, &mut made, attachments, place, pass, verdict)?;
    }
    Ok(())
}

/// Stages the lines at the attachment at a place.
fn stage_place<X: Game>(
    alloc: Global,
    action: &Action<'_, X>,
    made: &mut Vec<MadeLine>,
    attachments: &mut Attachments,
    place: usize,
    pass: u32,
    verdict: &Arc<Vec<u8>>,
) -> Result<(), NoMemory>
    requires within { place < length attachments.old.entries }
    requires verdict { is_line verdict.now.value.items ≡ true }
    requires made { AreMade (action_line (X.rules action.now.game.now) action.now.state.now action.now.prepared.now action.now.entry.now) made.old.items }
    ensures made { AreMade (action_line (X.rules action.now.game.now) action.now.state.now action.now.prepared.now action.now.entry.now) made.new.items }
    ensures same { all_held attachments.new.entries ≡ all_held attachments.old.entries }
    ensures staged { OnOk result (attachments.new.entries
        ≡ at_place place (staged pass verdict.now.value.items (action_line (X.rules action.now.game.now) action.now.state.now action.now.prepared.now action.now.entry.now)) attachments.old.entries) }
{
    let (seat, protocol) = viewer_at(attachments, place);
    let line = line_for(alloc, action, made, seat, protocol)?;
    stage_at(attachments, place, pass, verdict, &line)
}
