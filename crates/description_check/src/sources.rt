//! The text of a member by its path.

use game_file::{
    Code, CodeMember, EndMember, FileEnd, FileFlow, FileNames, GameFile, HintMember, MoveMember,
    PhaseHooks, PhaseMember, SlotMember, Source, TurnHooks, TurnMember,
};
use game_sheet::List;

/// The text of the member at a path, if it is one that is read on: code, the type of a slot, an argument or a click.
pub fn text_at<'a>(file: &'a GameFile, path: &str) -> Option<&'a str> {
    match source_at(file, path) {
        Some(source) => Some(source.text.as_str()),
        None => None,
    }
}

fn source_at<'a>(file: &'a GameFile, path: &str) -> Option<&'a Source> {
    in_names(&file.names, path)
        .or(in_flow(&file.flow, path))
        .or(in_end(&file.end, path))
        .or(in_hints(&file.hints, path))
}

fn in_names<'a>(names: &'a FileNames, path: &str) -> Option<&'a Source> {
    in_slots(&names.slots.common, path)
        .or(in_slots(&names.slots.players, path))
        .or(in_slots(&names.slots.secret, path))
        .or(in_slots(&names.slots.work, path))
        .or(in_codes(&names.functions, path))
        .or(in_codes(&names.procedures, path))
}

/// The text, if it is the one at the path.
fn if_at<'a>(source: &'a Source, path: &str) -> Option<&'a Source> {
    if source.path.as_str() == path {
        Some(source)
    } else {
        None
    }
}

fn in_code<'a>(code: &'a Code, path: &str) -> Option<&'a Source> {
    if_at(code.source()?, path)
}

fn in_slots<'a>(slots: &'a List<SlotMember>, path: &str) -> Option<&'a Source> {
    for slot in slots.as_slice() {
        if let Some(source) = if_at(&slot.source, path) {
            return Some(source);
        }
    }
    None
}

fn in_codes<'a>(codes: &'a List<CodeMember>, path: &str) -> Option<&'a Source> {
    for code in codes.as_slice() {
        if let Some(source) = if_at(&code.source, path) {
            return Some(source);
        }
    }
    None
}

fn in_flow<'a>(flow: &'a FileFlow, path: &str) -> Option<&'a Source> {
    in_code(&flow.setup, path)
        .or(in_moves(&flow.moves, path))
        .or(in_turn(&flow.turn, path))
        .or(in_phases(&flow.tables.phases, path))
}

fn in_moves<'a>(moves: &'a List<MoveMember>, path: &str) -> Option<&'a Source> {
    for row in moves.as_slice() {
        if let Some(source) = in_move(row, path) {
            return Some(source);
        }
    }
    None
}

fn in_move<'a>(row: &'a MoveMember, path: &str) -> Option<&'a Source> {
    in_code(&row.when, path)
        .or(in_code(&row.deed, path))
        .or(in_arguments(&row.args, path))
}

fn in_arguments<'a>(arguments: &'a List<Source>, path: &str) -> Option<&'a Source> {
    for source in arguments.as_slice() {
        if let Some(source) = if_at(source, path) {
            return Some(source);
        }
    }
    None
}

fn in_turn<'a>(turn: &'a Option<TurnMember>, path: &str) -> Option<&'a Source> {
    match turn {
        Some(turn) => in_turn_hooks(&turn.hooks, path),
        None => None,
    }
}

fn in_turn_hooks<'a>(hooks: &'a TurnHooks, path: &str) -> Option<&'a Source> {
    in_code(&hooks.on_begin, path)
        .or(in_code(&hooks.on_end, path))
        .or(in_code(&hooks.on_move, path))
        .or(in_code(&hooks.end_if, path))
}

fn in_phases<'a>(phases: &'a List<PhaseMember>, path: &str) -> Option<&'a Source> {
    for row in phases.as_slice() {
        if let Some(source) = in_phase(row, path) {
            return Some(source);
        }
    }
    None
}

fn in_phase<'a>(row: &'a PhaseMember, path: &str) -> Option<&'a Source> {
    in_phase_hooks(&row.hooks, path).or(in_turn(&row.turn, path))
}

fn in_phase_hooks<'a>(hooks: &'a PhaseHooks, path: &str) -> Option<&'a Source> {
    in_code(&hooks.on_begin, path)
        .or(in_code(&hooks.on_end, path))
        .or(in_code(&hooks.end_if, path))
}

fn in_end<'a>(end: &'a FileEnd, path: &str) -> Option<&'a Source> {
    in_code(&end.on_end, path).or(in_ends(&end.ends, path))
}

fn in_ends<'a>(ends: &'a List<EndMember>, path: &str) -> Option<&'a Source> {
    for row in ends.as_slice() {
        if let Some(source) = in_code(&row.code, path) {
            return Some(source);
        }
    }
    None
}

fn in_hints<'a>(hints: &'a List<HintMember>, path: &str) -> Option<&'a Source> {
    for hint in hints.as_slice() {
        if let Some(source) = in_code(&hint.click, path) {
            return Some(source);
        }
    }
    None
}
