//! A game from its file.

use crate::joining::{Codes, codes_of, parts_of};
use crate::parting::{FrameParts, parted};
use crate::unloaded::{Unloaded, unread};
use code_loader::{FileCode, GameCost, code_of, cost_of};
use described_game::GameParts;
use game_file::GameFile;
use game_frame::{Frame, SpecFrame, frame_of};
use game_sheet::{NoMemory, Text};
use std::alloc::Global;

/// A game from a file.
#[derive(Drop)]
pub struct LoadedGame {
    /// What it is made of.
    pub parts: GameParts,
    /// The common list by which seats are ranked.
    pub scores: Option<u8>,
    /// Whether clients are told the description without most of its code.
    pub hidden: bool,
    /// What it takes.
    pub cost: GameCost,
}

/// The game that a file describes, or why there is none: its first fault.
pub fn load(alloc: Global, file: &GameFile) -> Result<LoadedGame, Unloaded> {
    match frame_of(alloc, file) {
        Ok(frame) => load_in(alloc, file, frame),
        Err(why) => Err(unread(why)),
    }
}

/// The game of a file whose frame is given.
fn load_in(alloc: Global, file: &GameFile, frame: Frame) -> Result<LoadedGame, Unloaded> {
    match code_in(alloc, file, &frame) {
        Ok(coded) => joined(alloc, file, frame, coded),
        Err(why) => {
            drop(frame);
            Err(why)
        }
    }
}

/// The code of a game, with what it takes.
#[derive(Drop)]
struct Coded {
    codes: Codes,
    cost: GameCost,
}

fn code_in(alloc: Global, file: &GameFile, frame: &Frame) -> Result<Coded, Unloaded> {
    match code_of(alloc, file, frame) {
        Ok(code) => code_within(alloc, file, frame, code),
        Err(why) => Err(unread(why)),
    }
}

/// The code, if it is within the limits of the whole game, and games can have what it needs.
fn code_within(
    alloc: Global,
    file: &GameFile,
    frame: &Frame,
    code: FileCode,
) -> Result<Coded, Unloaded> {
    match cost_within(alloc, file, frame, &code) {
        Ok(cost) => {
            let codes = codes_of(alloc, file, frame, code)?;
            Ok(Coded { codes, cost })
        }
        Err(why) => {
            drop(code);
            Err(why)
        }
    }
}

fn cost_within(
    alloc: Global,
    file: &GameFile,
    frame: &Frame,
    code: &FileCode,
) -> Result<GameCost, Unloaded> {
    match cost_of(alloc, file, frame, code) {
        Ok(cost) => match not_yet(frame.specs.as_slice()) {
            Some(name) => Err(Unloaded::NotYet(spec_path(alloc, name)?)),
            None => Ok(cost),
        },
        Err(why) => Err(unread(why)),
    }
}

/// The name of the first spec whose seats a slot names, if there is one.
fn not_yet<'a>(specs: &'a [SpecFrame]) -> Option<&'a str> {
    for spec in specs {
        if spec.seats.is_some() {
            return Some(spec.name.as_str());
        }
    }
    None
}

/// The path at which the seats of a spec stand.
fn spec_path(alloc: Global, name: &str) -> Result<Text, NoMemory> {
    let path = format!(in alloc; "activePlayers.{name}.value")?;
    Text::from_str(alloc, path.as_str())
}

/// The game of what isn't code and of its code.
fn joined(
    alloc: Global,
    file: &GameFile,
    frame: Frame,
    coded: Coded,
) -> Result<LoadedGame, Unloaded> {
    let Coded { codes, cost } = coded;
    match parted(alloc, frame) {
        Ok(frame) => {
            let FrameParts {
                sheet,
                layout,
                rows,
                scores,
            } = frame;
            let parts = parts_of(alloc, sheet, layout, rows, codes)?;
            Ok(LoadedGame {
                parts,
                scores,
                hidden: file.head.hidden,
                cost,
            })
        }
        Err(NoMemory) => {
            drop(codes);
            Err(Unloaded::NoMemory)
        }
    }
}
