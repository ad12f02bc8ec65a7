//! The moves of a game.

use crate::listed::{listed_row, when_listed};
use code_loader::{CodedList, CodedMove};
use described_game::{ArgumentGroup, ArgumentKind, ArgumentRow, MoveCode, NumberRange};
use game_code::Expression;
use game_file::MoveMember;
use game_frame::{ArgumentFrame, ArgumentKind as FrameKind, ListFrame, MoveFrame};
use game_sheet::{List, NoMemory};
use game_slots::Items;
use std::alloc::Global;

/// What moves stand in.
#[derive(Clone, Copy)]
pub(crate) struct Around<'a> {
    pub(crate) alloc: Global,
    pub(crate) members: &'a [MoveMember],
    pub(crate) frames: &'a [MoveFrame],
    pub(crate) most_seats: u8,
    /// Whether no `onMove` and no `endIf` draws words or names what is hidden.
    pub(crate) is_open: bool,
}

impl Around<'_> {
    /// The moves, in the order of the sheet.
    pub(crate) fn move_codes(&self, coded: Vec<CodedMove>) -> Result<List<MoveCode>, NoMemory> {
        let mut moves = List::new(self.alloc);
        for (place, row) in coded.into_iter().enumerate() {
            moves.push(self.move_code(place, row)?)?;
        }
        Ok(moves)
    }

    fn move_code(&self, place: usize, coded: CodedMove) -> Result<MoveCode, NoMemory> {
        let undoable = self.may_undo(place, coded.is_open);
        let CodedMove {
            when,
            lists,
            code,
            is_open: _,
            cost: _,
        } = coded;
        let allowed = self.allowed_at(place, lists.as_slice(), when);
        let arguments = self.groups_at(place, lists.as_slice());
        drop(lists);
        match (allowed, arguments) {
            (Ok(when), Ok(arguments)) => Ok(MoveCode {
                arguments,
                when,
                code,
                undoable,
            }),
            (allowed, arguments) => {
                drop(allowed);
                drop(arguments);
                drop(code);
                Err(NoMemory)
            }
        }
    }

    /// Whether a move is allowed, with the tests that the numbers of arguments are items of their lists. The test of the first
    /// list comes first.
    fn allowed_at(
        &self,
        place: usize,
        lists: &[CodedList],
        when: Expression,
    ) -> Result<Expression, NoMemory> {
        match self.frames.get(place) {
            Some(frame) => self.allowed(frame, lists, when),
            None => Ok(when),
        }
    }

    fn allowed(
        &self,
        frame: &MoveFrame,
        lists: &[CodedList],
        when: Expression,
    ) -> Result<Expression, NoMemory> {
        let mut when = when;
        for (row, list) in frame.lists.as_slice().iter().zip(lists.iter()).rev() {
            let ranges = self.ranges(frame, row)?;
            when = when_listed(self.alloc, ranges.as_slice(), row.first, list, when)?;
            drop(ranges);
        }
        Ok(when)
    }

    /// Whether a move may be undone: as is said, or where nothing that it leads to draws words or names what is hidden.
    fn may_undo(&self, place: usize, is_open: bool) -> bool {
        match self.members.get(place) {
            Some(member) => member.says.undoable.unwrap_or(is_open && self.is_open),
            None => false,
        }
    }

    /// Whether a client may guess each move, by the same rule.
    pub(crate) fn guesses(&self, coded: &[CodedMove]) -> Result<Vec<bool>, NoMemory> {
        let mut flags = Vec::new(self.alloc);
        for (place, row) in coded.iter().enumerate() {
            flags.push(self.may_guess(place, row.is_open))?;
        }
        Ok(flags)
    }

    fn may_guess(&self, place: usize, is_open: bool) -> bool {
        match self.members.get(place) {
            Some(member) => member.says.client.unwrap_or(is_open && self.is_open),
            None => false,
        }
    }

    fn groups_at(
        &self,
        place: usize,
        lists: &[CodedList],
    ) -> Result<List<ArgumentGroup>, NoMemory> {
        match self.frames.get(place) {
            Some(frame) => self.groups(frame, lists),
            None => Ok(List::new(self.alloc)),
        }
    }

    /// The arguments of a move, those of a list in one group.
    fn groups(
        &self,
        frame: &MoveFrame,
        lists: &[CodedList],
    ) -> Result<List<ArgumentGroup>, NoMemory> {
        let mut groups = List::new(self.alloc);
        for (place, argument) in frame.arguments.as_slice().iter().enumerate() {
            match listed_at(frame, place) {
                None => groups.push(self.one(argument)?)?,
                Some(number) => {
                    if let Some(group) = self.listed(frame, lists, number, place)? {
                        groups.push(group)?;
                    }
                }
            }
        }
        Ok(groups)
    }

    fn one(&self, argument: &ArgumentFrame) -> Result<ArgumentGroup, NoMemory> {
        let offers = self.offers(argument)?;
        Ok(ArgumentGroup::One(ArgumentRow {
            kind: kind_of(argument.kind, self.most_seats),
            offers,
        }))
    }

    fn offers(&self, argument: &ArgumentFrame) -> Result<Option<Items>, NoMemory> {
        match &argument.offered {
            Some(items) => Ok(Some(items.copy(self.alloc)?)),
            None => Ok(None),
        }
    }

    /// The group of a list, where its first argument stands.
    fn listed(
        &self,
        frame: &MoveFrame,
        lists: &[CodedList],
        number: usize,
        place: usize,
    ) -> Result<Option<ArgumentGroup>, NoMemory> {
        match (frame.lists.get(number), lists.get(number)) {
            (Some(row), Some(list)) if usize::from(row.first) == place => {
                Ok(Some(self.group(frame, row, list)?))
            }
            _ => Ok(None),
        }
    }

    fn group(
        &self,
        frame: &MoveFrame,
        row: &ListFrame,
        list: &CodedList,
    ) -> Result<ArgumentGroup, NoMemory> {
        let ranges = self.ranges(frame, row)?;
        Ok(ArgumentGroup::Listed(listed_row(self.alloc, ranges, list)?))
    }

    /// The ranges of the arguments of a list.
    fn ranges(&self, frame: &MoveFrame, row: &ListFrame) -> Result<List<NumberRange>, NoMemory> {
        let mut ranges = List::new(self.alloc);
        for place in row.first..row.past {
            if let Some(argument) = frame.arguments.get(usize::from(place)) {
                ranges.push(range_of(argument.kind, self.most_seats))?;
            }
        }
        Ok(ranges)
    }
}

/// Which of the lists of a move an argument is in.
fn listed_at(frame: &MoveFrame, place: usize) -> Option<usize> {
    for (number, row) in frame.lists.as_slice().iter().enumerate() {
        if usize::from(row.first) <= place && place < usize::from(row.past) {
            return Some(number);
        }
    }
    None
}

fn kind_of(kind: FrameKind, most_seats: u8) -> ArgumentKind {
    match kind {
        FrameKind::Text => ArgumentKind::Text,
        _ => ArgumentKind::Number(range_of(kind, most_seats)),
    }
}

/// The range of an argument; of a text, which is in no list, that of no numbers but 0.
fn range_of(kind: FrameKind, most_seats: u8) -> NumberRange {
    match kind {
        FrameKind::Number { least, greatest } => NumberRange {
            least,
            greatest,
            seat: false,
        },
        FrameKind::Seat => NumberRange {
            least: 0,
            greatest: i32::from(most_seats.saturating_sub(1)),
            seat: true,
        },
        FrameKind::Text => NumberRange {
            least: 0,
            greatest: 0,
            seat: false,
        },
    }
}
