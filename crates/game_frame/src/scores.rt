//! The list by which seats are ranked.

use crate::frame::{SlotFrame, SlotType};
use crate::misfit::At;
use crate::turns::slot_named;
use game_file::Unread;
use game_sheet::Text;
use game_slots::{Count, ItemKind};
use game_syntax::FaultName;
use std::alloc::Global;

/// The common slot that `scores` names: a list of numbers, one for each seat.
pub(crate) fn scores_of(
    alloc: Global,
    scores: &Option<Text>,
    common: &[SlotFrame],
) -> Result<Option<u8>, Unread> {
    match scores {
        None => Ok(None),
        Some(name) => Ok(Some(score_list(alloc, name, common)?)),
    }
}

fn score_list(alloc: Global, name: &Text, common: &[SlotFrame]) -> Result<u8, Unread> {
    let at = At::whole("scores");
    match slot_named(common, name.as_str()) {
        None => Err(at.about(
            alloc,
            FaultName::UnknownName,
            "there is no slot of `common` ",
            name.as_str(),
        )),
        Some((place, slot)) => {
            if is_score_list(&slot) {
                Ok(place)
            } else {
                Err(at.fault(
                    alloc,
                    FaultName::BadScores,
                    "a list of numbers is wanted, one for each seat, as [0..99; seats]",
                ))
            }
        }
    }
}

fn is_score_list(slot: &SlotType) -> bool {
    slot.columns.is_none() && is_one_a_seat(slot.row.begin) && is_number(&slot.row.kind)
}

fn is_one_a_seat(begin: Count) -> bool {
    match begin {
        Count::PerSeat(count) => count == 1,
        Count::Fixed(_) => false,
    }
}

fn is_number(kind: &ItemKind) -> bool {
    match kind {
        ItemKind::Number { .. } => true,
        ItemKind::Text => false,
    }
}
