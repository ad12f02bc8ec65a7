//! Constants, as code can name them.

use crate::frame::{ConstantFrame, ConstantKind};
use crate::misfit::At;
use game_file::{Constant, ConstantMember, Unread};
use game_sheet::{Arg, List, NoMemory, Short};
use game_slots::{Items, Slots};
use game_syntax::FaultName;
use std::alloc::Global;

/// The constants, each row with its place among the rows.
pub(crate) fn constants_of(
    alloc: Global,
    members: &[ConstantMember],
) -> Result<List<ConstantFrame>, Unread> {
    let mut constants = List::new(alloc);
    let mut row = 0;
    for member in members {
        row = add_constant(alloc, &mut constants, member, row)?;
    }
    Ok(constants)
}

/// Adds a constant, and gives the place of the row after it.
fn add_constant(
    alloc: Global,
    constants: &mut List<ConstantFrame>,
    member: &ConstantMember,
    row: u16,
) -> Result<u16, Unread> {
    constants.push(constant_of(alloc, member, row)?)?;
    row_after(alloc, &member.value, row)
}

fn constant_of(
    alloc: Global,
    member: &ConstantMember,
    row: u16,
) -> Result<ConstantFrame, NoMemory> {
    let name = member.name.copy(alloc)?;
    Ok(ConstantFrame {
        name,
        kind: kind_of(&member.value, row),
    })
}

fn kind_of(value: &Constant, row: u16) -> ConstantKind {
    match value {
        Constant::Number(number) => ConstantKind::Number(*number),
        Constant::Numbers(numbers) => ConstantKind::Numbers {
            row,
            least: least(numbers.as_slice()),
            greatest: greatest(numbers.as_slice()),
        },
        Constant::Texts(_) => ConstantKind::Texts(row),
    }
}

/// The place of the row after a constant.
fn row_after(alloc: Global, value: &Constant, row: u16) -> Result<u16, Unread> {
    match value {
        Constant::Number(_) => Ok(row),
        Constant::Numbers(_) | Constant::Texts(_) => match row.checked_add(1) {
            Some(row) => Ok(row),
            None => Err(At::whole("const").fault(
                alloc,
                FaultName::TooMany,
                "there are at most 65,535 rows of constants",
            )),
        },
    }
}

fn least(numbers: &[i32]) -> i32 {
    let mut least = i32::MAX;
    for number in numbers {
        least = least.min(*number);
    }
    least
}

fn greatest(numbers: &[i32]) -> i32 {
    let mut greatest = i32::MIN;
    for number in numbers {
        greatest = greatest.max(*number);
    }
    greatest
}

/// The items of each constant that is a row.
pub(crate) fn rows_of(alloc: Global, members: &[ConstantMember]) -> Result<Slots, NoMemory> {
    let mut rows = Vec::new(alloc);
    for member in members {
        if let Some(items) = items_of(alloc, &member.value)? {
            rows.push(items)?;
        }
    }
    Ok(Slots::from_vec(rows))
}

fn items_of(alloc: Global, value: &Constant) -> Result<Option<Items>, NoMemory> {
    match value {
        Constant::Number(_) => Ok(None),
        Constant::Numbers(numbers) => Ok(Some(number_items(alloc, numbers.as_slice())?)),
        Constant::Texts(texts) => Ok(Some(text_items(alloc, texts.as_slice())?)),
    }
}

fn number_items(alloc: Global, numbers: &[i32]) -> Result<Items, NoMemory> {
    let mut items = Items::new(alloc);
    for number in numbers {
        items.push(&Some(Arg::Whole(*number)))?;
    }
    Ok(items)
}

fn text_items(alloc: Global, texts: &[Short]) -> Result<Items, NoMemory> {
    let mut items = Items::new(alloc);
    for text in texts {
        items.push(&Some(Arg::Text(*text)))?;
    }
    Ok(items)
}
