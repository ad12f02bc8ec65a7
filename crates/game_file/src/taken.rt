//! Names of code that mean two things.

use crate::codes::CodeMember;
use crate::constants::ConstantMember;
use crate::file::FileNames;
use crate::members::member_fault;
use crate::slots::SlotMember;
use crate::unread::Unread;
use game_sheet::List;
use game_syntax::FaultName;
use std::alloc::Global;

/// What has a name.
pub(crate) trait Called {
    ghost use Rattle.std.specs.Prelude.{◌≡◌, List, ℕ};

    ghost name: { Self → List ℕ };

    fn name(&self) -> &str
        ensures { result.now ≡ name self.now };
}

impl Called for ConstantMember {
    ghost name = { λ row. row.name };

    fn name(&self) -> &str {
        self.name.as_str()
    }
}

impl Called for SlotMember {
    ghost name = { λ row. row.name };

    fn name(&self) -> &str {
        self.name.as_str()
    }
}

impl Called for CodeMember {
    ghost name = { λ row. row.name };

    fn name(&self) -> &str {
        self.name.as_str()
    }
}

/// Refuses the first name of code that means something else already: constants, slots of `common`, slots of `work`, named
/// expressions and named statements have names of their own. Slots of a seat and secret ones are named behind a word.
pub(crate) fn check_names(alloc: Global, names: &FileNames) -> Result<(), Unread> {
    let slots = &names.slots;
    check_table(alloc, names, slots.common.as_slice(), "common", 1)?;
    check_table(alloc, names, slots.work.as_slice(), "work", 2)?;
    check_table(alloc, names, names.functions.as_slice(), "fun", 3)?;
    check_table(alloc, names, names.procedures.as_slice(), "proc", 4)
}

/// Refuses the first row of a table whose name one of the first tables has.
fn check_table<Row: Called>(
    alloc: Global,
    names: &FileNames,
    rows: &[Row],
    member: &str,
    tables: u8,
) -> Result<(), Unread> {
    for row in rows {
        if is_taken_before(names, row.name(), tables) {
            return Err(member_fault(alloc, FaultName::NameTaken, member, row.name(), ""));
        }
    }
    Ok(())
}

/// Whether a name is that of a constant, of a slot of `common` or `work`, or of named code.
pub fn is_taken(names: &FileNames, name: &str) -> bool {
    is_taken_before(names, name, TABLES) || has_name(&names.procedures, name)
}

/// How many tables there are before the last one.
const TABLES: u8 = 4;

/// Whether one of the first tables has a name.
fn is_taken_before(names: &FileNames, name: &str, tables: u8) -> bool {
    has_name(&names.constants, name)
        || (tables > 1 && has_name(&names.slots.common, name))
        || (tables > 2 && has_name(&names.slots.work, name))
        || (tables > 3 && has_name(&names.functions, name))
}

fn has_name<Row: Called>(rows: &List<Row>, name: &str) -> bool {
    rows.as_slice().iter().any(|row| row.name() == name)
}
