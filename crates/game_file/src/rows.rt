//! Tables of rows.

ghost use Rattle.std.specs.Prelude.{◌≡◌, ◌≤◌, length, All, IfOk};

use crate::members::Members;
use crate::paths::{fault_at, member_path};
use crate::unread::Unread;
use game_sheet::{List, NoMemory, Text};
use game_syntax::FaultName;
use std::alloc::Global;
use toml::{Table, Value};

/// A row of the file, not read yet: its name, its value and its path.
#[derive(Clone, Copy)]
pub(crate) struct RowAt<'a> {
    pub(crate) name: &'a str,
    pub(crate) value: &'a Value,
    pub(crate) path: &'a str,
}

/// The name of a row, and its path.
pub struct Title {
    /// Its name.
    pub name: Text,
    /// Its path.
    pub path: Text,
}

impl Drop for Title {
    fn drop(self) {
        let Title { name, path } = self;
        drop(name);
        drop(path);
    }
}

impl RowAt<'_> {
    /// The row's name and its path.
    pub(crate) fn title(&self, alloc: Global) -> Result<Title, NoMemory>
        ensures { IfOk result (λ title. title.name ≡ self.now.name.now) }
    {
        let name = Text::from_str(alloc, self.name)?;
        let path = Text::from_str(alloc, self.path)?;
        Ok(Title { name, path })
    }
}

/// A row of a table.
pub(crate) trait Row: Drop {
    ghost use Rattle.std.specs.Prelude.{IfOk};

    ghost fits: { Self → Type 0 } = { λ _. Unit {0} };

    /// The row that the file has, its name in the form of such rows.
    fn read(alloc: Global, at: &RowAt<'_>) -> Result<Self, Unread>
        ensures { IfOk result fits };
}

/// The rows of a table, in the byte order of their names; none where the table isn't there.
pub(crate) fn rows<R: Row>(
    alloc: Global,
    members: &Members<'_>,
    member: &str,
    most: usize,
) -> Result<List<R>, Unread>
    ensures most { IfOk result (λ rows. length rows ≤ most) }
    ensures fits { IfOk result (All R.fits) }
{
    match members.table.get(member) {
        None => Ok(List::new(alloc)),
        Some(Value::Table(table)) => {
            let path = members.path_of(alloc, member)?;
            rows_of(alloc, table, path.as_str(), most)
        }
        Some(_) => Err(members.fault(alloc, FaultName::BadType, member, "a table is wanted")),
    }
}

fn rows_of<R: Row>(alloc: Global, table: &Table, path: &str, most: usize) -> Result<List<R>, Unread>
    ensures most { IfOk result (λ rows. length rows ≤ most) }
    ensures fits { IfOk result (All R.fits) }
{
    let mut rows = List::new(alloc);
    for (name, value) in table {
        if rows.len() == most {
            return Err(fault_at(alloc, FaultName::TooMany, path, ""));
        }
        rows.push(row_of(alloc, name.as_str(), value, path)?)?;
    }
    Ok(rows)
}

fn row_of<R: Row>(alloc: Global, name: &str, value: &Value, path: &str) -> Result<R, Unread>
    ensures { IfOk result R.fits }
{
    let path = member_path(alloc, path, name)?;
    let at = RowAt {
        name,
        value,
        path: path.as_str(),
    };
    R::read(alloc, &at)
}
