//! Members of one table of the file, asked for by name.

use crate::paths::{fault_at, member_path};
use crate::source::{Code, Source};
use crate::unread::Unread;
use game_sheet::{List, Text};
use game_syntax::FaultName;
use std::alloc::Global;
use toml::{Table, Value};

/// A table of the file with its path, which is empty for the whole.
#[derive(Clone, Copy)]
pub(crate) struct Members<'a> {
    pub(crate) table: &'a Table,
    pub(crate) path: &'a str,
}

/// Limits of moves, as the file says them.
#[derive(Clone, Copy)]
pub struct Limits {
    /// The least count of moves, 0 where nothing is said.
    pub min_moves: i32,
    /// The count of moves at which a turn, or a seat's stage, ends by itself.
    pub max_moves: Option<i32>,
}

impl Members<'_> {
    /// The members of a table, which have to be among those of the language.
    pub(crate) fn of<'a>(
        alloc: Global,
        value: &'a Value,
        path: &'a str,
        known: &[&str],
    ) -> Result<Members<'a>, Unread> {
        match value {
            Value::Table(table) => Members::known(alloc, table, path, known),
            _ => Err(fault_at(alloc, FaultName::BadType, path, "a table is wanted")),
        }
    }

    /// The members of a table, which have to be among those of the language.
    pub(crate) fn known<'a>(
        alloc: Global,
        table: &'a Table,
        path: &'a str,
        known: &[&str],
    ) -> Result<Members<'a>, Unread> {
        for (name, _) in table {
            if !is_among(known, name.as_str()) {
                return Err(member_fault(alloc, FaultName::UnknownMember, path, name.as_str(), ""));
            }
        }
        Ok(Members { table, path })
    }

    /// The path of a member.
    pub(crate) fn path_of(&self, alloc: Global, member: &str) -> Result<String, Unread> {
        Ok(member_path(alloc, self.path, member)?)
    }

    /// A fault of a member.
    pub(crate) fn fault(
        &self,
        alloc: Global,
        name: FaultName,
        member: &str,
        words: &str,
    ) -> Unread {
        member_fault(alloc, name, self.path, member, words)
    }

    /// A member that is a text, if it is there.
    pub(crate) fn text(&self, alloc: Global, member: &str) -> Result<Option<Text>, Unread> {
        match self.table.get(member) {
            None => Ok(None),
            Some(Value::String(text)) => Ok(Some(Text::from_str(alloc, text.as_str())?)),
            Some(_) => Err(self.fault(alloc, FaultName::BadType, member, "a text is wanted")),
        }
    }

    /// Whether a member that need not be kept is a text, if it is there.
    pub(crate) fn is_text(&self, alloc: Global, member: &str) -> Result<(), Unread> {
        match self.table.get(member) {
            None | Some(Value::String(_)) => Ok(()),
            Some(_) => Err(self.fault(alloc, FaultName::BadType, member, "a text is wanted")),
        }
    }

    /// A member that is true or false, if it is there.
    pub(crate) fn flag(&self, alloc: Global, member: &str) -> Result<Option<bool>, Unread> {
        match self.table.get(member) {
            None => Ok(None),
            Some(Value::Boolean(flag)) => Ok(Some(*flag)),
            Some(_) => Err(self.fault(
                alloc,
                FaultName::BadType,
                member,
                "true or false is wanted",
            )),
        }
    }

    /// A member that is true or false, and false if it isn't there.
    pub(crate) fn is(&self, alloc: Global, member: &str) -> Result<bool, Unread> {
        let flag = self.flag(alloc, member)?;
        Ok(flag.unwrap_or(false))
    }

    /// A member that is a number of 32 bits, if it is there.
    pub(crate) fn number(&self, alloc: Global, member: &str) -> Result<Option<i32>, Unread> {
        match self.table.get(member) {
            None => Ok(None),
            Some(Value::Integer(number)) => match i32::try_from(*number) {
                Ok(number) => Ok(Some(number)),
                Err(_) => Err(self.fault(alloc, FaultName::OutOfRange, member, "")),
            },
            Some(_) => Err(self.fault(alloc, FaultName::BadType, member, "a number is wanted")),
        }
    }

    /// A member that is code, if it is there.
    pub(crate) fn code(&self, alloc: Global, member: &str) -> Result<Code, Unread> {
        match self.table.get(member) {
            None => Ok(Code::none()),
            Some(value) => {
                let path = self.path_of(alloc, member)?;
                Ok(Code::of(Source::code(alloc, value, path.as_str())?))
            }
        }
    }

    /// The least and the greatest count of moves.
    pub(crate) fn limits(&self, alloc: Global) -> Result<Limits, Unread> {
        let min_moves = self.number(alloc, "minMoves")?;
        let max_moves = self.number(alloc, "maxMoves")?;
        Ok(Limits {
            min_moves: min_moves.unwrap_or(0),
            max_moves,
        })
    }

    /// A member that is a list of names, if it is there.
    pub(crate) fn names(&self, alloc: Global, member: &str) -> Result<Option<List<Text>>, Unread> {
        match self.table.get(member) {
            None => Ok(None),
            Some(Value::Array(items)) => {
                let path = self.path_of(alloc, member)?;
                Ok(Some(texts_of(alloc, items.as_slice(), path.as_str())?))
            }
            Some(_) => Err(self.fault(
                alloc,
                FaultName::BadType,
                member,
                "a list of names is wanted",
            )),
        }
    }
}

/// The texts of a list.
fn texts_of(alloc: Global, items: &[Value], path: &str) -> Result<List<Text>, Unread> {
    let mut texts = List::new(alloc);
    for item in items {
        match item {
            Value::String(text) => texts.push(Text::from_str(alloc, text.as_str())?)?,
            _ => return Err(fault_at(alloc, FaultName::BadType, path, "a list of names is wanted")),
        }
    }
    Ok(texts)
}

fn is_among(known: &[&str], name: &str) -> bool {
    known.iter().any(|word| *word == name)
}

/// A fault of a member of the table at a path.
pub(crate) fn member_fault(
    alloc: Global,
    name: FaultName,
    path: &str,
    member: &str,
    words: &str,
) -> Unread {
    match member_path(alloc, path, member) {
        Ok(path) => fault_at(alloc, name, path.as_str(), words),
        Err(_) => Unread::NoMemory,
    }
}
