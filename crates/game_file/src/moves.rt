//! Moves.

ghost use Rattle.std.specs.Prelude.{◌≤◌, length, IfOk};

use crate::members::Members;
use crate::names::check_row_name;
use crate::paths::{fault_at, item_path};
use crate::rows::{Row, RowAt, Title};
use crate::source::{Code, Source};
use crate::unread::Unread;
use game_sheet::{Args, List};
use game_syntax::FaultName;
use std::alloc::Global;
use toml::Value;

/// A move.
pub struct MoveMember {
    /// Its name, 1 to 32 letters and digits, and its path.
    pub title: Title,
    /// The texts of its arguments, at most 8; one text may have several arguments.
    pub args: List<Source>,
    /// Whether it is allowed.
    pub when: Code,
    /// What it does.
    pub deed: Code,
    /// What else is said of it.
    pub says: MoveSays,
}

/// What is said of a move beside its code.
#[derive(Clone, Copy)]
pub struct MoveSays {
    /// Whether it may be undone, if that is said.
    pub undoable: Option<bool>,
    /// Whether a client may guess it, if that is said.
    pub client: Option<bool>,
    /// Whether others see no arguments of it, if that is said.
    pub redact: Option<bool>,
    /// Whether it counts toward no limit.
    pub no_limit: bool,
    /// Whether it is taken on any state number.
    pub ignore_stale: bool,
}

impl Drop for MoveMember {
    fn drop(self) {
        let MoveMember {
            title,
            args,
            when,
            deed,
            says: _,
        } = self;
        drop(title);
        drop(args);
        drop(when);
        drop(deed);
    }
}

static MEMBERS: [&str; 9] = [
    "args",
    "when",
    "do",
    "undoable",
    "client",
    "redact",
    "noLimit",
    "ignoreStaleStateID",
    "about",
];

/// The members of a move.
fn move_members<'a>(alloc: Global, at: &RowAt<'a>) -> Result<Members<'a>, Unread> {
    Members::of(alloc, at.value, at.path, &MEMBERS)
}

impl Row for MoveMember {
    ghost use Rattle.game_file.specs.FileFits.{MoveFits};

    ghost fits = { MoveFits };

    fn read(alloc: Global, at: &RowAt<'_>) -> Result<Self, Unread> {
        check_row_name(alloc, at.name, at.path)?;
        let members = move_members(alloc, at)?;
        let args = arguments(alloc, &members)?;
        let when = members.code(alloc, "when")?;
        let deed = members.code(alloc, "do")?;
        let says = said(alloc, &members)?;
        let title = at.title(alloc)?;
        Ok(MoveMember {
            title,
            args,
            when,
            deed,
            says,
        })
    }
}

fn said(alloc: Global, members: &Members<'_>) -> Result<MoveSays, Unread> {
    let undoable = members.flag(alloc, "undoable")?;
    let client = members.flag(alloc, "client")?;
    let redact = members.flag(alloc, "redact")?;
    let no_limit = members.is(alloc, "noLimit")?;
    let ignore_stale = members.is(alloc, "ignoreStaleStateID")?;
    members.is_text(alloc, "about")?;
    Ok(MoveSays {
        undoable,
        client,
        redact,
        no_limit,
        ignore_stale,
    })
}

/// The texts of a move's arguments.
fn arguments(alloc: Global, members: &Members<'_>) -> Result<List<Source>, Unread>
    ensures { IfOk result (λ args. length args ≤ 8) }
{
    match members.table.get("args") {
        None => Ok(List::new(alloc)),
        Some(Value::Array(items)) => {
            let path = members.path_of(alloc, "args")?;
            argument_texts(alloc, items.as_slice(), path.as_str())
        }
        Some(_) => Err(members.fault(
            alloc,
            FaultName::BadType,
            "args",
            "a list of texts is wanted",
        )),
    }
}

fn argument_texts(alloc: Global, items: &[Value], path: &str) -> Result<List<Source>, Unread>
    ensures { IfOk result (λ args. length args ≤ 8) }
{
    if items.len() > Args::MOST {
        return Err(fault_at(
            alloc,
            FaultName::TooMany,
            path,
            "a move has at most 8 arguments",
        ));
    }
    let mut args = List::new(alloc);
    for (place, item) in items.iter().enumerate() {
        args.push(argument_text(alloc, item, path, place)?)?;
    }
    Ok(args)
}

fn argument_text(alloc: Global, item: &Value, path: &str, place: usize) -> Result<Source, Unread> {
    let path = item_path(alloc, path, place)?;
    Source::line(alloc, item, path.as_str())
}
