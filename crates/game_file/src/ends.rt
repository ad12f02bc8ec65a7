//! Ends of a match.

use crate::members::Members;
use crate::paths::{fault_at, item_path};
use crate::source::Code;
use crate::unread::Unread;
use game_sheet::List;
use game_syntax::FaultName;
use std::alloc::Global;
use toml::Value;

/// A way in which a match ends.
pub struct EndMember {
    /// How it ends.
    pub kind: EndKind,
    /// Who wins, or whether it ends.
    pub code: Code,
}

/// How a match ends.
#[derive(Clone, Copy)]
pub enum EndKind {
    /// A seat wins.
    Winner,
    /// Nobody wins.
    Draw,
    /// It is over.
    Ended,
}

impl Drop for EndMember {
    fn drop(self) {
        let EndMember { kind: _, code } = self;
        drop(code);
    }
}

/// The ends of the file, in its order.
pub(crate) fn ends(alloc: Global, members: &Members<'_>) -> Result<List<EndMember>, Unread> {
    match members.table.get("endIf") {
        None => Ok(List::new(alloc)),
        Some(Value::Array(items)) => {
            let path = members.path_of(alloc, "endIf")?;
            ends_of(alloc, items.as_slice(), path.as_str())
        }
        Some(_) => Err(members.fault(
            alloc,
            FaultName::BadType,
            "endIf",
            "a list of tables is wanted",
        )),
    }
}

fn ends_of(alloc: Global, items: &[Value], path: &str) -> Result<List<EndMember>, Unread> {
    let mut ends = List::new(alloc);
    for (place, item) in items.iter().enumerate() {
        ends.push(end_at(alloc, item, path, place)?)?;
    }
    Ok(ends)
}

static MEMBERS: [&str; 3] = ["winner", "draw", "ended"];

/// The members of an end.
fn end_members<'a>(alloc: Global, item: &'a Value, path: &'a str) -> Result<Members<'a>, Unread> {
    Members::of(alloc, item, path, &MEMBERS)
}

fn end_at(alloc: Global, item: &Value, path: &str, place: usize) -> Result<EndMember, Unread> {
    let path = item_path(alloc, path, place)?;
    let members = end_members(alloc, item, path.as_str())?;
    match end_kind(&members) {
        Some(kind) => end_of(alloc, &members, kind),
        None => Err(fault_at(
            alloc,
            FaultName::EndWantsOne,
            path.as_str(),
            "an end has one of winner, draw and ended",
        )),
    }
}

/// Which one of its members an end has.
fn end_kind(members: &Members<'_>) -> Option<EndKind> {
    let winner = members.table.contains_key("winner");
    let draw = members.table.contains_key("draw");
    let ended = members.table.contains_key("ended");
    match (winner, draw, ended) {
        (true, false, false) => Some(EndKind::Winner),
        (false, true, false) => Some(EndKind::Draw),
        (false, false, true) => Some(EndKind::Ended),
        _ => None,
    }
}

impl EndKind {
    /// The member that an end of this kind has.
    fn member(self) -> &'static str {
        match self {
            EndKind::Winner => "winner",
            EndKind::Draw => "draw",
            EndKind::Ended => "ended",
        }
    }
}

fn end_of(alloc: Global, members: &Members<'_>, kind: EndKind) -> Result<EndMember, Unread> {
    let code = members.code(alloc, kind.member())?;
    Ok(EndMember { kind, code })
}
