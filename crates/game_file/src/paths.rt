//! Paths of members, and faults that stand at them.

use crate::unread::Unread;
use game_syntax::{Fault, FaultName};
use std::alloc::{AllocError, Global};

/// The path of a member of the table at a path, which is empty for the whole. A name that no table of the language has stands in quotes.
pub(crate) fn member_path(alloc: Global, path: &str, member: &str) -> Result<String, AllocError> {
    let mut whole = String::from_str(alloc, path)?;
    if !path.is_empty() {
        whole.push_str(".")?;
    }
    push_name(alloc, &mut whole, member)?;
    Ok(whole)
}

fn push_name(alloc: Global, path: &mut String, member: &str) -> Result<(), AllocError> {
    if is_bare(member.as_bytes()) {
        return path.push_str(member);
    }
    let quoted = format!(in alloc; "{member:?}")?;
    path.push_str(quoted.as_str())
}

/// Whether a name stands without quotes.
fn is_bare(name: &[u8]) -> bool {
    !name.is_empty()
        && name.iter().all(|byte| byte.is_ascii_alphanumeric() || *byte == b'_' || *byte == b'-')
}

/// The path of an item of the list at a path.
pub(crate) fn item_path(alloc: Global, path: &str, place: usize) -> Result<String, AllocError> {
    format!(in alloc; "{path}[{place}]")
}

/// A fault of the member at a path.
pub(crate) fn fault_at(alloc: Global, name: FaultName, path: &str, words: &str) -> Unread {
    match made_fault(alloc, name, path, words) {
        Ok(fault) => Unread::Fault(fault),
        Err(_) => Unread::NoMemory,
    }
}

fn made_fault(
    alloc: Global,
    name: FaultName,
    path: &str,
    words: &str,
) -> Result<Fault, AllocError> {
    let path = String::from_str(alloc, path)?;
    let words = String::from_str(alloc, words)?;
    Ok(Fault {
        name,
        path,
        place: None,
        words,
    })
}
