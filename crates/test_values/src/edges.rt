//! Edges of lines that stand in no text of rows: bytes that are no text, a newline at the end, and how deep values nest.

use json_tree::{FieldFault, LineFault, line_of, read_line};
use std::alloc::{AllocError, Global};
use std::test::Fail;
use wire_json::{Member, Refusal, WireNo};

fn fault_of(alloc: Global, line: &[u8], bound: u64) -> Option<LineFault> {
    read_line(alloc, line, bound).err()
}

#[test]
fn a_line_is_text_of_so_many_bytes(rt: HostRuntime) {
    let alloc = rt.alloc();
    assert_eq!(rt; fault_of(alloc, b"{\"a\":1}\n", 8), None);
    assert_eq!(rt;
        fault_of(alloc, b"{\"a\":1}\n", 7),
        Some(LineFault::TooLong)
    );
    assert_eq!(rt; fault_of(alloc, b"", 64), Some(LineFault::NotJson));
    assert_eq!(rt;
        fault_of(alloc, b"{\"a\":\"\xff\"}", 64),
        Some(LineFault::NotJson)
    );
}

/// An object that holds so many lists, each in the one before.
fn nested(alloc: Global, depth: usize) -> Result<String, AllocError> {
    let mut line = String::from_str(alloc, "{\"a\":")?;
    for _ in 0..depth {
        line.push('[')?;
    }
    for _ in 0..depth {
        line.push(']')?;
    }
    line.push('}')?;
    Ok(line)
}

/// The line of what a line is read as.
fn again(alloc: Global, line: &[u8]) -> Result<Vec<u8>, Fail> {
    let value = read_line(alloc, line, 1000)?;
    let again = line_of(alloc, &value);
    drop(value);
    Ok(again?)
}

#[test]
fn values_nest_127_deep(rt: HostRuntime) -> Result<(), Fail> {
    let deep = nested(rt.alloc(), 126)?;
    let line = again(rt.alloc(), deep.as_bytes())?;
    assert_eq!(rt; fault_of(rt.alloc(), line.as_slice(), 1000), None);
    let deeper = nested(rt.alloc(), 127)?;
    assert_eq!(rt;
        fault_of(rt.alloc(), deeper.as_bytes(), 1000),
        Some(LineFault::NotJson)
    );
    Ok(())
}

#[test]
fn want_of_memory_is_no_refusal(rt: HostRuntime) {
    let fault = FieldFault::Missing;
    let refusal = Refusal::of_fault(WireNo::Field { name: "key", fault });
    let field = Some(Member::Key);
    assert_eq!(rt; refusal, Some(Refusal::BadMessage { field }));
    assert_eq!(rt; Refusal::of_fault(WireNo::NoMemory), None);
}
