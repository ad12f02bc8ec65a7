//! Links in memory, by what they answer call by call.

use board_links::{AtEnd, Came, Link, MemoryLink, Scripted};
use game_sheet::{List, NoMemory};
use std::alloc::Global;
use std::sync::Wait;
use std::test::Fail;

/// A link with lines of at most four bytes that says one, nothing, one and a last one that is too long, and whose third call fails.
fn link(alloc: Global, last: &[u8]) -> Result<MemoryLink, NoMemory> {
    let mut script = Vec::new(alloc);
    script.push(Scripted::Line(Vec::from_slice(alloc, b"one")?))?;
    script.push(Scripted::Quiet)?;
    script.push(Scripted::Line(Vec::from_slice(alloc, b"four")?))?;
    script.push(Scripted::Line(Vec::from_slice(alloc, last)?))?;
    let failing = List::from_slice(alloc, &[3])?;
    Ok(MemoryLink::new(alloc, script, AtEnd::Ended, 4, failing))
}

/// The word of an answer; of a line, how many pieces it has.
fn word(came: &Came) -> &'static str {
    match came {
        Came::Line(bytes) if bytes.count() == 1 => "line",
        Came::Line(_) => "empty line",
        Came::Quiet => "quiet",
        Came::Ended => "ended",
        Came::TooLong => "too long",
        Came::Failed => "failed",
        Came::NoMemory => "no memory",
    }
}

/// The words of six answers.
fn answers<L: Link, R: Wait>(rt: &R, link: L) -> [&'static str; 6] {
    let mut link = link;
    let mut words = [""; 6];
    for turn in 0..6 {
        let came = link.receive(rt);
        words[turn] = word(&came);
        drop(came);
    }
    drop(link);
    words
}

#[test]
fn a_link_says_its_script_and_then_ends(rt: HostRuntime) -> Result<(), Fail> {
    let words = answers(&rt, link(rt.alloc(), b"")?);
    assert!(rt; words == ["line", "quiet", "failed", "line", "empty line", "ended"]);
    Ok(())
}

#[test]
fn a_line_past_the_limit_is_the_last(rt: HostRuntime) -> Result<(), Fail> {
    let words = answers(&rt, link(rt.alloc(), b"fives")?);
    assert!(rt; words[..5] == ["line", "quiet", "failed", "line", "too long"]);
    Ok(())
}
