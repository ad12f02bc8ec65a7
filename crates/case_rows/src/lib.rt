//! What the programs that play cases share: standard input as one text, and the parts of a text.
#![tactic(auto)]

use std::io::{self, Read};

/// All of standard input. It is an error where that can't be read, is no text, or finds no memory.
pub fn read_input(rt: &HostRuntime) -> io::Result<String> {
    let mut text = String::new(rt.alloc());
    let _count = rt.stdin().read_to_string(&mut text)?;
    Ok(text)
}

/// The text without a mark that it begins with.
pub fn unmarked<'t>(text: &'t str, mark: &str) -> &'t str {
    match text.strip_prefix(mark) {
        Some(rest) => rest,
        None => text,
    }
}

/// The first line of a case, and the rows behind it.
pub fn split_head(case: &str) -> (&str, &str) {
    match case.split_once('\n') {
        Some(parts) => parts,
        None => (case, ""),
    }
}

/// The first word of a row, and what stands behind its blank.
pub fn split_word(row: &str) -> (&str, &str) {
    match row.split_once(' ') {
        Some(parts) => parts,
        None => (row, ""),
    }
}
