//! Runs scripts, worlds and journals of standard input one after the other, and prints what each prints and how it ends.
//!
//! A line `=== KIND` begins a part, and the next such line ends it. Its cases are of that kind: `scripts`, `kept` or `journals`.
//! A line `== NAME` begins a case, and the next line of either form ends it. What a name and its lines say stands at the head of the
//! kind's module. A case that is followed by an empty line ends with a newline; one that isn't has a last line without one.
#![tactic(auto)]

mod exit;
mod journals;
mod kept;
mod scripts;

use case_rows::{read_input, split_head, unmarked};
use journals::replay_journal;
use kept::run_on_disks;
use scripts::play_script;
use std::io;

fn main(rt: HostRuntime) -> io::Result<()> {
    let text = read_input(&rt)?;
    for part in unmarked(text.as_str(), "=== ").split("\n=== ") {
        run_part(&rt, part)?;
    }
    Ok(())
}

/// Runs the cases of a part, which begins with their kind.
fn run_part(rt: &HostRuntime, part: &str) -> io::Result<()> {
    let (kind, cases) = split_head(part);
    println!(rt; "=== {kind}")?;
    for case in unmarked(cases, "== ").split("\n== ") {
        run_case(rt, kind, case)?;
    }
    Ok(())
}

/// Runs the case of a kind that stands behind its name.
fn run_case(rt: &HostRuntime, kind: &str, case: &str) -> io::Result<()> {
    let (name, lines) = split_head(case);
    println!(rt; "== {name}")?;
    match kind {
        "scripts" => play_script(rt, name, lines),
        "kept" => run_on_disks(rt, name, lines),
        "journals" => replay_journal(rt, name, lines),
        _ => println!(rt; "-- in no form"),
    }
}
