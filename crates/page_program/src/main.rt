//! A player's page as a program: the lines of the page on standard input, and on standard output what each leads to.
#![tactic(auto)]

use board_links::{ReaderSource, WriterSink};
use page_player::run_page;
use std::process::ExitCode;

fn main(rt: HostRuntime) -> ExitCode {
    let mut source = ReaderSource::new(rt.reader());
    let mut sink = WriterSink::new(rt.stdout());
    let exit = run_page(rt.alloc(), &mut source, &mut sink);
    let (status, report) = exit.told();
    // A report that can't be written is lost; the status says the same.
    let _reported = eprint!(rt; "{report}");
    ExitCode::from(status)
}
