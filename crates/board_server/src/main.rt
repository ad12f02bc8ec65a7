//! The match server. `board_server serve` serves matches over sockets, and `board_server play` plays one; `board_server script` plays the script on
//! standard input, and prints its transcript, and `board_server world` does so with a world; `board_server kept` plays a script over a room whose
//! changes it keeps in a journal, and `board_server replay` says what a journal holds; `board_server check` says what a description of a game takes, and
//! `board_server ask` asks its game rows; `board_server workload` plays by itself, by the words of a seed and for a number of steps, and tells what came of it.
#![tactic(auto)]

mod asker;
mod counted;
mod describing;
mod edge;
mod journal_file;
mod journals;
mod outside;
mod tally;

use board_commands::{HELP, Mode, VERSION, after_name, mode_of};
use describing::{ask_here, check_here};
use edge::{keep_standard, kept_here, play_there, print_here, run_here, serve_there};
use line_runner::Exit;
use std::process::ExitCode;
use std::sync::Wait;
use std::thread::Threads;
use std::{env, io};

fn main(rt: HostRuntime) -> ExitCode {
    let exit = match keep_standard(&rt) {
        Ok(()) => perform_words(&rt, &rt),
        Err(_) => Exit::ReadFault,
    };
    let (status, report) = exit.told();
    // A report that can't be written is lost; the status says the same.
    let _reported = eprint!(rt; "{report}");
    ExitCode::from(status)
}

/// Does what the words of the call ask for.
fn perform_words<R: Threads + Wait + Sync>(leave: &R, rt: &HostRuntime) -> Exit {
    match words(rt) {
        Ok(words) => perform(leave, rt, after_name(words.as_slice())),
        Err(error) if error.kind() == io::ErrorKind::OutOfMemory => Exit::NoMemory,
        Err(_) => Exit::Usage,
    }
}

/// All words of the call, of which the first is the program's name.
fn words(rt: &HostRuntime) -> io::Result<Vec<String>> {
    let mut words = Vec::new(rt.alloc());
    for word in env::args(rt)? {
        words.push(word)?;
    }
    Ok(words)
}

/// Does what the words after the program's name ask for.
fn perform<R: Threads + Wait + Sync>(leave: &R, rt: &HostRuntime, words: &[String]) -> Exit {
    match mode_of(words) {
        Mode::Help => print_here(rt, HELP),
        Mode::Version => print_here(rt, VERSION),
        Mode::Serve => serve_there(leave, rt, words),
        Mode::Play => play_there(leave, rt, words),
        Mode::Kept => kept_here(rt, words),
        Mode::Check => check_here(rt, words),
        Mode::Ask => ask_here(rt, words),
        Mode::Run => run_here(rt, words),
    }
}
