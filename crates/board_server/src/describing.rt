//! Descriptions of games, read from their files: `check` and `ask`.

use crate::edge::{fault, refused, say};
use board_commands::{ask, check};
use board_links::{ReaderSource, WriterSink};
use command_words::{ask_words, check_words};
use description_commands::MOST_BYTES;
use game_sheet::Text;
use line_runner::Exit;
use std::fs::File;
use std::io::{self, Read};

/// Says what the description in the file that the words name takes, or why it is refused.
pub fn check_here(rt: &HostRuntime, words: &[String]) -> Exit {
    let path = match check_words(rt.alloc(), words) {
        Ok(asked) => asked.path,
        Err(no) => return refused(no),
    };
    match read_description(rt, path) {
        Ok(bytes) => {
            let mut sink = WriterSink::new(rt.stdout());
            let exit = check(rt.alloc(), words, bytes.as_slice(), &mut sink);
            drop(bytes);
            exit
        }
        Err(error) => fault(&error, Exit::ReadFault),
    }
}

/// Asks the game of the description in the file that the words name the rows of standard input.
pub fn ask_here(rt: &HostRuntime, words: &[String]) -> Exit {
    let path = match ask_words(rt.alloc(), words) {
        Ok(path) => path,
        Err(no) => return refused(no),
    };
    match read_description(rt, path) {
        Ok(bytes) => {
            let mut source = ReaderSource::new(rt.reader());
            let mut sink = WriterSink::new(rt.stdout());
            let exit = ask(rt.alloc(), words, bytes.as_slice(), &mut source, &mut sink);
            drop(bytes);
            exit
        }
        Err(error) => fault(&error, Exit::ReadFault),
    }
}

/// The bytes of a file, as many as a description may have and one more. What the system has against it is told on standard error.
fn read_description(rt: &HostRuntime, path: Text) -> io::Result<Vec<u8>> {
    let bytes = first_bytes(rt, path.as_str());
    if let Err(error) = &bytes {
        say(rt, path.as_str(), error);
    }
    drop(path);
    bytes
}

/// The first bytes of a file.
fn first_bytes(rt: &HostRuntime, path: &str) -> io::Result<Vec<u8>> {
    let mut bytes = Vec::new(rt.alloc());
    File::open(rt, path)?
        .take(MOST_BYTES as u64 + 1)
        .read_to_end(&mut bytes)?;
    Ok(bytes)
}
