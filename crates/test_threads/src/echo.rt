//! A service that sends each line back.

ghost use Rattle.std.specs.Prelude.{IfOk};
ghost use Rattle.board_links.specs.Answers.{AreLines};

use board_links::{Came, Link, Out, SessionEnd};
use game_sheet::{Bytes, NoMemory};
use link_rounds::{Service, Stir};
use std::alloc::Global;
use std::sync::Wait;

/// Sends each line back, until its peer ends.
#[derive(Drop)]
pub struct Echo {
    alloc: Global,
    /// Whether its last turn brought a line.
    more: bool,
}

impl Echo {
    /// A service that takes its memory there.
    pub fn new(alloc: Global) -> Echo {
        Echo { alloc, more: false }
    }
}

/// A line with its newline.
fn with_newline(alloc: Global, line: &Bytes) -> Result<Vec<u8>, NoMemory>
    ensures { IfOk result (λ bytes. AreLines bytes.items) }
{
    let mut bytes = Vec::from_slice(alloc, line.whole().unwrap_or(b""))?;
    bytes.push(b'\n')?;
    Ok(bytes)
}

/// What takes note of nothing that it is shown.
#[derive(Drop)]
pub struct Unmoved;

impl Service for Echo {
    type Hall = ();

    type Witness = Unmoved;

    ghost fits = { λ hall s. Unit };

    ghost rests = { λ s. Unit };

    ghost turn = { λ s heard sent why t answers after. Unit };

    ghost leave = { λ s t. Unit };

    ghost attends = { λ w. Unit };

    ghost knows = { λ w s. Unit };

    fn turn<L: Link, R: Wait>(&mut self, rt: &R, _hall: &(), link: &mut L) -> Option<SessionEnd> {
        self.more = false;
        match link.receive(rt) {
            Came::Line(line) => {
                self.more = true;
                let bytes = with_newline(self.alloc, &line);
                drop(line);
                let Ok(bytes) = bytes else {
                    return Some(SessionEnd::NoMemory);
                };
                match link.send(rt, &bytes) {
                    Out::Done => None,
                    Out::Failed => Some(SessionEnd::LinkFault),
                    Out::NoMemory => Some(SessionEnd::NoMemory),
                }
            }
            Came::Quiet => None,
            Came::Ended => Some(SessionEnd::Ended),
            Came::TooLong => Some(SessionEnd::TooLong),
            Came::Failed => Some(SessionEnd::LinkFault),
            Came::NoMemory => Some(SessionEnd::NoMemory),
        }
    }

    fn stir(&self) -> Stir {
        Stir {
            at: None,
            changed: 0,
            more: self.more,
        }
    }

    fn leave<R: Wait>(&mut self, _rt: &R, _hall: &()) {}

    fn show(&mut self, _hall: &(), _witness: &mut Unmoved) {}
}
