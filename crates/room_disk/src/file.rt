//! The adapter over a file of the system. No clause says what a file has, so what this does on a real file is trusted.

ghost use Rattle.std.specs.Prelude.{◌≡◌, ◌<◌, length};
ghost use Rattle.board_links.specs.Pieces.{HasSize};

use crate::disk::{Disk, Size};
use board_links::{Piece, Put};
use std::fs::File;
use std::io;
use std::os::unix::fs::FileExt;

/// The greatest place of a file of the system.
const LAST_PLACE: u64 = (1 << 63) - 1;

/// How often a call that a signal interrupted is made again before it counts as a fault.
const TRIES: u32 = 1_000;

/// Where the file of a disk stands.
pub trait Place {
    /// Puts a new file of these bytes in the place of the one that stands there, once all of them are on the device.
    fn begin_anew(&mut self, bytes: &[u8]) -> Begun;
}

/// What stands in the place of a file that was to begin anew.
#[derive(Drop)]
pub enum Begun {
    /// The new file, which is open for reading and writing; a crash leaves it there.
    New(File),
    /// The old one.
    Old,
    /// One of the two. A crash may leave either, whatever is written.
    Either,
}

/// A disk over an open file, of which nothing is told.
#[derive(Drop)]
pub struct FileDisk<P: Place + Drop> {
    file: File,
    place: P,
    faults: u64,
    /// Whether a sync has failed, or which file a crash leaves isn't known. The system may have dropped what it couldn't write, so no later sync can be
    /// believed.
    is_lost: bool,
}

impl<P: Place + Drop> FileDisk<P> {
    /// A disk over the file that stands at this place, of which no call has failed yet. The file should be open for reading and writing, and not for
    /// appending, where the system writes at the end whatever the place.
    pub fn new(file: File, place: P) -> Self
        ensures { ⟦<FileDisk<P> as Disk>⟧.faults result ≡ 0 }
    {
        FileDisk {
            file,
            place,
            faults: 0,
            is_lost: false,
        }
    }
}

/// Reads from a file, again where a signal interrupts.
fn read(file: &File, place: u64, buf: &mut [u8]) -> Piece
    requires { 0 < length buf.old }
    ensures { HasSize result (length buf.new) }
{
    if place > LAST_PLACE {
        return Piece::End;
    }
    for _ in 0..TRIES {
        match file.read_at(buf, place) {
            Ok(0) => return Piece::End,
            Ok(n) => return Piece::Got(n),
            Err(error) => {
                if error.kind() != io::ErrorKind::Interrupted {
                    break;
                }
            }
        }
    }
    Piece::Failed
}

/// Whether what a file has was handed to its device.
fn flush(file: &File) -> bool {
    for _ in 0..TRIES {
        match file.sync_data() {
            Ok(()) => return true,
            Err(error) => {
                if error.kind() != io::ErrorKind::Interrupted {
                    break;
                }
            }
        }
    }
    false
}

impl<P: Place + Drop> Disk for FileDisk<P> {
    ghost use Rattle.std.specs.Prelude.{[]};

    ghost is_told = { λ _. ⊥ };

    ghost seen = { λ _. [] };

    ghost may_leave = { λ _ _. ⊥ };

    ghost moment = { λ _. 0 };

    ghost left_since = { λ _ _ _. ⊥ };

    ghost faults = { λ d. d.faults };

    ghost leaves_seen = { λ d told. told };

    ghost counts_now = { λ d t c told le left. left };

    ghost only_now = { λ d c told left. left };

    fn len(&mut self) -> Size {
        match self.file.metadata() {
            Ok(metadata) => Size::Is(metadata.len()),
            Err(_) => {
                self.faults = self.faults.saturating_add(1);
                Size::Failed
            }
        }
    }

    fn read_at(&mut self, place: u64, buf: &mut [u8]) -> Piece {
        let piece = read(&self.file, place, buf);
        if piece == Piece::Failed {
            self.faults = self.faults.saturating_add(1);
        }
        piece
    }

    fn write_at(&mut self, place: u64, bytes: &[u8]) -> Put {
        if place <= LAST_PLACE
            && bytes.len() as u64 <= LAST_PLACE - place
            && self.file.write_all_at(bytes, place).is_ok()
        {
            return Put::Done;
        }
        self.faults = self.faults.saturating_add(1);
        Put::Failed
    }

    fn sync(&mut self) -> Put {
        if !self.is_lost && flush(&self.file) {
            return Put::Done;
        }
        self.is_lost = true;
        self.faults = self.faults.saturating_add(1);
        Put::Failed
    }

    fn replace(&mut self, bytes: &[u8]) -> Put {
        if !self.is_lost {
            match self.place.begin_anew(bytes) {
                Begun::New(file) => {
                    self.file = file;
                    return Put::Done;
                }
                Begun::Old => {}
                Begun::Either => self.is_lost = true,
            }
        }
        self.faults = self.faults.saturating_add(1);
        Put::Failed
    }
}
