//! Why a call of the system brought nothing.

use std::io;
use std::io::ErrorKind;

/// Why a call of the system brought nothing.
#[derive(Clone, Copy)]
pub enum Halt {
    /// It would have had to wait, or has to be made again.
    Wait,
    /// It failed.
    Failed,
    /// There was no memory.
    NoMemory,
}

impl From<io::Error> for Halt {
    fn from(error: io::Error) -> Halt {
        let kind = error.kind();
        drop(error);
        match kind {
            ErrorKind::WouldBlock | ErrorKind::Interrupted | ErrorKind::ConnectionAborted => {
                Halt::Wait
            }
            ErrorKind::OutOfMemory => Halt::NoMemory,
            _ => Halt::Failed,
        }
    }
}
