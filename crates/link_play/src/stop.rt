//! Why a command is broken off, and what a line of commands comes to.

/// Why a command is broken off.
#[derive(Clone, Copy)]
pub enum Stop {
    /// The sink failed.
    WriteFault,
    /// The link failed.
    LinkFault,
    /// The link has ended.
    LinkEnded,
    /// The link gave a line that is longer than its limit.
    LinkLong,
    /// There was no memory.
    NoMemory,
}

/// What a line of commands comes to.
#[derive(Clone, Copy)]
pub enum LineStatus {
    /// Its command was done.
    Done,
    /// It ends the run.
    Ended,
    /// It is in no form.
    BadLine,
    /// There was no memory to read it.
    Unread,
    /// Its command was broken off.
    Stopped(Stop),
}
