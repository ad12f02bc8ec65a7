//! What the readers of bytes and lines answer.

/// What a reader of lines answers.
#[derive(Clone, Copy)]
pub enum Next {
    /// The next line stands ready.
    Line,
    /// There are no more lines.
    End,
    /// The next line has more than 65,536 bytes.
    TooLong,
    /// A byte follows the 1,000,000th newline.
    TooMany,
    /// The source failed.
    ReadFault,
    /// There was no memory.
    NoMemory,
}

/// What byte comes next.
#[derive(Clone, Copy)]
pub enum Peeked {
    /// This byte.
    Byte(u8),
    /// Nothing more.
    End,
    /// The source failed.
    Failed,
}
