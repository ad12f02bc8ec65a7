//! How a run of the program ends.

ghost use Rattle.std.specs.Prelude.{◌≡◌, ◌≤◌, ◌++◌, ◌∷◌, [], decimal, length};
ghost use Rattle.line_runner.specs.Process.{report, status};

use arrayvec::ArrayString;
use itoa::Buffer;

/// How a run ends, with a door or a link too. Each end has a status of its own.
#[derive(Clone, Copy, PartialEq, Eq, Debug)]
pub enum Exit {
    /// The source was read to its end, or to the word that ends it.
    Done,
    /// The words are in no form.
    Usage,
    /// The source failed.
    ReadFault,
    /// The sink failed.
    WriteFault,
    /// A line is in no form.
    BadLine {
        /// The first such line, counted from 1.
        line: u32,
    },
    /// A line has more than 65,536 bytes.
    TooLong {
        /// Which line, counted from 1.
        line: u32,
    },
    /// A byte follows the 1,000,000th newline.
    TooMany,
    /// There was no memory.
    NoMemory,
    /// The door failed.
    DoorFault,
    /// The link failed.
    LinkFault,
    /// The link has ended.
    LinkEnded,
    /// The link gave a line that is longer than its limit.
    LinkLong,
    /// A record of a journal isn't whole, is in no form or isn't accepted after those before it.
    BadRecord {
        /// The place of its gate.
        place: u64,
    },
    /// A journal has, or would have, more than 268,435,456 bytes.
    LongJournal,
    /// The store of a journal failed.
    StoreFault,
}

impl Exit {
    /// What a process that ends so says to its caller: its status, and a line on standard error with its newline; no byte where the run was
    /// done.
    pub fn told(self) -> (u8, ArrayString<40>)
        ensures status { result.0 ≡ status self }
        ensures report { result.1.bytes ≡ report self }
    {
        match self {
            Exit::Done => (0, ArrayString::new()),
            Exit::Usage => (1, whole("usage\n")),
            Exit::ReadFault => (2, whole("read fault\n")),
            Exit::WriteFault => (3, whole("write fault\n")),
            Exit::BadLine { line } => (4, numbered("bad line ", u64::from(line))),
            Exit::TooLong { line } => (5, numbered("long line ", u64::from(line))),
            Exit::TooMany => (6, whole("too many lines\n")),
            Exit::NoMemory => (7, whole("no memory\n")),
            Exit::DoorFault => (8, whole("door fault\n")),
            Exit::LinkFault => (9, whole("link fault\n")),
            Exit::LinkEnded => (10, whole("link ended\n")),
            Exit::LinkLong => (11, whole("link line too long\n")),
            Exit::BadRecord { place } => (12, numbered("bad record ", place)),
            Exit::LongJournal => (13, whole("long journal\n")),
            Exit::StoreFault => (14, whole("store fault\n")),
        }
    }
}

fn whole(text: &str) -> ArrayString<40>
    requires { length text.now ≤ 40 }
    ensures { result.bytes ≡ text.now }
{
    let mut line = ArrayString::new();
    line.push_str(text);
    line
}

fn numbered(text: &str, number: u64) -> ArrayString<40>
    requires { length text.now ≤ 19 }
    ensures { result.bytes ≡ text.now ++ decimal number ++ 10 ∷ [] }
{
    let mut report = whole(text);
    let mut digits = Buffer::new();
    report.push_str(digits.format(number));
    report.push_str("\n");
    report
}
