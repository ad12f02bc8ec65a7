//! The handshake of a WebSocket, as far as its head has come.

ghost use Rattle.std.specs.Prelude.{◌≡◌, ◌≤◌, ◌+◌, [], IfOk, None, MatchOption, length, take};
ghost use Rattle.memchr.specs.Find.{FindsNeedle};
ghost use Rattle.tungstenite.specs.Socket.{IsFresh};
ghost use Rattle.websocket.specs.declared.protocol.config.Role.TheVariants.{Server};
ghost use Rattle.ws_link.specs.Frames.{IsLimited, held_limit};
ghost use Rattle.ws_link.specs.Pages.{IsHead, ReadsFor, answer_by, head_end, pages_of};

use crate::framing::Framing;
use game_sheet::{NoMemory, Text};
use memchr::{memchr, memmem};
use page_files::Pages;
use poll_links::Outgoing;
use std::alloc::{AllocError, Global};
use std::io;
use std::io::{Cursor, ErrorKind, Read, Write};
use std::sync::Arc;
use tungstenite::{Duplex, Error, HandshakeError, accept};

/// How many bytes a head may have.
const HEAD: usize = 8_192;

/// How many bytes are read at once.
const ROOM: usize = 1_024;

/// The bytes at which a head ends.
const HEAD_END: [u8; 4] = *b"\r\n\r\n";

/// The name before the origin of a page that asks for a WebSocket.
const ORIGIN: &[u8] = b"origin:";

/// The answer to a head that names another origin than is taken.
const FORBIDDEN: &[u8] =
    b"HTTP/1.1 403 Forbidden\r\nContent-Length: 0\r\nConnection: close\r\n\r\n";

/// Why there is no handshake.
#[derive(Clone, Copy)]
pub(crate) enum Halt {
    /// The head may still come.
    Wait,
    /// The stream failed or ended, the head is too long, it asks for no WebSocket, or it names another origin than is taken.
    Failed,
    /// The head asked for a file of the page, whose answer waits to be sent.
    Answered,
    /// There was no memory.
    NoMemory,
}

impl From<NoMemory> for Halt {
    fn from(_error: NoMemory) -> Halt {
        Halt::NoMemory
    }
}

impl From<AllocError> for Halt {
    fn from(_error: AllocError) -> Halt {
        Halt::NoMemory
    }
}

/// A peer whose head hasn't come whole.
#[derive(Drop)]
pub struct Greeting<T> {
    alloc: Global,
    stream: T,
    /// The only origin that is taken, if there is one.
    origin: Option<Arc<Text, Global>>,
    /// The files that a head may ask for in place of a WebSocket, if there are some.
    pages: Option<Arc<Pages, Global>>,
    /// What came, of which the head is the first part.
    head: Vec<u8>,
}

impl<T> Greeting<T> {
    /// Nothing came yet. A head that names an origin has to name this one, where one is said, and one that asks for no WebSocket is answered by
    /// these pages, where there are some.
    pub(crate) fn new(
        alloc: Global,
        stream: T,
        origin: Option<Arc<Text, Global>>,
        pages: Option<Arc<Pages, Global>>,
    ) -> Greeting<T>
        ensures { (result.stream ≡ stream) × (result.pages ≡ pages) × (result.head.items ≡ []) }
    {
        Greeting {
            alloc,
            stream,
            origin,
            pages,
            head: Vec::new(alloc),
        }
    }

    /// Its stream.
    pub(crate) fn stream(&self) -> &T {
        &self.stream
    }

    /// Its stream.
    pub(crate) fn stream_mut(&mut self) -> &mut T {
        &mut self.stream
    }
}

/// How many bytes the head has that these bytes begin with, where it has come whole.
fn head_length(bytes: &[u8]) -> Option<usize>
    ensures { MatchOption result (FindsNeedle bytes.now head_end 0 None) (IsHead bytes.now) }
{
    match memmem::find(bytes, &HEAD_END) {
        Some(at) => Some(at + 4),
        None => None,
    }
}

impl<T: Read + Write + Drop> Greeting<T> {
    /// Reads what the stream has, and says how many bytes the head has once it has come whole. `Wait` where it may still come. A peer that sends it
    /// byte by byte has each of them searched anew, which is work for at most 8,192 small packets.
    pub(crate) fn read_head(&mut self) -> Result<usize, Halt>
        ensures reads { ReadsFor T.remaining self.old self.new result }
        ensures head { IfOk result (IsHead self.new.head.items) }
        ensures held { length self.old.head.items ≤ held_limit → length self.new.head.items ≤ held_limit }
    {
        for _ in 0..HEAD {
            if let Some(count) = head_length(self.head.as_slice()) {
                return if count <= HEAD {
                    Ok(count)
                } else {
                    Err(Halt::Failed)
                };
            }
            if self.head.len() >= HEAD {
                return Err(Halt::Failed);
            }
            if let Err(halt) = self.read() {
                return Err(halt);
            }
        }
        Err(Halt::Failed)
    }

    /// Reads once.
    fn read(&mut self) -> Result<(), Halt>
        ensures reads { ReadsFor T.remaining self.old self.new result }
        ensures held { length self.new.head.items ≤ length self.old.head.items + 1024 }
    {
        let mut room = [0u8; ROOM];
        match self.stream.read(&mut room) {
            Ok(0) => Err(Halt::Failed),
            Ok(count) => match self.head.extend_from_slice(&room[..count]) {
                Ok(()) => Ok(()),
                Err(_) => Err(Halt::NoMemory),
            },
            Err(error) => Err(halt_of(&error)),
        }
    }

    /// What the pages answer to a head of so many bytes; nothing where it asks for a WebSocket, or there are no pages.
    pub(crate) fn page(&self, count: usize) -> Result<Option<Outgoing>, Halt>
        requires { count ≤ length self.now.head.items }
        ensures { IfOk result (λ answer. answer ≡ answer_by (pages_of self.now) (take count self.now.head.items)) }
    {
        let Some(pages) = &self.pages else {
            return Ok(None);
        };
        match pages.answer_to(&self.head.as_slice()[..count]) {
            Some(answer) => Ok(Some(waiting(self.alloc, answer)?)),
            None => Ok(None),
        }
    }

    /// Its stream with an answer that waits to be sent, after which nothing is heard.
    pub(crate) fn answering(self, output: Outgoing) -> Framing<T>
        ensures answers { (result.stream ≡ self.stream) × (result.output ≡ output) }
        ensures held { result.input ≡ [] }
    {
        let Greeting {
            alloc,
            stream,
            origin: _,
            pages: _,
            head: _,
        } = self;
        Framing::begun(alloc, stream, Vec::new(alloc), output)
    }

    /// The WebSocket that a head of so many bytes asks for; the answer to the head waits to be sent, and what came behind the head is the first of its bytes. A
    /// head that names another origin than is taken is answered so.
    pub(crate) fn open(self, count: usize) -> Result<Framing<T>, Halt>
        ensures fresh { IfOk result (λ f. IsFresh (record f { input = []; output = [] }) self.stream Server) }
        ensures limits { IfOk result (λ f. IsLimited f.conn) }
        ensures held { IfOk result (λ f. length f.input ≤ length self.head.items) }
    {
        let Greeting {
            alloc,
            mut stream,
            origin,
            pages: _,
            mut head,
        } = self;
        let rest = Vec::from_slice(alloc, head.get(count..).unwrap_or(&[]))?;
        head.truncate(count);
        if let Some(origin) = &origin {
            if names_another(head.as_slice(), origin.as_str().as_bytes()) {
                // A peer that doesn't take it has nothing to be told.
                let _answered = stream.write(FORBIDDEN);
                return Err(Halt::Failed);
            }
        }
        let answer = answered(alloc, head)?;
        let mut output = Outgoing::new(alloc);
        output.push(answer.as_slice())?;
        Ok(Framing::begun(alloc, stream, rest, output))
    }
}

/// An answer that waits to be sent.
fn waiting(alloc: Global, answer: &[u8]) -> Result<Outgoing, NoMemory>
    ensures { IfOk result (λ output. output ≡ answer.now) }
{
    let mut output = Outgoing::new(alloc);
    output.push(answer)?;
    Ok(output)
}

/// Why nothing was read where the stream refuses.
fn halt_of(error: &io::Error) -> Halt {
    match error.kind() {
        ErrorKind::WouldBlock | ErrorKind::Interrupted => Halt::Wait,
        ErrorKind::OutOfMemory => Halt::NoMemory,
        _ => Halt::Failed,
    }
}

/// The answer to a head that asks for a WebSocket.
fn answered(alloc: Global, head: Vec<u8>) -> Result<Vec<u8>, Halt> {
    let stream = Duplex {
        reader: Cursor::new(head),
        writer: Vec::new(alloc),
    };
    match accept(alloc, stream) {
        Ok(socket) => {
            let Duplex { reader, writer } = socket.into_inner();
            drop(reader);
            Ok(writer)
        }
        Err(HandshakeError::Failure(Error::OutOfMemory)) => Err(Halt::NoMemory),
        Err(_) => Err(Halt::Failed),
    }
}

/// Whether a head names an origin other than this one.
fn names_another(head: &[u8], origin: &[u8]) -> bool {
    let mut at = 0;
    for _ in 0..head.len() {
        let rest = head.get(at..).unwrap_or(&[]);
        let line = rest
            .get(..memchr(b'\n', rest).unwrap_or(rest.len()))
            .unwrap_or(&[]);
        if is_another(line, origin) {
            return true;
        }
        at = at.saturating_add(line.len()).saturating_add(1);
    }
    false
}

/// Whether a line of a head names an origin other than this one.
fn is_another(line: &[u8], origin: &[u8]) -> bool {
    match (line.get(..ORIGIN.len()), line.get(ORIGIN.len()..)) {
        (Some(name), Some(value)) => name.eq_ignore_ascii_case(ORIGIN)
            && value.trim_ascii() != origin,
        _ => false,
    }
}
