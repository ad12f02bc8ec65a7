//! Connections on which somebody asks for the status by HTTP.

use game_sheet::NoMemory;
use memchr::memmem;
use room_keeper::{Request, request_of};
use std::alloc::Global;
use std::io::{ErrorKind, Read, Write};
use std::mem;
use std::net::{Shutdown, TcpListener, TcpStream};
use std::time::{Duration, Instant};

/// How many peers may be asking at once.
const MOST: usize = 8;

/// How many bytes are read at once.
const ROOM: usize = 512;

/// How many bytes the head of a request may have.
const HEAD: usize = 4_096;

/// The bytes at which a head ends.
const HEAD_END: [u8; 4] = *b"\r\n\r\n";

/// For how many seconds a peer may keep the server waiting, in all.
const PATIENCE: u64 = 1;

/// How often bytes are passed over that came behind a request.
const REST: u32 = 16;

/// The answer to who asks whether the server is there.
const HEALTHY: &[u8] =
    b"HTTP/1.1 200 OK\r\nContent-Type: text/plain\r\nCache-Control: no-store\r\nContent-Length: 3\r\nConnection: close\r\n\r\nok\n";

/// The answer to another path.
const NOT_FOUND: &[u8] =
    b"HTTP/1.1 404 Not Found\r\nContent-Length: 0\r\nConnection: close\r\n\r\n";

/// The answer to another method.
const NOT_ALLOWED: &[u8] =
    b"HTTP/1.1 405 Method Not Allowed\r\nAllow: GET\r\nContent-Length: 0\r\nConnection: close\r\n\r\n";

/// The answer to what is no request, or to a head that is too long.
const BAD_REQUEST: &[u8] =
    b"HTTP/1.1 400 Bad Request\r\nContent-Length: 0\r\nConnection: close\r\n\r\n";

/// The answer where there is no memory for another.
const UNAVAILABLE: &[u8] =
    b"HTTP/1.1 503 Service Unavailable\r\nContent-Length: 0\r\nConnection: close\r\n\r\n";

/// A connection, what of its request has come, and for how much longer its peer may keep the server waiting.
#[derive(Drop)]
pub struct Asker {
    rt: HostRuntime,
    stream: TcpStream,
    begun: Instant,
    head: Vec<u8>,
    patience: Duration,
}

/// What a look at a connection brought.
#[derive(Clone, Copy)]
enum Look {
    /// The request may still come.
    Waits,
    /// The request has come.
    Asks(Request),
    /// The peer has ended, failed, or is slow.
    Gone,
}

/// Those whose requests haven't come whole, the oldest first.
#[derive(Drop)]
pub struct Askers {
    rt: HostRuntime,
    listener: TcpListener,
    waiting: Vec<Asker>,
}

impl Askers {
    /// At this listener, which doesn't block.
    pub fn new(rt: HostRuntime, listener: TcpListener) -> Askers {
        Askers {
            rt,
            listener,
            waiting: Vec::new(rt.alloc()),
        }
    }

    /// Somebody who asks for the status or the metrics, if anybody does. Other requests are answered at once. It doesn't wait for what hasn't come.
    pub fn next(&mut self) -> Option<(Asker, Request)> {
        self.take();
        let waiting = mem::replace(&mut self.waiting, Vec::new(self.rt.alloc()));
        let mut found = None;
        for asker in waiting {
            found = self.sorted(asker, found);
        }
        found
    }

    /// Who is to be told of the rooms: the one who was found before, or else this one, if it asks for that. Else it waits on, or is let go.
    fn sorted(
        &mut self,
        mut asker: Asker,
        found: Option<(Asker, Request)>,
    ) -> Option<(Asker, Request)> {
        match asker.look() {
            Look::Waits => self.keep(asker),
            Look::Gone => drop(asker),
            Look::Asks(request) => match request {
                Request::Status | Request::Metrics => match found {
                    None => return Some((asker, request)),
                    Some(_) => self.keep(asker),
                },
                _ => asker.answer(answer_to(request)),
            },
        }
        found
    }

    /// Takes those who have come. Where there are more than may ask at once, the oldest is let go.
    fn take(&mut self) {
        for _ in 0..MOST {
            let Some(asker) = accepted(self.rt, &mut self.listener) else {
                return;
            };
            if self.waiting.len() >= MOST {
                drop(self.waiting.remove(0));
            }
            self.keep(asker);
        }
    }

    /// Waits for the rest of a request; without memory for that its peer is let go.
    fn keep(&mut self, asker: Asker) {
        let _kept = self.waiting.push(asker);
    }
}

/// Somebody who has come to a listener that doesn't block, if anybody has.
fn accepted(rt: HostRuntime, listener: &mut TcpListener) -> Option<Asker> {
    let (stream, _addr) = listener.accept().ok()?;
    stream.set_nonblocking(true).ok()?;
    let begun = Instant::now(&rt).ok()?;
    Some(Asker {
        rt,
        stream,
        begun,
        head: Vec::new(rt.alloc()),
        patience: Duration::from_secs(PATIENCE),
    })
}

/// What is answered at once.
fn answer_to(request: Request) -> &'static [u8] {
    match request {
        Request::Health => HEALTHY,
        Request::Elsewhere => NOT_FOUND,
        Request::OtherMethod => NOT_ALLOWED,
        Request::Unreadable => BAD_REQUEST,
        Request::Status | Request::Metrics => UNAVAILABLE,
    }
}

impl Asker {
    /// Reads what has come.
    fn look(&mut self) -> Look {
        for _ in 0..HEAD {
            if let Some(end) = memmem::find(self.head.as_slice(), &HEAD_END) {
                return Look::Asks(request_of(&self.head.as_slice()[..end + 2]));
            }
            if self.head.len() >= HEAD {
                return Look::Asks(Request::Unreadable);
            }
            let mut room = [0; ROOM];
            let most = ROOM.min(HEAD - self.head.len());
            match self.stream.read(&mut room[..most]) {
                Ok(0) => return Look::Gone,
                Ok(count) => {
                    if self.head.extend_from_slice(&room[..count]).is_err() {
                        return Look::Gone;
                    }
                }
                Err(error) => return self.halted(error.kind()),
            }
        }
        Look::Gone
    }

    /// What it means that nothing could be read.
    fn halted(&self, kind: ErrorKind) -> Look {
        match kind {
            ErrorKind::WouldBlock | ErrorKind::Interrupted if self.left(self.begun).is_some() => {
                Look::Waits
            }
            _ => Look::Gone,
        }
    }

    /// For how much longer the peer may keep the server waiting, that has waited from this moment on; none where it may no longer.
    fn left(&self, begun: Instant) -> Option<Duration> {
        let now = Instant::now(&self.rt).ok()?;
        self.patience.checked_sub(now.duration_since(begun))
    }

    /// Gives a text of this type, and closes the connection.
    pub fn tell(self, alloc: Global, kind: &str, text: Result<Vec<u8>, NoMemory>) {
        let Ok(text) = text else {
            self.answer(UNAVAILABLE);
            return;
        };
        let whole = answer_of(alloc, kind, text.as_slice());
        drop(text);
        match whole {
            Ok(whole) => {
                self.answer(whole.as_slice());
                drop(whole);
            }
            Err(NoMemory) => self.answer(UNAVAILABLE),
        }
    }

    /// Gives an answer, as far as the peer takes it in time, and closes the connection.
    fn answer(self, bytes: &[u8]) {
        let mut asker = self;
        // What the peer doesn't take in time is lost.
        let _written = asker.write(bytes);
        let _shut = asker.stream.shutdown(Shutdown::Write);
        asker.pass_rest();
        drop(asker);
    }

    /// Writes an answer; none where the peer doesn't take it in time.
    fn write(&mut self, bytes: &[u8]) -> Option<()> {
        let begun = Instant::now(&self.rt).ok()?;
        self.stream.set_nonblocking(false).ok()?;
        let mut rest = bytes;
        for _ in 0..bytes.len() {
            if rest.is_empty() {
                return Some(());
            }
            let left = self.left(begun)?;
            self.stream.set_write_timeout(Some(left)).ok()?;
            let count = self.stream.write(rest).ok()?;
            rest = rest.get(count..)?;
        }
        Some(())
    }

    /// Passes over bytes that came behind the request: a connection that is closed while some are there may lose its answer.
    fn pass_rest(&mut self) {
        if self.stream.set_nonblocking(true).is_err() {
            return;
        }
        let mut rest = [0; HEAD];
        for _ in 0..REST {
            match self.stream.read(&mut rest) {
                Ok(0) | Err(_) => return,
                Ok(_) => {}
            }
        }
    }
}

/// The answer that has this text, of this type.
fn answer_of(alloc: Global, kind: &str, text: &[u8]) -> Result<Vec<u8>, NoMemory> {
    let head = format!(in alloc;
        "HTTP/1.1 200 OK\r\nContent-Type: {kind}\r\nCache-Control: no-store\r\nContent-Length: {}\r\nConnection: close\r\n\r\n",
        text.len()
    )?;
    let mut whole = Vec::from_slice(alloc, head.as_bytes())?;
    drop(head);
    whole.extend_from_slice(text)?;
    Ok(whole)
}
