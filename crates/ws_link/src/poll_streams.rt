//! Streams over TCP sockets that never wait, on which a handshake has to be made in time, and where they come in.

ghost use Rattle.std.specs.Prelude.{◌≡◌, ◌≤◌, ◌||◌, IsSome, unwrap_or};

use crate::stream_door::StreamDoor;
use crate::ws_link::{Peer, WsLink};
use board_links::{Door, Visit};
use mio::Registry;
use poll_links::{Looks, PollDoor, PollStream, Watched};
use std::io;
use std::io::{ErrorKind, Read, Write};
use std::rt::Clock;
use std::sync::Wait;
use std::time::Instant;

/// How many seconds a peer has for its handshake.
const GREETING: u32 = 10;

/// How many seconds a peer that asks for a file of the page has for its head and the whole answer.
const ANSWER: u32 = 60;

/// How the answer begins by which a handshake is made.
const SWITCHING: &[u8] = b"HTTP/1.1 101 ";

/// A stream over a TCP socket that never waits. Until the answer was written to it that makes the handshake, its reads fail where 10 seconds have
/// passed, and its writes where 60 have: so a peer that takes a file of the page little by little holds no place for good.
#[derive(Drop)]
pub struct HeadStream<C> {
    stream: PollStream<C>,
    /// Since when the handshake is waited for.
    since: Option<Instant>,
    /// Whether something was written.
    answered: bool,
}

impl<C: Clock + Drop> HeadStream<C> {
    /// Over this stream, to which nothing was written.
    pub fn over(stream: PollStream<C>) -> HeadStream<C> {
        let since = stream.now();
        HeadStream {
            stream,
            since,
            answered: false,
        }
    }

    /// Whether the handshake is waited for, and so many seconds have passed.
    fn is_late(&self, limit: u32) -> bool {
        let Some(since) = self.since else {
            return false;
        };
        match self.stream.now() {
            Some(now) => now.duration_since(since).as_secs() >= u64::from(limit),
            None => false,
        }
    }

    /// When a read has to be tried though nothing came: when the time for the handshake is over, and so that silence is noticed.
    fn looks(&self) -> Looks {
        let Looks { first, then } = self.stream.looks();
        let last = GREETING + 1;
        Looks {
            first: Some(first.unwrap_or(last).min(last)),
            then,
        }
    }
}

impl<C: Clock + Drop> Read for HeadStream<C> {
    fn read(&mut self, buf: &mut [u8]) -> io::Result<usize> {
        match self.stream.read(buf) {
            Err(error) if error.kind() == ErrorKind::WouldBlock && self.is_late(GREETING) => {
                Err(io::Error::from(ErrorKind::TimedOut))
            }
            answer => answer,
        }
    }
}

impl<C: Clock + Drop> Write for HeadStream<C> {
    fn write(&mut self, buf: &[u8]) -> io::Result<usize> {
        if !self.answered && buf.starts_with(SWITCHING) {
            self.since = None;
        }
        self.answered = true;
        if self.is_late(ANSWER) {
            return Err(io::Error::from(ErrorKind::TimedOut));
        }
        self.stream.write(buf)
    }

    fn flush(&mut self) -> io::Result<()> {
        self.stream.flush()
    }
}

impl<C: Clock + Drop> Watched for WsLink<HeadStream<C>> {
    fn watch(&mut self, registry: &Registry, number: u32) {
        let watched = match &mut self.peer {
            Peer::Greets(greeting) => greeting.stream_mut().stream.watch(registry, number),
            _ => false,
        };
        if !watched {
            self.spoil();
        }
    }

    fn looks(&self) -> Looks {
        match self.stream() {
            Some(stream) => stream.looks(),
            None => Looks {
                first: None,
                then: None,
            },
        }
    }
}

/// A door over a TCP listener that never waits, which gives streams.
#[derive(Drop)]
pub struct PollStreams<C> {
    door: PollDoor<C>,
}

impl<C: Clock + Eprint + Copy + Drop> PollStreams<C> {
    /// Over this door.
    pub fn over(door: PollDoor<C>) -> PollStreams<C>
        ensures given { ⟦<PollStreams<C> as StreamDoor>⟧.given result ≡ ⟦<PollDoor<C> as Door>⟧.given door }
        ensures shut { ⟦<PollStreams<C> as StreamDoor>⟧.shut result ≡ ⟦<PollDoor<C> as Door>⟧.shut door }
        ensures faults { ⟦<PollStreams<C> as StreamDoor>⟧.faults result ≡ ⟦<PollDoor<C> as Door>⟧.faults door }
    {
        PollStreams { door }
    }
}

impl<C: Clock + Eprint + Copy + Drop> StreamDoor for PollStreams<C> {
    type T = HeadStream<C>;

    ghost given = { λ d. ⟦<PollDoor<C> as Door>⟧.given d.door };

    ghost shut = { λ d. ⟦<PollDoor<C> as Door>⟧.shut d.door };

    ghost faults = { λ d. ⟦<PollDoor<C> as Door>⟧.faults d.door };

    ghost left = { λ d. ⟦<PollDoor<C> as Door>⟧.left d.door };

    fn accept<R: Wait>(&mut self, rt: &R) -> Visit<HeadStream<C>> {
        match self.door.accept(rt) {
            Visit::Came(link) => Visit::Came(HeadStream::over(link.into_stream())),
            Visit::Quiet => Visit::Quiet,
            Visit::Shut => Visit::Shut,
            Visit::Failed => Visit::Failed,
            Visit::NoMemory => Visit::NoMemory,
        }
    }
}
