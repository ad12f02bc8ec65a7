//! A stream over a TCP socket that never waits.

use crate::alarms::Looks;
use mio::net::TcpStream;
use mio::{Interest, Registry, Token};
use std::io;
use std::io::{ErrorKind, Read, Write};
use std::net::Shutdown;
use std::rt::Clock;
use std::time::Instant;

/// How many seconds a peer may take no byte while some wait for it.
const PATIENCE: u64 = 30;

/// A stream over a TCP socket that never waits: a read or a write would block where nothing comes or goes. A write fails where the peer has taken
/// nothing for 30 seconds, counted from the first write that it took nothing of, and a read fails where the peer has sent nothing for longer than
/// it may be silent. What it receives and sends is told to nobody.
#[derive(Drop)]
pub struct PollStream<C> {
    clock: C,
    stream: TcpStream,
    /// Since when the peer takes nothing.
    stuck: Option<Instant>,
    /// How many seconds the peer may send nothing, if there is a limit.
    silence: Option<u32>,
    /// Since when the peer sends nothing.
    silent: Option<Instant>,
}

impl<C: Clock + Drop> PollStream<C> {
    /// A stream over a socket that doesn't block, whose peer may be silent for so many seconds, or for good.
    pub fn over(clock: C, stream: TcpStream, silence: Option<u32>) -> PollStream<C> {
        // A socket that can't be told to send small pieces at once sends them all the same.
        let _told = stream.set_nodelay(true);
        let silent = match silence {
            Some(_) => Instant::now(&clock).ok(),
            None => None,
        };
        PollStream {
            clock,
            stream,
            stuck: None,
            silence,
            silent,
        }
    }

    /// When a read has to be tried though nothing came, so that silence is noticed: at most a quarter of the limit and two seconds too late.
    pub fn looks(&self) -> Looks {
        Looks {
            first: self.silence.map(|limit| limit.saturating_add(1)),
            then: self.silence.map(|limit| limit / 4 + 1),
        }
    }

    /// What the system's clock says; none where it can't be read.
    pub fn now(&self) -> Option<Instant> {
        Instant::now(&self.clock).ok()
    }

    /// Has a poll tell, under this number, when something may have come or may go. It says whether it can be told.
    pub fn watch(&mut self, registry: &Registry, number: u32) -> bool {
        let both = Interest::READABLE | Interest::WRITABLE;
        registry
            .register(&mut self.stream, Token(number as usize), both)
            .is_ok()
    }

    /// Ends the connection both ways.
    pub fn shutdown(&mut self) {
        // A peer that is gone already has nothing to be told.
        let _closed = self.stream.shutdown(Shutdown::Both);
    }

    /// Whether the peer has taken nothing for too long. The first time counts from now on.
    fn is_stuck(&mut self) -> bool {
        let Some(now) = self.now() else {
            return false;
        };
        match self.stuck {
            Some(since) => now.duration_since(since).as_secs() >= PATIENCE,
            None => {
                self.stuck = Some(now);
                false
            }
        }
    }

    /// Whether the peer has sent nothing for longer than it may.
    fn is_silent(&self) -> bool {
        match (self.silence, self.silent) {
            (Some(limit), Some(since)) => match self.now() {
                Some(now) => now.duration_since(since).as_secs() >= u64::from(limit),
                None => false,
            },
            _ => false,
        }
    }
}

/// Whether a call of the system has to be made again once the socket is ready.
fn has_to_wait(error: &io::Error) -> bool {
    matches!(error.kind(), ErrorKind::WouldBlock | ErrorKind::Interrupted)
}

impl<C: Clock + Drop> Read for PollStream<C> {
    fn read(&mut self, buf: &mut [u8]) -> io::Result<usize> {
        match self.stream.read(buf) {
            Ok(count) => {
                if self.silence.is_some() {
                    self.silent = self.now();
                }
                Ok(count)
            }
            Err(error) if has_to_wait(&error) && self.is_silent() => {
                Err(io::Error::from(ErrorKind::TimedOut))
            }
            answer => answer,
        }
    }
}

impl<C: Clock + Drop> Write for PollStream<C> {
    fn write(&mut self, buf: &[u8]) -> io::Result<usize> {
        match self.stream.write(buf) {
            Ok(count) => {
                self.stuck = None;
                Ok(count)
            }
            Err(error) if has_to_wait(&error) && self.is_stuck() => {
                Err(io::Error::from(ErrorKind::TimedOut))
            }
            answer => answer,
        }
    }

    fn flush(&mut self) -> io::Result<()> {
        self.stream.flush()
    }
}
