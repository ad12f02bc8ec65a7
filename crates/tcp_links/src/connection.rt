//! A TCP stream that doesn't block, with the lines that come on it.

ghost use Rattle.std.specs.Prelude.{◌≡◌, ◌≤◌, length, IfOk, IfSome, MatchOption};
ghost use Rattle.board_links.specs.Answers.{IsWithin};

use crate::halt::Halt;
use crate::line_buffer::{Cut, Fill, LineBuffer};
use crate::watch::Watch;
use board_links::Came;
use mio::Interest;
use mio::net::TcpStream;
use std::alloc::Global;
use std::io::Write;
use std::net::{Net, Shutdown};
use std::sync::Wait;
use std::{io, mem};

/// How many milliseconds a call that asks for a line waits in all.
const WAIT: u64 = 10;

/// After how many polls in which no byte was taken a send gives up.
const POLLS: u32 = 3_000;

/// How many milliseconds each of these polls waits at most.
const SEND_WAIT: u64 = 10;

/// A connection to a peer.
pub struct Connection {
    stream: TcpStream,
    watch: Watch,
    /// What came and hasn't been told.
    pub lines: LineBuffer,
}

impl Drop for Connection {
    fn drop(self) {
        let Connection {
            stream,
            watch,
            lines,
        } = self;
        drop(stream);
        drop(watch);
        drop(lines);
    }
}

impl Connection {
    ghost use Rattle.tcp_links.specs.Cuts.{Comes, Grows, IsPart};

    /// A connection over a stream that doesn't block. An Err is the system's: no descriptor is left, or no memory.
    pub fn over<N: Net>(net: &N, alloc: Global, stream: TcpStream) -> io::Result<Connection> {
        let mut stream = stream;
        match watched(net, alloc, &mut stream) {
            Ok(watch) => Ok(Connection {
                stream,
                watch,
                lines: LineBuffer::new(alloc),
            }),
            Err(error) => {
                drop(stream);
                Err(error)
            }
        }
    }

    /// The next line, of at most `limit` bytes. It waits for 10 milliseconds at most, and goes on while bytes come.
    pub fn come<R: Wait>(&mut self, rt: &R, limit: u32) -> Came
        ensures comes { Comes limit result self.old.lines self.new.lines }
        ensures within { IsWithin limit result }
    {
        let mut wait = WAIT;
        for _ in rt.forever() {
            if let Some(came) = self.look(limit, &mut wait) {
                return came;
            }
        }
        unreachable!()
    }

    /// What came, where a whole line stands or one read tells; none where another look may bring more. What is left of the waiting is
    /// `wait`, in milliseconds.
    fn look(&mut self, limit: u32, wait: &mut u64) -> Option<Came>
        ensures comes { MatchOption result (Grows self.old.lines self.new.lines) (λ came. Comes limit came self.old.lines self.new.lines) }
        ensures within { IfSome result (IsWithin limit) }
    {
        match self.lines.cut(limit) {
            Cut::Line(line) => Some(Came::Line(line)),
            Cut::TooLong => Some(Came::TooLong),
            Cut::NoMemory => Some(Came::NoMemory),
            Cut::Part => self.read(limit, wait),
        }
    }

    /// What one read tells where no whole line stands; none where it brought bytes, or something became ready while it waited.
    fn read(&mut self, limit: u32, wait: &mut u64) -> Option<Came>
        requires { IsPart limit self.old.lines }
        ensures comes { MatchOption result (Grows self.old.lines self.new.lines) (λ came. Comes limit came self.old.lines self.new.lines) }
        ensures within { IfSome result (IsWithin limit) }
    {
        match self.lines.fill(&mut self.stream) {
            Fill::Some => None,
            Fill::Ended => Some(Came::Ended),
            Fill::Failed => Some(Came::Failed),
            Fill::NoMemory => Some(Came::NoMemory),
            Fill::Nothing => match self.watch.ready(mem::replace(wait, 0)) {
                Ok(true) => None,
                Ok(false) => Some(Came::Quiet),
                Err(_) => Some(Came::Failed),
            },
        }
    }

    /// Sends all the bytes, and tells whether they were taken. It gives up after 3,000 polls in which no byte was.
    pub fn send<R: Wait>(&mut self, rt: &R, bytes: &[u8]) -> bool {
        let mut left = bytes;
        let mut polls = 0u32;
        for _ in rt.forever() {
            if left.is_empty() {
                return true;
            }
            match self.put(left, &mut polls) {
                Some(taken) => left = &left[taken..],
                None => return false,
            }
        }
        unreachable!()
    }

    /// Writes once, and tells how many bytes were taken; where none could be, it polls. None where the write failed, or there were polls
    /// enough, of which `polls` is the count.
    fn put(&mut self, bytes: &[u8], polls: &mut u32) -> Option<usize>
        ensures { IfSome result (λ n. n ≤ length bytes.now) }
    {
        match write(&mut self.stream, bytes) {
            Ok(0) | Err(Halt::Wait) => self.poll(polls),
            Ok(taken) => {
                *polls = 0;
                Some(taken)
            }
            Err(_) => None,
        }
    }

    /// Polls once more for room to write, and tells that no byte was taken yet; none where there were polls enough.
    fn poll(&mut self, polls: &mut u32) -> Option<usize>
        ensures { IfSome result (λ n. n ≡ 0) }
    {
        if *polls >= POLLS {
            return None;
        }
        *polls += 1;
        match self.watch.ready(SEND_WAIT) {
            Ok(_) => Some(0),
            Err(_) => None,
        }
    }

    /// Ends the connection both ways.
    pub fn close(&mut self) {
        // A peer that is gone already has nothing to be told.
        let _closed = self.stream.shutdown(Shutdown::Both);
    }
}

/// A watch of a stream, which sends what it is given at once.
fn watched<N: Net>(net: &N, alloc: Global, stream: &mut TcpStream) -> io::Result<Watch> {
    stream.set_nodelay(true)?;
    Watch::over(net, alloc, stream, Interest::READABLE | Interest::WRITABLE)
}

/// Writes once, and tells how many bytes were taken.
fn write(stream: &mut TcpStream, bytes: &[u8]) -> Result<usize, Halt>
    ensures { IfOk result (λ n. n ≤ length bytes.now) }
{
    match stream.write(bytes) {
        Ok(n) => Ok(n),
        Err(error) => Err(Halt::from(error)),
    }
}
