//! A link over a TCP socket.

ghost use Rattle.std.specs.Prelude.{◌≡◌, ◌≤◌, IfOk, None};
ghost use Rattle.board_links.specs.Faults.{HasRisen};
ghost use Rattle.board_links.specs.declared.link.Stage.TheVariants as at;

use crate::connection::Connection;
use board_links::{Came, Link, Out, SessionEnd, Stage};
use game_sheet::{MatchName, Seat};
use mio::net::TcpStream;
use std::alloc::Global;
use std::io;
use std::net::{Net, SocketAddr};
use std::sync::Wait;

/// How many bytes a server's line may have, for a client that reads it.
pub const SERVER_LINE: u32 = 8_388_608;

/// A link over a TCP socket. It tells neither its answers nor what it was sent, and keeps nothing back.
pub struct TcpLink {
    connection: Connection,
    limit: u32,
    faults: u64,
    stage: Stage,
    finished: Option<SessionEnd>,
}

impl Drop for TcpLink {
    fn drop(self) {
        let TcpLink {
            connection,
            limit: _,
            faults: _,
            stage,
            finished: _,
        } = self;
        drop(connection);
        drop(stage);
    }
}

impl TcpLink {
    /// A link over a stream that doesn't block, with lines of at most `limit` bytes. An Err is the system's: no room for a poll, or no
    /// memory.
    pub fn over<N: Net>(
        net: &N,
        alloc: Global,
        stream: TcpStream,
        limit: u32,
    ) -> io::Result<TcpLink>
        ensures faults { IfOk result (λ l. ⟦<TcpLink as Link>⟧.faults l ≡ 0) }
        ensures stage { IfOk result (λ l. ⟦<TcpLink as Link>⟧.stage l ≡ at.Open) }
        ensures limit { IfOk result (λ l. ⟦<TcpLink as Link>⟧.limit l ≡ limit) }
        ensures finished { IfOk result (λ l. ⟦<TcpLink as Link>⟧.finished l ≡ None) }
    {
        let connection = Connection::over(net, alloc, stream)?;
        Ok(TcpLink {
            connection,
            limit,
            faults: 0,
            stage: Stage::Open,
            finished: None,
        })
    }

    /// A client's link to a server that listens there, with lines of at most `SERVER_LINE` bytes. Where nobody listens, its first
    /// call fails.
    pub fn connect<N: Net>(net: &N, alloc: Global, addr: SocketAddr) -> io::Result<TcpLink>
        ensures faults { IfOk result (λ l. ⟦<TcpLink as Link>⟧.faults l ≡ 0) }
        ensures stage { IfOk result (λ l. ⟦<TcpLink as Link>⟧.stage l ≡ at.Open) }
        ensures limit { IfOk result (λ l. ⟦<TcpLink as Link>⟧.limit l ≡ SERVER_LINE) }
    {
        TcpLink::over(net, alloc, TcpStream::connect(net, addr)?, SERVER_LINE)
    }

    /// Counts a fault.
    fn fail(&mut self)
        ensures raises { HasRisen self.old.faults self.new.faults }
        ensures never_falls { self.old.faults ≤ self.new.faults }
        ensures same { self.new ≡ record self.old { faults = self.new.faults } }
    {
        self.faults = self.faults.saturating_add(1);
    }
}

impl Link for TcpLink {
    ghost use Rattle.std.specs.Prelude.{None, true};

    ghost answers = { λ _. None };

    ghost sent = { λ _. None };

    ghost faults = { λ l. l.faults };

    ghost stage = { λ l. l.stage };

    ghost limit = { λ l. l.limit };

    ghost clear = { λ _. true };

    ghost finished = { λ l. l.finished };

    fn limit(&self) -> u32 {
        self.limit
    }

    fn receive<R: Wait>(&mut self, rt: &R) -> Came {
        let came = self.connection.come(rt, self.limit);
        match &came {
            Came::Line(_) | Came::Quiet => self.stage = Stage::Open,
            Came::Ended => self.stage = Stage::Ended,
            Came::TooLong => self.stage = Stage::TooLong,
            Came::Failed => {
                self.stage = Stage::Open;
                self.fail();
            }
            Came::NoMemory => {}
        }
        came
    }

    fn send<R: Wait>(&mut self, rt: &R, bytes: &[u8]) -> Out {
        if self.connection.send(rt, bytes) {
            return Out::Done;
        }
        self.fail();
        Out::Failed
    }

    fn flush(&mut self) -> bool {
        true
    }

    fn finish(&mut self, end: SessionEnd) {
        self.connection.close();
        self.finished = Some(end);
    }

    fn bot_seat(&self) -> Option<(MatchName, Seat)> {
        None
    }

    fn ask_out(&mut self) {}
}
