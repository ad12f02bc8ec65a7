//! A door over a TCP listener.

ghost use Rattle.std.specs.Prelude.{◌≡◌, ◌≤◌, false, None, IfOk};

use crate::halt::Halt;
use crate::listening::Listening;
use crate::tcp_link::TcpLink;
use board_links::{Door, Link, SessionEnd, Visit};
use std::alloc::Global;
use std::io;
use std::net::{Net, SocketAddr};
use std::sync::Wait;

/// A door over a TCP listener. It is never shut, and doesn't tell how many links are left.
#[derive(Drop)]
pub struct TcpDoor<N> {
    net: N,
    alloc: Global,
    listening: Listening,
    limit: u32,
    given: u64,
    came_back: u64,
    faults: u64,
    ghost within: { came_back ≤ given },
}

impl<N: Net + Drop> TcpDoor<N> {
    /// A door that listens at this address, or at any free port where its port is 0. Its links have lines of at most `limit` bytes. An
    /// Err is the system's, as where the address is taken.
    pub fn bind(net: N, alloc: Global, addr: SocketAddr, limit: u32) -> io::Result<TcpDoor<N>>
        ensures given { IfOk result (λ d. ⟦<TcpDoor<N> as Door>⟧.given d ≡ 0) }
        ensures out { IfOk result (λ d. ⟦<TcpDoor<N> as Door>⟧.out d ≡ 0) }
        ensures bots_out { IfOk result (λ d. ⟦<TcpDoor<N> as Door>⟧.bots_out d ≡ 0) }
        ensures shut { IfOk result (λ d. ⟦<TcpDoor<N> as Door>⟧.shut d ≡ false) }
        ensures faults { IfOk result (λ d. ⟦<TcpDoor<N> as Door>⟧.faults d ≡ 0) }
    {
        match Listening::bind(&net, alloc, addr) {
            Ok(listening) => Ok(TcpDoor {
                net,
                alloc,
                listening,
                limit,
                given: 0,
                came_back: 0,
                faults: 0,
            }),
            Err(error) => {
                drop(net);
                Err(error)
            }
        }
    }

    /// The address at which it listens, with the port that it got.
    pub fn addr(&self) -> io::Result<SocketAddr> {
        self.listening.addr()
    }

    /// A link over the next connection. It may wait.
    fn link<R: Wait>(&mut self, rt: &R) -> Result<TcpLink, Halt>
        ensures same { (self.new.given ≡ self.old.given) × (self.new.came_back ≡ self.old.came_back) × (self.new.faults ≡ self.old.faults) }
        ensures fresh { IfOk result (λ l. ⟦<TcpLink as Link>⟧.faults l ≡ 0) }
        ensures unfinished { IfOk result (λ l. ⟦<TcpLink as Link>⟧.finished l ≡ None) }
    {
        let stream = self.listening.connection(rt)?;
        match TcpLink::over(&self.net, self.alloc, stream, self.limit) {
            Ok(link) => Ok(link),
            Err(error) => Err(Halt::from(error)),
        }
    }
}

impl<N: Net + Drop> Door for TcpDoor<N> {
    ghost use Rattle.std.specs.Prelude.{None, false, ◌-◌};

    type L = TcpLink;

    ghost given = { λ d. d.given };

    ghost out = { λ d. d.given - d.came_back };

    ghost shut = { λ _. false };

    ghost faults = { λ d. d.faults };

    ghost left = { λ _. None };

    ghost returned = { λ _. None };

    fn accept<R: Wait>(&mut self, rt: &R) -> Visit<TcpLink> {
        if self.given < u64::MAX {
            match self.link(rt) {
                Ok(link) => {
                    self.given += 1;
                    return Visit::Came(link);
                }
                Err(Halt::NoMemory) => return Visit::NoMemory,
                Err(_) => {}
            }
        }
        self.faults = self.faults.saturating_add(1);
        Visit::Failed
    }

    fn is_bot(&self, _link: &TcpLink) -> bool {
        false
    }

    fn back<R: Wait>(&mut self, _rt: &R, _link: TcpLink, _end: SessionEnd) {
        self.came_back += 1;
    }
}
