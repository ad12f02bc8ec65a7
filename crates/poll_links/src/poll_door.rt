//! A door over a TCP listener that never waits.

ghost use Rattle.std.specs.Prelude.{◌≡◌, ◌≤◌, false};

use crate::bells::Bells;
use crate::each_second::EachSecond;
use crate::knock::{Knock, asked};
use crate::poll_link::PollLink;
use crate::poll_stream::PollStream;
use board_links::{Door, Link, SessionEnd, Visit};
use mio::net::TcpListener;
use std::alloc::Global;
use std::io;
use std::io::{Eprint, ErrorKind};
use std::net::SocketAddr;
use std::rt::Clock;
use std::sync::{Arc, Wait};

/// A door over a TCP listener that never waits: it answers `Quiet` where no connection is there, or the system gives none now. It is never shut, and
/// doesn't tell how many links are left. Once it has given its last link, or its listener is gone, it listens no more: who connects is refused, and it
/// fails where it is asked for another. What the system has against a connection is said on standard error, at most once a second.
#[derive(Drop)]
pub struct PollDoor<C> {
    system: C,
    alloc: Global,
    listener: Option<TcpListener>,
    bells: Arc<Bells, Global>,
    limit: u32,
    silence: Option<u32>,
    sessions: u64,
    given: u64,
    came_back: u64,
    faults: u64,
    /// Errors of connections, which are said.
    errors: EachSecond,
    ghost within: { came_back ≤ given },
}

impl<C: Clock + Eprint + Copy + Drop> PollDoor<C> {
    /// A door over a listener that doesn't block and is registered with the workers' polls. It gives so many links, which have lines of at most
    /// `limit` bytes, and whose peers may be silent for so many seconds, or for good.
    pub(crate) fn over(
        system: C,
        alloc: Global,
        listener: TcpListener,
        bells: Arc<Bells, Global>,
        limit: u32,
        silence: Option<u32>,
        sessions: u64,
    ) -> PollDoor<C>
        ensures given { ⟦<PollDoor<C> as Door>⟧.given result ≡ 0 }
        ensures out { ⟦<PollDoor<C> as Door>⟧.out result ≡ 0 }
        ensures bots_out { ⟦<PollDoor<C> as Door>⟧.bots_out result ≡ 0 }
        ensures shut { ⟦<PollDoor<C> as Door>⟧.shut result ≡ false }
        ensures faults { ⟦<PollDoor<C> as Door>⟧.faults result ≡ 0 }
    {
        PollDoor {
            system,
            alloc,
            listener: Some(listener),
            bells,
            limit,
            silence,
            sessions,
            given: 0,
            came_back: 0,
            faults: 0,
            errors: EachSecond::new(),
        }
    }

    /// The address at which it listens, with the port that it got. An Err is the system's, or that it listens no more.
    pub fn addr(&self) -> io::Result<SocketAddr> {
        match &self.listener {
            Some(listener) => listener.local_addr(),
            None => Err(io::Error::from(ErrorKind::NotConnected)),
        }
    }

    /// What the listener answers, past connections that failed before they were taken.
    fn ask(&mut self) -> Knock
        ensures { self.new ≡ record self.old { errors = self.new.errors } }
    {
        match &self.listener {
            Some(listener) => asked(listener, &self.system, &mut self.errors),
            None => Knock::Gone,
        }
    }
}

impl<C: Clock + Eprint + Copy + Drop> Door for PollDoor<C> {
    ghost use Rattle.std.specs.Prelude.{None, false, ◌-◌};

    type L = PollLink<C>;

    ghost given = { λ d. d.given };

    ghost out = { λ d. d.given - d.came_back };

    ghost shut = { λ _. false };

    ghost faults = { λ d. d.faults };

    ghost left = { λ _. None };

    ghost returned = { λ _. None };

    fn accept<R: Wait>(&mut self, _rt: &R) -> Visit<PollLink<C>> {
        let answer = if self.given < self.sessions {
            self.ask()
        } else {
            Knock::Gone
        };
        match answer {
            Knock::Came(stream) => {
                self.given += 1;
                if self.given >= self.sessions {
                    self.listener = None;
                }
                let stream = PollStream::over(self.system, stream, self.silence);
                Visit::Came(PollLink::over(self.alloc, stream, self.limit))
            }
            Knock::Nothing => {
                self.bells.say_full(false);
                Visit::Quiet
            }
            Knock::Lost | Knock::Full => {
                self.bells.say_full(true);
                Visit::Quiet
            }
            Knock::Gone => {
                self.listener = None;
                self.faults = self.faults.saturating_add(1);
                Visit::Failed
            }
        }
    }

    fn is_bot(&self, _link: &PollLink<C>) -> bool {
        false
    }

    fn back<R: Wait>(&mut self, _rt: &R, _link: PollLink<C>, _end: SessionEnd) {
        self.came_back += 1;
    }
}
