//! A listener, and the connections that come to it.

use crate::halt::Halt;
use crate::watch::Watch;
use mio::Interest;
use mio::net::{TcpListener, TcpStream};
use std::alloc::Global;
use std::io;
use std::net::{Net, SocketAddr};
use std::sync::Wait;

/// How many milliseconds a poll for a connection waits before the listener is asked again.
const WAIT: u64 = 100;

/// A listener that doesn't block, with its watch.
#[derive(Drop)]
pub struct Listening {
    listener: TcpListener,
    watch: Watch,
}

impl Listening {
    /// A listener at this address, or at any free port where its port is 0. An Err is the system's, as where the address is taken.
    pub fn bind<N: Net>(net: &N, alloc: Global, addr: SocketAddr) -> io::Result<Listening> {
        let mut listener = TcpListener::bind(net, addr)?;
        match Watch::over(net, alloc, &mut listener, Interest::READABLE) {
            Ok(watch) => Ok(Listening { listener, watch }),
            Err(error) => {
                drop(listener);
                Err(error)
            }
        }
    }

    /// The address at which it listens, with the port that it got.
    pub fn addr(&self) -> io::Result<SocketAddr> {
        self.listener.local_addr()
    }

    /// The next connection. It may wait.
    pub fn connection<R: Wait>(&mut self, rt: &R) -> Result<TcpStream, Halt> {
        for _ in rt.forever() {
            if let Some(answer) = self.next() {
                return answer;
            }
        }
        unreachable!()
    }

    /// The next connection, or why none comes; nothing where it may come yet.
    fn next(&mut self) -> Option<Result<TcpStream, Halt>> {
        match self.accept() {
            Err(Halt::Wait) => match self.watch.ready(WAIT) {
                Ok(_) => None,
                Err(halt) => Some(Err(halt)),
            },
            answer => Some(answer),
        }
    }

    /// A connection that waits already.
    fn accept(&mut self) -> Result<TcpStream, Halt> {
        match self.listener.accept() {
            Ok((stream, _)) => Ok(stream),
            Err(error) => Err(Halt::from(error)),
        }
    }
}
