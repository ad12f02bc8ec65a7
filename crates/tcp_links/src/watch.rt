//! A poll that waits for one socket.

use crate::halt::Halt;
use mio::event::Source;
use mio::{Events, Interest, Poll, Token};
use std::alloc::Global;
use std::io;
use std::net::Net;
use std::time::Duration;

/// How many events a poll has room for.
const EVENTS: usize = 4;

/// A poll in which one socket alone is registered.
pub struct Watch {
    poll: Poll,
    events: Events,
}

impl Drop for Watch {
    fn drop(self) {
        let Watch { poll, events } = self;
        drop(poll);
        drop(events);
    }
}

impl Watch {
    /// A watch of this socket. An Err is the system's: no descriptor is left, or no memory.
    pub fn over<N: Net, S: Source>(
        net: &N,
        alloc: Global,
        socket: &mut S,
        interests: Interest,
    ) -> io::Result<Watch> {
        let poll = registered(net, socket, interests)?;
        match Events::with_capacity(alloc, EVENTS) {
            Ok(events) => Ok(Watch { poll, events }),
            Err(error) => {
                drop(poll);
                Err(error.into())
            }
        }
    }

    /// Waits for at most so many milliseconds, and tells whether anything was ready.
    pub fn ready(&mut self, millis: u64) -> Result<bool, Halt> {
        let wait = Duration::from_millis(millis);
        self.poll.poll(&mut self.events, Some(wait))?;
        Ok(!self.events.is_empty())
    }
}

/// A poll in which a socket is registered.
fn registered<N: Net, S: Source>(net: &N, socket: &mut S, interests: Interest) -> io::Result<Poll> {
    let poll = Poll::new(net)?;
    poll.registry().register(socket, Token(0), interests)?;
    Ok(poll)
}
