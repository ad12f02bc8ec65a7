//! What is made before the workers' threads: the door, and what tells each worker which of its links are ready.

ghost use Rattle.std.specs.Prelude.{◌≡◌, IfOk, false, vec_len};

use crate::bells::Bells;
use crate::poll_door::PollDoor;
use crate::poll_ready::{BELL, DOOR, PollReady};
use board_links::Door;
use game_sheet::NoMemory;
use mio::net::TcpListener;
use mio::{Interest, Poll, Waker};
use std::alloc::Global;
use std::io;
use std::io::{Eprint, ErrorKind};
use std::net::{Net, SocketAddr};
use std::rt::Clock;
use std::sync::Arc;

/// A door that listens at this address, or at any free port where its port is 0, and for each of so many workers what tells it which of its
/// links are ready, at so many places in all. They are dealt over the workers as `link_rounds::serve_places` deals its services: as evenly as can
/// be, and the first workers get one more; a worker without a free place leaves the next link to another. The door gives so many links and no
/// more, and listens no longer then, nor once it has failed; errors of the system are said on standard error as `PollDoor` says. Its links have lines of at most `limit` bytes, and a peer that sends nothing for
/// `silence` seconds, where they are said, is a fault of its link. An Err is the system's: the address is
/// taken, or there are no descriptors left, of which each worker needs two, or no memory.
pub fn open<N: Net + Clock + Eprint + Copy + Drop>(
    net: N,
    alloc: Global,
    addr: SocketAddr,
    limit: u32,
    silence: Option<u32>,
    workers: usize,
    places: u32,
    sessions: u64,
) -> io::Result<(PollDoor<N>, Vec<PollReady<N>>)>
    ensures workers { IfOk result (λ r. vec_len r.1 ≡ workers) }
    ensures given { IfOk result (λ r. ⟦<PollDoor<N> as Door>⟧.given r.0 ≡ 0) }
    ensures out { IfOk result (λ r. ⟦<PollDoor<N> as Door>⟧.out r.0 ≡ 0) }
    ensures bots_out { IfOk result (λ r. ⟦<PollDoor<N> as Door>⟧.bots_out r.0 ≡ 0) }
    ensures shut { IfOk result (λ r. ⟦<PollDoor<N> as Door>⟧.shut r.0 ≡ false) }
    ensures faults { IfOk result (λ r. ⟦<PollDoor<N> as Door>⟧.faults r.0 ≡ 0) }
{
    let mut listener = TcpListener::bind(&net, addr)?;
    let (polls, wakers) = polls(&net, alloc, &mut listener, workers)?;
    let Ok(bells) = Bells::new(alloc, wakers) else {
        return Err(no_memory());
    };
    let bells = Arc::new(alloc, bells)?;
    match readies(net, alloc, polls, &bells, places) {
        Ok(ready) => Ok((
            PollDoor::over(net, alloc, listener, bells, limit, silence, sessions),
            ready,
        )),
        Err(NoMemory) => Err(no_memory()),
    }
}

/// The system's error where there is no memory.
fn no_memory() -> io::Error {
    io::Error::from(ErrorKind::OutOfMemory)
}

/// A poll for each worker, in which the listener is registered, and what ends its wait.
fn polls<N: Net>(
    net: &N,
    alloc: Global,
    listener: &mut TcpListener,
    workers: usize,
) -> io::Result<(Vec<Poll>, Vec<Waker>)>
    ensures { IfOk result (λ r. vec_len r.0 ≡ workers) }
{
    let mut polls = Vec::with_capacity(alloc, workers)?;
    let mut wakers = Vec::with_capacity(alloc, workers)?;
    for _ in 0..workers {
        let poll = Poll::new(net)?;
        let waker = Waker::new(poll.registry(), BELL)?;
        poll.registry()
            .register(listener, DOOR, Interest::READABLE)?;
        polls.push(poll)?;
        wakers.push(waker)?;
    }
    Ok((polls, wakers))
}

/// What tells each worker, over these polls.
fn readies<C: Clock + Copy + Drop>(
    clock: C,
    alloc: Global,
    polls: Vec<Poll>,
    bells: &Arc<Bells, Global>,
    places: u32,
) -> Result<Vec<PollReady<C>>, NoMemory>
    ensures { IfOk result (λ r. vec_len r ≡ vec_len polls) }
{
    let workers = polls.len();
    let mut readies = Vec::with_capacity(alloc, workers)?;
    for poll in polls {
        let bells = Arc::try_clone(bells)?;
        let me = readies.len();
        let own = part(places, workers, me);
        readies.push(PollReady::new(clock, alloc, poll, bells, me, own)?)?;
    }
    Ok(readies)
}

/// How many of the places are those of the worker `me`: the first workers have what can't be divided.
fn part(places: u32, workers: usize, me: usize) -> u32 {
    let workers = workers.max(1);
    let each = places as usize / workers;
    let more = usize::from(me < places as usize % workers);
    u32::try_from(each.saturating_add(more)).unwrap_or(places)
}
