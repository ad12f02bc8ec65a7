//! Links over loopback that two workers serve.

use crate::peers::beside;
use crate::serving::serve;
use link_rounds::DoorEnd;
use poll_links::{PollDoor, PollReady, open};
use std::alloc::Global;
use std::net::{Ipv4Addr, SocketAddr};
use std::test::*;
use std::{io, thread};

/// How many bytes a line may have.
const LIMIT: u32 = 65_536;

/// Any free port of loopback.
fn any() -> SocketAddr {
    SocketAddr::from((Ipv4Addr::LOCALHOST, 0))
}

/// A line of 60,000 bytes.
fn long_line(alloc: Global) -> Result<Vec<u8>, Fail> {
    let mut line = Vec::from_elem(alloc, b'x', 59_999)?;
    line.push(b'\n')?;
    Ok(line)
}

#[test]
fn a_slow_reader_holds_nobody_up(rt: HostRuntime) -> Result<(), Fail> {
    let alloc = rt.alloc();
    let (door, readies) = open(rt, alloc, any(), LIMIT, None, 2, 4, 2)?;
    let addr = door.addr()?;
    let line = long_line(alloc)?;
    let (system, line) = (&rt, line.as_slice());
    let (served, got) = thread::join(
        system,
        move || serve(system, alloc, readies, door, 2, 2),
        move || beside(system, addr, line, 400),
    );
    assert!(rt; served == Some((DoorEnd::Done, 2)));
    assert!(rt; got? == (100, 24_000_000));
    Ok(())
}

#[test]
fn a_thousand_lines_beside_anothers(rt: HostRuntime) -> Result<(), Fail> {
    let alloc = rt.alloc();
    let (door, readies) = open(rt, alloc, any(), LIMIT, None, 2, 4, 2)?;
    let addr = door.addr()?;
    let system = &rt;
    let (served, got) = thread::join(
        system,
        move || serve(system, alloc, readies, door, 2, 2),
        move || beside(system, addr, b"one of many\n", 1_000),
    );
    assert!(rt; served == Some((DoorEnd::Done, 2)));
    assert!(rt; got? == (100, 12_000));
    Ok(())
}
