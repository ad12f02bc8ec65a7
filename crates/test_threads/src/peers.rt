//! What two peers do beside each other: one sends lines and reads nothing, while the other gets its lines back.

use std::io::{Read, Write};
use std::net::{Net, OpenStream, Shutdown, SocketAddr, TcpStream};
use std::thread::Threads;
use std::{io, thread};

/// Sends a line, and tells whether just these bytes come back.
fn is_echoed<T: Read + Write>(peer: &mut T, line: &[u8; 5]) -> bool {
    if peer.write_all(line).is_err() {
        return false;
    }
    let mut back = [0u8; 5];
    peer.read_exact(&mut back).is_ok() && back == *line
}

/// Sends a line so many times, and tells how often just that comes back.
fn echo_often<T: Read + Write>(peer: &mut T, times: u32) -> u32 {
    let mut echoed = 0;
    for _ in 0..times {
        if is_echoed(peer, b"here\n") && echoed < times {
            echoed += 1;
        }
    }
    echoed
}

/// How many bytes come until the stream ends.
fn count_all<T: Read>(peer: &mut T) -> usize {
    let mut room = [0u8; 4096];
    let mut count = 0usize;
    for _ in 0..u64::MAX {
        match peer.read(&mut room) {
            Ok(0) | Err(_) => return count,
            Ok(n) => count = count.saturating_add(n),
        }
    }
    count
}

/// Sends so many lines of this text, and then ends its sending.
fn say_all(peer: &mut TcpStream, line: &[u8], lines: u32) {
    for _ in 0..lines {
        let _said = peer.write_all(line);
    }
    let _ended = peer.shutdown(Shutdown::Write);
}

/// A peer that sends so many lines and reads nothing until another one has got a line back a hundred times. How often that one did, and how
/// many bytes came back to the first.
pub fn beside<R: Net<Stream = TcpStream> + Threads + Sync>(
    rt: &R,
    addr: SocketAddr,
    line: &[u8],
    lines: u32,
) -> io::Result<(u32, usize)> {
    let mut slow = TcpStream::connect(rt, addr)?;
    let mut writer = slow.try_clone()?;
    let mut quick = TcpStream::connect(rt, addr)?;
    let ((), got) = thread::join(
        rt,
        move || say_all(&mut writer, line, lines),
        move || {
            let echoed = echo_often(&mut quick, 100);
            drop(quick);
            (echoed, count_all(&mut slow))
        },
    );
    Ok(got)
}
