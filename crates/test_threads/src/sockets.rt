//! A door at a free port, its links, and peers that send whole lines, parts of lines and lines that are too long, or go away.

ghost use Rattle.std.specs.Prelude.{◌≡◌, ◌<◌, false, IfOk, IfSome};
ghost use Rattle.board_links.specs.Answers.{AreLines};

use board_links::{Came, Door, Link, Out, SessionEnd, Visit};
use game_sheet::{Bytes, NoMemory};
use std::alloc::Global;
use std::io::{Read, Write};
use std::net::{Ipv4Addr, Net, SocketAddr, TcpStream};
use std::sync::Wait;
use std::test::*;
use std::{io, thread};
use tcp_links::{TcpDoor, TcpLink};

/// How many bytes a line to the door's links may have.
const LIMIT: u32 = 4;

/// How many bytes a line of the server has that fits in no socket at once.
const LONG: usize = 3_000_000;

/// How often a link may be quiet before a test gives up, ten milliseconds each.
const QUIET: u32 = 2_000;

/// The word of an answer, and how long its line is.
type Word = (&'static str, usize);

/// What one side of a meeting heard, and what came of its line.
#[derive(Clone, Copy, PartialEq, Eq, Debug)]
struct Told {
    words: [Word; 2],
    sent: Option<Out>,
}

/// Where no link came.
const NOTHING: Told = Told {
    words: [("no link", 0); 2],
    sent: None,
};

/// A door at a free port of loopback, and its address.
fn opened<N: Net + Drop>(net: N, alloc: Global) -> io::Result<(TcpDoor<N>, SocketAddr)> {
    let any = SocketAddr::from((Ipv4Addr::LOCALHOST, 0));
    let door = TcpDoor::bind(net, alloc, any, LIMIT)?;
    match door.addr() {
        Ok(addr) => Ok((door, addr)),
        Err(error) => {
            drop(door);
            Err(error)
        }
    }
}

/// The next link of a door.
fn next<D: Door, R: Wait>(rt: &R, door: &mut D) -> Option<D::L>
    ensures { D.has_bots ≡ false → IfSome result (λ _. 0 < D.out door.new) }
{
    match door.accept(rt) {
        Visit::Came(link) => Some(link),
        Visit::Quiet | Visit::Shut | Visit::Failed | Visit::NoMemory => None,
    }
}

/// What a link answers next but for silence.
fn heard<L: Link, R: Wait>(rt: &R, link: &mut L) -> Came
    ensures { L.finished link.new ≡ L.finished link.old }
{
    for _ in 0..QUIET {
        match link.receive(rt) {
            Came::Quiet => {}
            answer => return answer,
        }
    }
    Came::Quiet
}

/// How long a line is.
fn length(line: &Bytes) -> usize {
    match line.whole() {
        Some(bytes) => bytes.len(),
        None => 0,
    }
}

/// The word of an answer, and how long its line is.
fn word(came: &Came) -> Word {
    match came {
        Came::Line(line) => ("line", length(line)),
        Came::Quiet => ("quiet", 0),
        Came::Ended => ("ended", 0),
        Came::TooLong => ("too long", 0),
        Came::Failed => ("failed", 0),
        Came::NoMemory => ("no memory", 0),
    }
}

/// The word of what a link answers next but for silence.
fn word_heard<L: Link, R: Wait>(rt: &R, link: &mut L) -> Word
    ensures { L.finished link.new ≡ L.finished link.old }
{
    let came = heard(rt, link);
    let told = word(&came);
    drop(came);
    told
}

/// The word of what a link answers to one call.
fn word_once<L: Link, R: Wait>(rt: &R, link: &mut L) -> Word {
    let came = link.receive(rt);
    let told = word(&came);
    drop(came);
    told
}

/// These bytes and a newline.
fn with_newline(bytes: Vec<u8>) -> Result<Vec<u8>, NoMemory>
    ensures { IfOk result (λ line. AreLines line.items) }
{
    let mut line = bytes;
    line.push(b'\n')?;
    Ok(line)
}

/// Sends a line of so many bytes, and tells what came of it; nothing where there is no memory for it.
fn send_long<L: Link, R: Wait>(rt: &R, alloc: Global, link: &mut L, length: usize) -> Option<Out> {
    let bytes = Vec::from_elem(alloc, b'x', length).ok()?;
    let line = with_newline(bytes).ok()?;
    Some(link.send(rt, &line))
}

/// A server's session: it hears a line, answers with a long one, and ends.
fn serve<D: Door, R: Wait>(rt: &R, alloc: Global, door: D) -> Told
    requires { D.has_bots ≡ false }
{
    let mut door = door;
    let Some(mut link) = next(rt, &mut door) else {
        drop(door);
        return NOTHING;
    };
    let first = word_heard(rt, &mut link);
    let sent = send_long(rt, alloc, &mut link, LONG);
    link.finish(SessionEnd::NoMemory);
    let last = word_heard(rt, &mut link);
    door.back(rt, link, SessionEnd::NoMemory);
    drop(door);
    Told {
        words: [first, last],
        sent,
    }
}

/// A client's session: it says a line, and hears two answers.
fn ask<L: Link, R: Wait>(rt: &R, alloc: Global, link: L) -> Told {
    let mut link = link;
    let sent = send_long(rt, alloc, &mut link, 3);
    let first = word_heard(rt, &mut link);
    let last = word_heard(rt, &mut link);
    drop(link);
    Told {
        words: [first, last],
        sent,
    }
}

/// A client's session at this address.
fn ask_at<N: Net, R: Wait>(net: &N, rt: &R, alloc: Global, addr: SocketAddr) -> Told {
    match TcpLink::connect(net, alloc, addr) {
        Ok(link) => ask(rt, alloc, link),
        Err(error) => {
            drop(error);
            NOTHING
        }
    }
}

/// A session whose line was taken, and which heard one of so many bytes and then the end.
fn all_told(length: usize) -> Told {
    Told {
        words: [("line", length), ("ended", 0)],
        sent: Some(Out::Done),
    }
}

#[test]
fn a_line_goes_each_way_and_finish_closes(rt: HostRuntime) -> Result<(), Fail> {
    let (door, addr) = opened(rt, rt.alloc())?;
    let threads = &rt;
    let alloc = rt.alloc();
    let (server, client) = thread::join(
        threads,
        move || serve(threads, alloc, door),
        move || ask_at(threads, threads, alloc, addr),
    );
    assert!(rt; addr.port() != 0);
    assert!(rt; server == all_told(3) && client == all_told(LONG));
    Ok(())
}

/// What a door's next link answers to a peer that sends these bytes and goes.
fn two_words<D: Door, W: Write + Drop, R: Wait>(
    rt: &R,
    door: &mut D,
    peer: io::Result<W>,
    bytes: &[u8],
) -> [Word; 2] {
    let Ok(mut peer) = peer else {
        return [("no peer", 0); 2];
    };
    let _sent = peer.write_all(bytes);
    drop(peer);
    let Some(mut link) = next(rt, door) else {
        return NOTHING.words;
    };
    let first = word_heard(rt, &mut link);
    let last = word_heard(rt, &mut link);
    drop(link);
    [first, last]
}

/// What peers send, and the words of two answers to it.
const ROWS: [(&[u8], [Word; 2]); 3] = [
    (b"12345\n", [("too long", 0), ("too long", 0)]),
    (b"\n\r\n", [("line", 0), ("line", 1)]),
    (b"1234\n123", [("line", 4), ("ended", 0)]),
];

/// The first place at which a link answers otherwise than its row says.
fn first_wrong<D: Door, R: Net + Wait>(
    rt: &R,
    door: D,
    addr: SocketAddr,
    rows: &[(&[u8], [Word; 2])],
) -> Option<usize> {
    let mut door = door;
    let mut wrong = None;
    for (place, (bytes, want)) in rows.iter().enumerate() {
        let words = two_words(rt, &mut door, TcpStream::connect(rt, addr), bytes);
        if wrong.is_none() && words != *want {
            wrong = Some(place);
        }
    }
    drop(door);
    wrong
}

#[test]
fn lines_come_up_to_the_limit_and_then_the_end(rt: HostRuntime) -> Result<(), Fail> {
    let (door, addr) = opened(rt, rt.alloc())?;
    assert_eq!(rt; first_wrong(&rt, door, addr, &ROWS), None);
    Ok(())
}

/// What a door's next link answers twice while half of a line is there, and then once the rest is.
fn halves<D: Door, W: Write + Drop, R: Wait>(rt: &R, door: D, peer: io::Result<W>) -> [Word; 3] {
    let mut door = door;
    let Ok(mut peer) = peer else {
        drop(door);
        return [("no peer", 0); 3];
    };
    let Some(mut link) = next(rt, &mut door) else {
        drop(door);
        drop(peer);
        return [("no link", 0); 3];
    };
    let _half = peer.write_all(b"ha");
    let first = word_once(rt, &mut link);
    let second = word_once(rt, &mut link);
    let _rest = peer.write_all(b"lf\n");
    let last = word_heard(rt, &mut link);
    drop(link);
    drop(door);
    drop(peer);
    [first, second, last]
}

#[test]
fn half_a_line_is_kept_until_the_rest_comes(rt: HostRuntime) -> Result<(), Fail> {
    let (door, addr) = opened(rt, rt.alloc())?;
    let words = halves(&rt, door, TcpStream::connect(&rt, addr));
    assert!(rt; words == [("quiet", 0), ("quiet", 0), ("line", 4)]);
    Ok(())
}

/// What a door's next link answers once a peer has gone that read one byte of a line, and what comes of a line before and after.
fn unread<D: Door, W: Read + Drop, R: Wait>(
    rt: &R,
    alloc: Global,
    door: D,
    peer: io::Result<W>,
) -> (Option<Out>, Word, Option<Out>) {
    let mut door = door;
    let Ok(mut peer) = peer else {
        drop(door);
        return (None, ("no peer", 0), None);
    };
    let Some(mut link) = next(rt, &mut door) else {
        drop(door);
        drop(peer);
        return (None, ("no link", 0), None);
    };
    let before = send_long(rt, alloc, &mut link, 3);
    let mut room = [0u8; 1];
    let _one = peer.read(&mut room);
    drop(peer);
    let word = word_heard(rt, &mut link);
    let after = send_long(rt, alloc, &mut link, 3);
    drop(link);
    drop(door);
    (before, word, after)
}

#[test]
fn a_peer_that_leaves_bytes_unread_is_a_fault(rt: HostRuntime) -> Result<(), Fail> {
    let (door, addr) = opened(rt, rt.alloc())?;
    let peer = TcpStream::connect(&rt, addr);
    let (before, word, after) = unread(&rt, rt.alloc(), door, peer);
    assert!(rt; before == Some(Out::Done) && after == Some(Out::Failed));
    assert!(rt; word == ("failed", 0));
    Ok(())
}

#[test]
fn where_nobody_listens_a_send_fails(rt: HostRuntime) -> Result<(), Fail> {
    let (door, addr) = opened(rt, rt.alloc())?;
    drop(door);
    let client = ask_at(&rt, &rt, rt.alloc(), addr);
    assert!(rt; client.sent == Some(Out::Failed));
    Ok(())
}
