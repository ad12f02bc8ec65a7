//! A session over a WebSocket whose bytes are known, and the bytes that it is sent.

ghost use Rattle.std.specs.Prelude.{◌≡◌, All, None, vec_len};
ghost use Rattle.session_pool.specs.Passes.{Belong, number_of};
ghost use Rattle.session_pool.specs.Placed.{AttachedBy};

use any_game::AnyGame;
use bench_wishes::Wishes;
use board_links::SessionEnd;
use dice_words::Tape;
use game_sheet::NoMemory;
use match_master::Book;
use room_desk::{Desk, Pass};
use session_pool::{plain_rooms, serve_link, set_up_rooms};
use std::alloc::Global;
use std::io::Cursor;
use std::sync::Wait;
use std::test::Fail;
use tungstenite::Duplex;
use ws_link::WsLink;

/// A binary message with a mask of zeros, which asks for the matches of a game.
const MATCHES: &[u8] = b"\x82\x9f\x00\x00\x00\x00{\"game\":\"pig\",\"type\":\"matches\"}";

/// The text message that answers it.
const ANSWER: &[u8] = b"\x81\x1f{\"matches\":[],\"type\":\"matches\"}";

/// The close of a session whose peer has ended: at most this is sent once the stream is at its end.
const ENDED: &[u8] = b"\x88\x02\x03\xe8";

/// The close of one whose line was too long.
const TOO_LONG: &[u8] = b"\x88\x02\x03\xf1";

/// The header alone of a binary message of 65,537 bytes.
const PAST_THE_LIMIT: &[u8] = b"\x82\xff\x00\x00\x00\x00\x00\x01\x00\x01\x00\x00\x00\x00";

/// One room and a bench, and a pass to each.
#[derive(Drop)]
struct Rooms {
    desks: Vec<Desk<Book<AnyGame>>>,
    passes: Vec<Pass<Book<AnyGame>>>,
    bench: Desk<Wishes>,
    bench_passes: Vec<Pass<Wishes>>,
    ghost one: { vec_len desks ≡ 1 },
    ghost belong: { Belong desks.items (number_of passes.items) passes.items },
    ghost free: { AttachedBy passes.items None },
    ghost one_place: { vec_len bench_passes ≡ 1 },
    ghost own: { All (λ p. p.desk ≡ bench.desk) bench_passes.items },
}

fn opened(alloc: Global) -> Result<Rooms, NoMemory> {
    let (desks, mut places) = set_up_rooms(alloc, plain_rooms(alloc, 1)?, 1)?;
    let Some(passes) = places.pop() else {
        unreachable!()
    };
    drop(places);
    let (bench, bench_passes) = Desk::set_up(alloc, Wishes::new(alloc), 1)?;
    Ok(Rooms {
        desks,
        passes,
        bench,
        bench_passes,
    })
}

/// Serves a session over these bytes in these rooms: how it ended, and what it was sent.
fn serve<R: Wait>(
    rt: &R,
    alloc: Global,
    rooms: &mut Rooms,
    bytes: Vec<u8>,
    sent: &mut Vec<u8>,
) -> SessionEnd {
    let mut words = Tape::live([0; 32], 0, 0);
    let reader = Cursor::new(bytes);
    let mut link = WsLink::raw(
        alloc,
        Duplex {
            reader,
            writer: sent,
        },
    );
    let Rooms {
        desks,
        passes,
        bench,
        bench_passes,
    } = rooms;
    let end = serve_link(
        rt,
        alloc,
        desks.as_slice(),
        passes.as_mut_slice(),
        bench,
        &mut bench_passes[0],
        &mut link,
        &mut words,
    );
    drop(link);
    end
}

/// Serves a session over these bytes in rooms of its own.
fn served<R: Wait>(
    rt: &R,
    alloc: Global,
    bytes: Vec<u8>,
    sent: &mut Vec<u8>,
) -> Result<SessionEnd, NoMemory> {
    let mut rooms = opened(alloc)?;
    let end = serve(rt, alloc, &mut rooms, bytes, sent);
    drop(rooms);
    Ok(end)
}

#[test]
fn matches_by_frames(rt: HostRuntime) -> Result<(), Fail> {
    let alloc = rt.alloc();
    let mut sent = Vec::new(alloc);
    let end = served(&rt, alloc, Vec::from_slice(alloc, MATCHES)?, &mut sent)?;
    assert_eq!(rt; end, SessionEnd::Ended);
    assert!(rt; sent.as_slice().starts_with(ANSWER));
    let rest = &sent.as_slice()[ANSWER.len().min(sent.len())..];
    assert!(rt; rest.is_empty() || rest == ENDED);
    Ok(())
}

#[test]
fn a_message_past_the_limit(rt: HostRuntime) -> Result<(), Fail> {
    let alloc = rt.alloc();
    let bytes = Vec::from_slice(alloc, PAST_THE_LIMIT)?;
    let mut sent = Vec::new(alloc);
    let end = served(&rt, alloc, bytes, &mut sent)?;
    assert_eq!(rt; end, SessionEnd::TooLong);
    assert_eq!(rt; sent.as_slice(), TOO_LONG);
    Ok(())
}
