//! What is told to who asks from outside: the text of a status, what a request asks for, and a keeper that is asked.

ghost use Rattle.std.specs.Prelude.{◌≤◌};

use game_sheet::{List, MatchName, NoMemory, Text};
use room_history::RoomReply;
use room_keeper::{
    Counts, Ends, Errand, Gauge, HallKeeper, Keeper, MatchStatus, Outside, Request, RoomStatus,
    metrics_text, request_of, status_text,
};
use std::alloc::Global;
use std::sync::Arc;
use std::sync::atomic::{AtomicU64, Ordering};
use std::test::*;
use wire_json::MatchRow;

/// Some counts.
const COUNTS: Counts = Counts {
    open: true,
    links: 5,
    bots: 2,
    ends: Ends {
        ended: 10,
        left: 11,
        lagging: 12,
        too_long: 1,
        faults: 2,
        starved: 4,
    },
    lines: 99,
    received: 1234,
    sent: 56789,
};

/// The status of three rooms, with these counts.
const STATUS: &[u8] =
    b"{\"rooms\":[{\"room\":0,\"game\":\"pig\",\"serial\":3,\"number\":17,\"over\":false,\"seats\":2,\"taken\":1,\"sessions\":4},{\"room\":1,\"stopped\":true},{\"room\":2,\"game\":null,\"serial\":12,\"number\":null,\"over\":null,\"seats\":0,\"taken\":0,\"sessions\":1}],\"open\":true,\"links\":5,\"bots\":2,\"refused\":7,\"received\":1234,\"sent\":56789}\n";

/// A room of each kind.
fn rooms(alloc: Global) -> Result<Vec<RoomStatus>, NoMemory> {
    let mut rooms = Vec::new(alloc);
    rooms.push(RoomStatus::Open {
        stands: Some(MatchStatus {
            game: Text::from_str(alloc, "pig")?,
            number: 17,
            over: false,
            seats: 2,
            taken: 1,
        }),
        serial: 3,
        sessions: 4,
    })?;
    rooms.push(RoomStatus::Stopped)?;
    rooms.push(RoomStatus::Open {
        stands: None,
        serial: 12,
        sessions: 1,
    })?;
    Ok(rooms)
}

#[test]
fn a_status_is_a_line_of_json(rt: HostRuntime) -> Result<(), NoMemory> {
    let alloc = rt.alloc();
    let rooms = rooms(alloc)?;
    let text = status_text(alloc, rooms.as_slice(), COUNTS)?;
    assert!(rt; text.as_slice() == STATUS);
    Ok(())
}

/// The metrics of the same rooms, with the same counts.
const METRICS: &[u8] = b"# TYPE sarpuntxe_open gauge
sarpuntxe_open 1
# TYPE sarpuntxe_links gauge
sarpuntxe_links 5
# TYPE sarpuntxe_bots gauge
sarpuntxe_bots 2
# TYPE sarpuntxe_lines_total counter
sarpuntxe_lines_total 99
# TYPE sarpuntxe_received_bytes_total counter
sarpuntxe_received_bytes_total 1234
# TYPE sarpuntxe_sent_bytes_total counter
sarpuntxe_sent_bytes_total 56789
# TYPE sarpuntxe_sessions_ended_total counter
sarpuntxe_sessions_ended_total{end=\"ended\"} 10
sarpuntxe_sessions_ended_total{end=\"left\"} 11
sarpuntxe_sessions_ended_total{end=\"lagging\"} 12
sarpuntxe_sessions_ended_total{end=\"too-long\"} 1
sarpuntxe_sessions_ended_total{end=\"fault\"} 2
sarpuntxe_sessions_ended_total{end=\"no-memory\"} 4
# TYPE sarpuntxe_rooms gauge
sarpuntxe_rooms{state=\"free\"} 1
sarpuntxe_rooms{state=\"playing\"} 1
sarpuntxe_rooms{state=\"over\"} 0
sarpuntxe_rooms{state=\"stopped\"} 1
# TYPE sarpuntxe_sessions gauge
sarpuntxe_sessions 5
# TYPE sarpuntxe_matches_total counter
sarpuntxe_matches_total 15
";

#[test]
fn metrics_are_lines_with_numbers(rt: HostRuntime) -> Result<(), NoMemory> {
    let alloc = rt.alloc();
    let rooms = rooms(alloc)?;
    let text = metrics_text(alloc, rooms.as_slice(), COUNTS)?;
    assert!(rt; text.as_slice() == METRICS);
    Ok(())
}

/// Heads, and what they ask for.
const HEADS: [(&[u8], Request); 17] = [
    (b"GET /status HTTP/1.1\r\nHost: a\r\n", Request::Status),
    (b"GET /status HTTP/1.0\r\n", Request::Status),
    (b"GET /status?a=b?c HTTP/1.1\r\n", Request::Status),
    (b"GET /status? HTTP/1.1\r\n", Request::Status),
    (b"GET /metrics HTTP/1.1\r\n", Request::Metrics),
    (b"GET /healthz?a HTTP/1.1\r\n", Request::Health),
    (b"PUT /metrics HTTP/1.1\r\n", Request::OtherMethod),
    (b"GET /status/ HTTP/1.1\r\n", Request::Elsewhere),
    (b"GET / HTTP/1.1\r\n", Request::Elsewhere),
    (b"POST /other HTTP/1.1\r\n", Request::Elsewhere),
    (b"POST /status HTTP/1.1\r\n", Request::OtherMethod),
    (b"get /status HTTP/1.1\r\n", Request::OtherMethod),
    (b"GET /status HTTP/2.0\r\n", Request::Unreadable),
    (b"GET /status HTTP/1.1 \r\n", Request::Unreadable),
    (b"GET /status\r\n", Request::Unreadable),
    (b"\xff /status HTTP/1.1\r\n", Request::Unreadable),
    (b"", Request::Unreadable),
];

#[test]
fn a_request_asks_for_the_status(rt: HostRuntime) -> Result<(), Fail> {
    for (head, asks) in HEADS {
        assert_eq!(rt; request_of(head), asks);
    }
    Ok(())
}

/// An outside where somebody always asks. It counts the answers that are right, and those that there was no memory for.
#[derive(Drop)]
struct Asks<'a> {
    alloc: Global,
    right: &'a AtomicU64,
    starved: &'a AtomicU64,
}

/// What is told of a room with a match, one that has stopped, and one without a match.
const TOLD: &[u8] =
    b"{\"rooms\":[{\"room\":0,\"game\":\"pig\",\"serial\":3,\"number\":17,\"over\":false,\"seats\":2,\"taken\":1,\"sessions\":1},{\"room\":1,\"stopped\":true},{\"room\":2,\"game\":null,\"serial\":12,\"number\":null,\"over\":null,\"seats\":0,\"taken\":0,\"sessions\":0}],\"open\":true,\"links\":5,\"bots\":2,\"refused\":7,\"received\":1234,\"sent\":56789}\n";

impl<'a> Outside for Asks<'a> {
    fn seconds(&mut self) -> Option<u64> {
        None
    }

    fn is_watched(&self) -> bool {
        true
    }

    fn asked(&mut self) -> bool {
        true
    }

    fn answer(&mut self, rooms: Result<&[RoomStatus], NoMemory>) {
        let text = match rooms {
            Ok(rooms) => status_text(self.alloc, rooms, COUNTS),
            Err(NoMemory) => Err(NoMemory),
        };
        match &text {
            Ok(text) if text.as_slice() == TOLD => {
                self.right.fetch_add(1, Ordering::SeqCst);
            }
            Ok(_) => {}
            Err(NoMemory) => {
                self.starved.fetch_add(1, Ordering::SeqCst);
            }
        }
        drop(text);
    }
}

/// A row of the match of this serial in room 0, where one of two seats is taken.
fn row(alloc: Global, serial: u64) -> Result<MatchRow, NoMemory>
    requires serial { 1 ≤ serial }
{
    let mut players = List::new(alloc);
    players.push((0, Some(Text::from_str(alloc, "ann")?)))?;
    players.push((1, None))?;
    Ok(MatchRow {
        game: Text::from_str(alloc, "pig")?,
        name: MatchName::new(0, serial),
        over: false,
        players,
    })
}

/// The look at room 0 that a keeper is to name.
fn look(serial: u64) -> Option<Errand> {
    Some(Errand::Look { room: 0, serial })
}

/// A gauge for each of three rooms: the first has a match of this serial, at which a session looks.
fn gauges(alloc: Global, first: &Arc<Gauge, Global>) -> Result<Vec<Arc<Gauge, Global>>, NoMemory> {
    let stopped = Arc::new(alloc, Gauge::new())?;
    stopped.show(None);
    let empty = Arc::new(alloc, Gauge::new())?;
    empty.show(Some((12, None)));
    let mut gauges = Vec::new(alloc);
    gauges.push(Arc::try_clone(first)?)?;
    gauges.push(stopped)?;
    gauges.push(empty)?;
    Ok(gauges)
}

#[test]
fn a_keeper_answers_who_asks(rt: HostRuntime) -> Result<(), NoMemory> {
    let alloc = rt.alloc();
    let (right, starved) = (AtomicU64::new(0), AtomicU64::new(0));
    let first = Arc::new(alloc, Gauge::new())?;
    first.show(Some((2, Some(5))));
    first.count(&RoomReply::Attached);
    let asks = Asks {
        alloc,
        right: &right,
        starved: &starved,
    };
    let mut keeper = HallKeeper::new(alloc, gauges(alloc, &first)?, None, asks)?;
    assert!(rt; keeper.next() == look(2));
    // Another match stands by then, so the room is looked at again.
    first.show(Some((3, Some(17))));
    keeper.told(RoomReply::NoMatch);
    assert!(rt; keeper.next() == look(3));
    keeper.told(RoomReply::Looked(row(alloc, 3)?));
    assert!(rt; keeper.next() == None);
    assert!(rt; right.load(Ordering::SeqCst) == 1);
    assert!(rt; keeper.next() == look(3));
    keeper.told(RoomReply::NoMemory);
    assert!(rt; keeper.next() == None);
    assert!(rt; starved.load(Ordering::SeqCst) == 1);
    drop(keeper);
    Ok(())
}
