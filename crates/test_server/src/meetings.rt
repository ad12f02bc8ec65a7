//! Two links that wait for each other, over a door in memory and two workers.

ghost use Rattle.std.specs.Prelude.{◌≡◌, ◌-◌, [], false, vec_len, IfOk, Some, None};
ghost use Rattle.board_links.specs.Answers.{CameRaises, IsWithin, stage_after};

use crate::watches::take_watch;
use bench_wishes::Wishes;
use board_links::{Came, Door, Link, MemoryDoor, Out, SessionEnd, Stage};
use game_sheet::{Bytes, List, MatchName, NoMemory, Seat};
use link_rounds::{DoorEnd, InTurn};
use room_desk::Desk;
use session_pool::{plain_rooms, serve_door, set_up_rooms};
use std::alloc::Global;
use std::sync::Wait;
use std::sync::atomic::{AtomicBool, Ordering};
use std::test::*;
use std::thread;
use std::time::{Clock, Duration};

/// How often a wait looks before it gives up, a millisecond apart.
const LIMIT: u32 = 10_000;

/// What the two links tell each other.
#[derive(Drop)]
struct Flags {
    first_waits: AtomicBool,
    second_was_told: AtomicBool,
    missed: AtomicBool,
}

/// Waits until the flag is up, and notes where it isn't in time.
fn wait_for<R: Clock>(clock: &R, flags: &Flags, flag: &AtomicBool) {
    for _ in 0..LIMIT {
        if flag.load(Ordering::SeqCst) {
            return;
        }
        thread::sleep(clock, Duration::from_millis(1));
    }
    flags.missed.store(true, Ordering::SeqCst);
}

/// The first link waits until the second was sent an update, and ends. The second makes a match, sits down, looks, and clicks once the
/// first has begun to wait.
#[derive(Drop)]
struct Meeting<'a, R> {
    clock: &'a R,
    flags: &'a Flags,
    alloc: Global,
    first: bool,
    turns: u32,
    sends: u32,
    key: [u8; 32],
    stage: Stage,
    finished: Option<SessionEnd>,
}

impl<'a, R: Clock> Meeting<'a, R> {
    /// The line of a turn; none after the last.
    fn line(&self) -> Result<Option<Vec<u8>>, NoMemory> {
        let (before, after): (&[u8], &[u8]) = match self.turns {
            1 => return Ok(Some(Vec::from_slice(
                self.alloc,
                b"{\"game\":\"tic-tac-toe\",\"seats\":2,\"type\":\"create\"}",
            )?)),
            2 => return Ok(Some(Vec::from_slice(
                self.alloc,
                b"{\"match\":\"0-1\",\"name\":\"ann\",\"seat\":0,\"type\":\"join\"}",
            )?)),
            3 => (
                b"{\"key\":\"",
                b"\",\"match\":\"0-1\",\"seat\":0,\"type\":\"sync\"}",
            ),
            4 => (
                b"{\"act\":{\"args\":[0],\"kind\":\"move\",\"move\":\"clickCell\"},\"key\":\"",
                b"\",\"match\":\"0-1\",\"number\":0,\"ticket\":1,\"type\":\"act\"}",
            ),
            _ => return Ok(None),
        };
        let mut line = Vec::from_slice(self.alloc, before)?;
        line.extend_from_slice(&self.key)?;
        line.extend_from_slice(after)?;
        Ok(Some(line))
    }

    /// The answer of a turn.
    fn answer(&self) -> Came
        ensures raises { CameRaises result 0 0 }
        ensures within { IsWithin 4294967295 result }
    {
        match self.line() {
            Ok(Some(line)) => {
                if line.len() > u32::MAX as usize {
                    drop(line);
                    return Came::NoMemory;
                }
                Came::Line(Bytes::from_vec(line))
            }
            Ok(None) => Came::Ended,
            Err(NoMemory) => Came::NoMemory,
        }
    }
}

/// What a link tells of its end after an answer.
pub fn stage_after(answer: &Came, stage: Stage) -> Stage
    ensures { result ≡ stage_after answer.now stage }
{
    match answer {
        Came::Ended => Stage::Ended,
        Came::TooLong => Stage::TooLong,
        Came::NoMemory => stage,
        Came::Line(_) | Came::Quiet | Came::Failed => Stage::Open,
    }
}

impl<'a, R: Clock> Link for Meeting<'a, R> {
    ghost use Rattle.std.specs.Prelude.{None, true};

    ghost answers = { λ _. None };

    ghost sent = { λ _. None };

    ghost faults = { λ _. 0 };

    ghost stage = { λ l. l.stage };

    ghost limit = { λ _. 4294967295 };

    ghost clear = { λ _. true };

    ghost finished = { λ l. l.finished };

    fn limit(&self) -> u32 {
        u32::MAX
    }

    fn receive<W: Wait>(&mut self, _rt: &W) -> Came {
        self.turns = self.turns.saturating_add(1);
        if self.first {
            self.flags.first_waits.store(true, Ordering::SeqCst);
            wait_for(self.clock, self.flags, &self.flags.second_was_told);
            self.stage = Stage::Ended;
            return Came::Ended;
        }
        if self.turns == 4 {
            wait_for(self.clock, self.flags, &self.flags.first_waits);
        }
        let answer = self.answer();
        self.stage = stage_after(&answer, self.stage);
        answer
    }

    fn send<W: Wait>(&mut self, _rt: &W, bytes: &[u8]) -> Out {
        self.sends = self.sends.saturating_add(1);
        if bytes.starts_with(b"{\"key\":\"") && bytes.len() > 40 {
            self.key.copy_from_slice(&bytes[8..40]);
        }
        if bytes.starts_with(b"{\"ctx\":") {
            self.flags.second_was_told.store(true, Ordering::SeqCst);
        }
        Out::Done
    }

    fn flush(&mut self) -> bool {
        true
    }

    fn finish(&mut self, end: SessionEnd) {
        self.finished = Some(end);
    }

    fn bot_seat(&self) -> Option<(MatchName, Seat)> {
        None
    }

    fn ask_out(&mut self) {}
}

/// The first link, or the second.
fn new_meeting<'a, R: Clock>(
    clock: &'a R,
    flags: &'a Flags,
    alloc: Global,
    first: bool,
) -> Meeting<'a, R>
    ensures { result.finished ≡ None }
{
    Meeting {
        clock,
        flags,
        alloc,
        first,
        turns: 0,
        sends: 0,
        key: [b'0'; 32],
        stage: Stage::Open,
        finished: None,
    }
}

/// A door of both links, of which the second comes first.
fn door<'a, R: Clock>(
    clock: &'a R,
    flags: &'a Flags,
    alloc: Global,
) -> Result<MemoryDoor<Meeting<'a, R>>, NoMemory>
    ensures fresh { IfOk result (λ d. (d.start - vec_len d.links ≡ 0) × (d.start - vec_len d.links - vec_len d.ended ≡ 0) × (d.shut ≡ false)) }
    ensures none_back { IfOk result (λ d. ⟦<MemoryDoor<Meeting<'a, R>> as Door>⟧.returned d ≡ Some []) }
{
    let mut links = Vec::new(alloc);
    links.push(new_meeting(clock, flags, alloc, true))?;
    links.push(new_meeting(clock, flags, alloc, false))?;
    MemoryDoor::new(alloc, links, List::new(alloc))
}

#[test]
fn two_links_that_wait_for_each_other_are_served_by_two_workers(
    rt: HostRuntime,
) -> Result<(), Fail> {
    let alloc = rt.alloc();
    let flags = Flags {
        first_waits: AtomicBool::new(false),
        second_was_told: AtomicBool::new(false),
        missed: AtomicBool::new(false),
    };
    let door = door(&rt, &flags, alloc)?;
    let (desks, rows) = set_up_rooms(alloc, plain_rooms(alloc, 1)?, 3)?;
    let (passes, watch) = take_watch(&desks, rows, 2);
    let (bench, bench_passes) = Desk::set_up(alloc, Wishes::new(alloc), 2)?;
    let mut readies = Vec::with_capacity(alloc, 2)?;
    readies.push_reserved(InTurn::new(1));
    readies.push_reserved(InTurn::new(1));
    let (end, count, passes, bench_passes, watch, door) = serve_door(
        &rt,
        alloc,
        desks.as_slice(),
        passes,
        &bench,
        bench_passes,
        watch,
        readies,
        [0; 32],
        door,
        1000,
    );
    drop(passes);
    drop(bench_passes);
    drop(watch);
    drop(desks);
    drop(bench);
    assert!(rt; end == DoorEnd::Done && count == 2);
    let mut sends = [u32::MAX; 2];
    for (link, end) in door.ended() {
        assert_eq!(rt; *end, SessionEnd::Ended);
        sends[usize::from(link.first)] = link.sends;
    }
    assert_eq!(rt; sends, [5, 0]);
    assert!(rt; !flags.missed.load(Ordering::SeqCst));
    Ok(())
}
