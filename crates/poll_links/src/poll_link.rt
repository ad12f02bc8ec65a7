//! A link over a TCP socket that never waits.

ghost use Rattle.std.specs.Prelude.{◌≡◌, ◌≤◌, ◌==◌, false, length, true, None};
ghost use Rattle.board_links.specs.Answers.{IsWithin};
ghost use Rattle.board_links.specs.Faults.{HasRisen};
ghost use Rattle.board_links.specs.declared.link.Stage.TheVariants as at;

use crate::alarms::Looks;
use crate::incoming::come;
use crate::outgoing::{Outgoing, Wrote};
use crate::poll_stream::PollStream;
use crate::watched::Watched;
use board_links::{Came, Link, Out, SessionEnd, Stage};
use game_sheet::{MatchName, NoMemory, Seat};
use mio::Registry;
use std::alloc::Global;
use std::rt::Clock;
use std::sync::Wait;
use tcp_links::LineBuffer;

/// A link over a TCP socket that never waits: a receive answers `Quiet` where nothing is there, and a send lets its bytes wait, which `flush`
/// writes as far as the socket takes them. A peer that takes none of them for 30 seconds is a fault, and so is one that is silent for longer than
/// it may. The link tells neither its answers nor what it was sent.
#[derive(Drop)]
pub struct PollLink<C> {
    stream: PollStream<C>,
    lines: LineBuffer,
    waiting: Outgoing,
    /// Whether the next receive has to fail.
    broken: bool,
    limit: u32,
    faults: u64,
    stage: Stage,
    finished: Option<SessionEnd>,
}

impl<C: Clock + Drop> PollLink<C> {
    /// A link over this stream, with lines of at most `limit` bytes. It takes no memory.
    pub fn over(alloc: Global, stream: PollStream<C>, limit: u32) -> PollLink<C>
        ensures faults { ⟦<PollLink<C> as Link>⟧.faults result ≡ 0 }
        ensures stage { ⟦<PollLink<C> as Link>⟧.stage result ≡ at.Open }
        ensures limit { ⟦<PollLink<C> as Link>⟧.limit result ≡ limit }
        ensures clear { ⟦<PollLink<C> as Link>⟧.clear result ≡ true }
        ensures finished { ⟦<PollLink<C> as Link>⟧.finished result ≡ None }
    {
        PollLink {
            stream,
            lines: LineBuffer::new(alloc),
            waiting: Outgoing::new(alloc),
            broken: false,
            limit,
            faults: 0,
            stage: Stage::Open,
            finished: None,
        }
    }

    /// Its stream, without what came and what waits.
    pub fn into_stream(self) -> PollStream<C> {
        let PollLink {
            stream,
            lines,
            waiting,
            broken: _,
            limit: _,
            faults: _,
            stage: _,
            finished: _,
        } = self;
        drop(lines);
        drop(waiting);
        stream
    }

    /// What came, as far as it is there.
    fn come<R: Wait>(&mut self, rt: &R) -> Came
        ensures within { IsWithin self.old.limit result }
        ensures same { self.new ≡ record self.old { lines = self.new.lines; stream = self.new.stream } }
    {
        if self.broken {
            return Came::Failed;
        }
        come(rt, &mut self.lines, &mut self.stream, self.limit)
    }

    /// Counts a fault.
    fn fail(&mut self)
        ensures raises { HasRisen self.old.faults self.new.faults }
        ensures never_falls { self.old.faults ≤ self.new.faults }
        ensures same { self.new ≡ record self.old { faults = self.new.faults } }
    {
        self.faults = self.faults.saturating_add(1);
    }

    /// Writes what waits, once. A peer that takes nothing for too long is given up.
    fn write(&mut self)
        requires { (length self.old.waiting == 0) ≡ false }
        ensures faults { self.new.faults ≡ self.old.faults }
        ensures stage { self.new.stage ≡ self.old.stage }
        ensures limit { self.new.limit ≡ self.old.limit }
        ensures finished { self.new.finished ≡ self.old.finished }
    {
        match self.waiting.write_to(&mut self.stream) {
            Wrote::Some(_) | Wrote::Nothing => {}
            Wrote::Failed => self.give_up(),
        }
    }

    /// Nothing waits any more, and the next receive fails.
    fn give_up(&mut self)
        ensures clear { (length self.new.waiting == 0) ≡ true }
        ensures broken { self.new.broken ≡ true }
        ensures faults { self.new.faults ≡ self.old.faults }
        ensures stage { self.new.stage ≡ self.old.stage }
        ensures limit { self.new.limit ≡ self.old.limit }
        ensures finished { self.new.finished ≡ self.old.finished }
    {
        self.broken = true;
        self.waiting.clear();
    }
}

impl<C: Clock + Drop> Link for PollLink<C> {
    ghost use Rattle.std.specs.Prelude.{◌==◌, None, length};

    ghost answers = { λ _. None };

    ghost sent = { λ _. None };

    ghost faults = { λ l. l.faults };

    ghost stage = { λ l. l.stage };

    ghost limit = { λ l. l.limit };

    ghost clear = { λ l. length l.waiting == 0 };

    ghost finished = { λ l. l.finished };

    fn limit(&self) -> u32 {
        self.limit
    }

    fn receive<R: Wait>(&mut self, rt: &R) -> Came {
        let came = self.come(rt);
        match &came {
            Came::Line(_) | Came::Quiet => self.stage = Stage::Open,
            Came::Ended => self.stage = Stage::Ended,
            Came::TooLong => self.stage = Stage::TooLong,
            Came::Failed => {
                self.stage = Stage::Open;
                self.fail();
            }
            Came::NoMemory => {}
        }
        came
    }

    fn send<R: Wait>(&mut self, _rt: &R, bytes: &[u8]) -> Out {
        if self.broken {
            self.fail();
            return Out::Failed;
        }
        match self.waiting.push(bytes) {
            Ok(()) => Out::Done,
            Err(NoMemory) => Out::NoMemory,
        }
    }

    fn flush(&mut self) -> bool {
        if !self.waiting.is_empty() {
            self.write();
        }
        self.waiting.is_empty()
    }

    fn finish(&mut self, end: SessionEnd) {
        self.stream.shutdown();
        self.finished = Some(end);
    }

    fn bot_seat(&self) -> Option<(MatchName, Seat)> {
        None
    }

    fn ask_out(&mut self) {}
}

impl<C: Clock + Drop> Watched for PollLink<C> {
    fn watch(&mut self, registry: &Registry, number: u32) {
        if !self.stream.watch(registry, number) {
            self.broken = true;
        }
    }

    fn looks(&self) -> Looks {
        self.stream.looks()
    }
}
