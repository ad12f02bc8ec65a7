//! A link of a bench: a bot's, or one of the door beside it.

ghost use Rattle.std.specs.Prelude.{◌≡◌, ◌≤◌, IsSome, is_some, true};

use board_links::{Came, Link, Out, SessionEnd};
use game_sheet::{MatchName, Seat};
use std::sync::Wait;

/// A link of a bench.
#[derive(Drop)]
pub enum BenchLink<L, B> {
    /// A bot's.
    Bot(B),
    /// One of the door's.
    Other(L),
}

impl<L: Link, B: Link> Link for BenchLink<L, B> {
    ghost use Rattle.std.specs.Prelude.{true, false};
    ghost use Rattle.bench_door.specs.Benches.{by_link};

    ghost answers = { λ l. by_link B.answers L.answers l };

    ghost sent = { λ l. by_link B.sent L.sent l };

    ghost faults = { λ l. by_link B.faults L.faults l };

    ghost stage = { λ l. by_link B.stage L.stage l };

    ghost limit = { λ l. by_link B.limit L.limit l };

    ghost clear = { λ l. by_link B.clear L.clear l };

    ghost finished = { λ l. by_link B.finished L.finished l };

    ghost is_bot = { λ l. by_link (λ _. true) (λ _. false) l };

    ghost bot_seat = { λ l. by_link B.bot_seat L.bot_seat l };

    ghost asked_out = { λ l. by_link B.asked_out L.asked_out l };

    fn limit(&self) -> u32 {
        match self {
            BenchLink::Bot(link) => link.limit(),
            BenchLink::Other(link) => link.limit(),
        }
    }

    fn receive<R: Wait>(&mut self, rt: &R) -> Came {
        match self {
            BenchLink::Bot(link) => link.receive(rt),
            BenchLink::Other(link) => link.receive(rt),
        }
    }

    fn send<R: Wait>(&mut self, rt: &R, bytes: &[u8]) -> Out {
        match self {
            BenchLink::Bot(link) => link.send(rt, bytes),
            BenchLink::Other(link) => link.send(rt, bytes),
        }
    }

    fn flush(&mut self) -> bool {
        match self {
            BenchLink::Bot(link) => link.flush(),
            BenchLink::Other(link) => link.flush(),
        }
    }

    fn finish(&mut self, end: SessionEnd) {
        match self {
            BenchLink::Bot(link) => link.finish(end),
            BenchLink::Other(link) => link.finish(end),
        }
    }

    fn bot_seat(&self) -> Option<(MatchName, Seat)> {
        match self {
            BenchLink::Bot(link) => link.bot_seat(),
            BenchLink::Other(link) => link.bot_seat(),
        }
    }

    fn ask_out(&mut self) {
        match self {
            BenchLink::Bot(link) => link.ask_out(),
            BenchLink::Other(link) => link.ask_out(),
        }
    }
}
