//! The door of a server that seats bots: their links first, and then those of another door.

use crate::bot_link::BotLink;
use bench_door::Bench;

/// A door that gives bots' links in order, and then those of another door, which has none. It had as many bots' links as `N` says.
pub type BenchDoor<D, R, N> = Bench<D, BotLink<R>, N>;
