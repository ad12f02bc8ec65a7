//! Every place in turn, for links that are in memory or block.

ghost use Rattle.std.specs.Prelude.{None};

use crate::ready::Ready;
use crate::service::Stir;
use board_links::Link;
use std::sync::Wait;

/// Names all places in turn, each at every wait, whether its link has something or not. It never waits, so it is for links that are in memory,
/// or whose receive waits itself: with others the worker never rests.
#[derive(Drop)]
pub struct InTurn {
    places: u32,
}

impl InTurn {
    /// For a bench of so many places.
    pub fn new(places: u32) -> InTurn {
        InTurn { places }
    }
}

impl<L: Link> Ready<L> for InTurn {
    ghost use Rattle.std.specs.Prelude.{None};

    ghost named = { λ _. None };

    fn watch(&mut self, _number: u32, _link: &mut L) {}

    fn note(&mut self, _number: u32, _stir: Stir) {}

    fn wait<R: Wait>(&mut self, _rt: &R, numbers: &mut Vec<u32>) {
        numbers.clear();
        for number in 0..self.places {
            // A place for which there is no room has its turn at the next wait that has memory.
            let _named = numbers.push(number);
        }
    }
}
