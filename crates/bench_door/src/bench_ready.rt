//! What tells a worker whose turn it is where some of its links are bots'.

ghost use Rattle.std.specs.Prelude.{◌≡◌, ◌++◌, option_map};

use crate::bench_link::BenchLink;
use crate::pace::{BotPlace, Pace};
use board_links::Link;
use game_sheet::NoMemory;
use link_rounds::{Ready, Stir};
use std::alloc::Global;
use std::sync::{Arc, Wait};

/// Tells whose turn it is where some links are bots', over what tells it of the others. Nobody writes to a bot's link from outside, so a bot has
/// something to do only when it came, after a turn of its own in which it said something, and when its room changed. Each of these gives it two
/// turns, one at this wait and one at the next: in the first it hears what changed, and in the second it answers. A bot that has nothing to say
/// costs no turn after that.
///
/// With a pace a bot that is named is passed over so many times before. Each time it counts as a link that keeps bytes back, which is named again
/// from time to time: about once a second where that is told by a poll. So nothing here reads a clock.
#[derive(Drop)]
pub struct BenchReady<W> {
    ready: W,
    pace: Arc<Pace, Global>,
    /// The bots that have places here.
    bots: Vec<BotPlace>,
    /// The bots that have a second turn at the next wait.
    again: Vec<u32>,
}

impl<W: Drop> BenchReady<W> {
    /// Over this one, for a worker that may get so many bots, which play at this pace. An Err is for want of memory.
    pub fn new(
        alloc: Global,
        ready: W,
        bots: u8,
        pace: Arc<Pace, Global>,
    ) -> Result<BenchReady<W>, NoMemory> {
        let places = Vec::with_capacity(alloc, usize::from(bots))?;
        let again = Vec::with_capacity(alloc, usize::from(bots))?;
        Ok(BenchReady {
            ready,
            pace,
            bots: places,
            again,
        })
    }
}

/// Whether a bot has the place of this number.
fn is_bot(bots: &[BotPlace], number: u32) -> bool {
    for bot in bots {
        if bot.number == number {
            return true;
        }
    }
    false
}

/// Keeps of these numbers those that are bots', each for one more turn.
fn keep_bots(numbers: &[u32], bots: &[BotPlace], again: &mut Vec<u32>) {
    if bots.is_empty() {
        return;
    }
    for number in numbers {
        if is_bot(bots, *number) {
            // A bot for which there is no room has its second turn when its room changes.
            let _kept = again.push(*number);
        }
    }
}

/// Moves numbers to a list that has room for them.
fn take_all(again: &mut Vec<u32>, numbers: &mut Vec<u32>) {
    for number in again.as_slice() {
        // A number for which there is no room has its turn when its room changes.
        let _named = numbers.push(*number);
    }
    again.clear();
}

/// Takes the bots out of the numbers that are to wait, for the first or the second of two turns. They are named again.
fn pass_over<L: Link, W: Ready<L>>(
    ready: &mut W,
    pace: &Pace,
    bots: &mut [BotPlace],
    numbers: &mut Vec<u32>,
    second: bool,
) {
    if !pace.is_any() {
        return;
    }
    for at in 0..bots.len() {
        let number = bots[at].number;
        if numbers.as_slice().contains(&number) && !may_go(&mut bots[at], pace, second) {
            numbers.retain(|other| *other != number);
            ready.keeps_back(number);
        }
    }
}

/// Whether a bot gets the first of two turns, or the second.
fn may_go(bot: &mut BotPlace, pace: &Pace, second: bool) -> bool {
    if second {
        bot.goes_on(pace)
    } else {
        bot.begins(pace)
    }
}

impl<L: Link, B: Link, W: Ready<L>> Ready<BenchLink<L, B>> for BenchReady<W> {
    ghost use Rattle.std.specs.Prelude.{None};

    ghost named = { λ _. None };

    fn watch(&mut self, number: u32, link: &mut BenchLink<L, B>) {
        match link {
            BenchLink::Bot(_) => {
                // A bot for which there is no room has one turn where others have two.
                let _seated = self.bots.push(BotPlace::new(number));
                self.ready.takes_place(number);
            }
            BenchLink::Other(link) => {
                self.pace.meet();
                self.ready.watch(number, link);
            }
        }
    }

    fn note(&mut self, number: u32, stir: Stir) {
        // Before others are woken, so that they find it.
        self.pace.note(stir.changed);
        self.ready.note(number, stir);
    }

    fn takes_place(&mut self, number: u32) {
        self.ready.takes_place(number);
    }

    fn keeps_back(&mut self, number: u32) {
        self.ready.keeps_back(number);
    }

    fn went_back(&mut self, number: u32) {
        self.bots.retain(|bot| bot.number != number);
        self.again.retain(|other| *other != number);
        self.ready.went_back(number);
    }

    fn may_come(&mut self) -> bool {
        self.ready.may_come()
    }

    fn none_came(&mut self) {
        self.ready.none_came();
    }

    fn none_will_come(&mut self) {
        self.pace.meet();
        self.ready.none_will_come();
    }

    fn wait<R: Wait>(&mut self, rt: &R, numbers: &mut Vec<u32>) {
        let BenchReady {
            ready,
            pace,
            bots,
            again,
        } = self;
        if !again.is_empty() {
            pass_over::<L, W>(ready, pace, bots.as_mut_slice(), again, true);
            numbers.clear();
            take_all(again, numbers);
            return;
        }
        ready.wait(rt, numbers);
        pass_over::<L, W>(ready, pace, bots.as_mut_slice(), numbers, false);
        keep_bots(numbers.as_slice(), bots.as_slice(), again);
    }
}
