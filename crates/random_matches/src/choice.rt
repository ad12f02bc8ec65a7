//! Random numbers for what is chosen.

ghost use Rattle.std.specs.Prelude.{◌≡◌, ◌<◌, ◌≤◌, IsSome};

use dice_words::Tape;

/// A source of random numbers of its own, beside the words of a match.
pub(crate) struct Chooser {
    tape: Tape,
}

impl Drop for Chooser {
    fn drop(self) {
        let Chooser { tape } = self;
        drop(tape);
    }
}

impl Chooser {
    /// The numbers of the second stream of a seed.
    pub(crate) fn new(seed: [u8; 32]) -> Chooser {
        Chooser {
            tape: Tape::live(seed, 1, 0),
        }
    }

    /// The numbers of the third stream of a seed, by which counts of seats are chosen.
    pub(crate) fn of_seats(seed: [u8; 32]) -> Chooser {
        Chooser {
            tape: Tape::live(seed, 2, 0),
        }
    }

    /// A number below another one, by one word.
    pub(crate) fn below(&mut self, bound: u32) -> u32
        requires { 1 ≤ bound }
        ensures { result < bound }
    {
        self.tape.begin();
        match self.tape.die(bound) {
            Ok(face) => face - 1,
            Err(_) => 0,
        }
    }
}
