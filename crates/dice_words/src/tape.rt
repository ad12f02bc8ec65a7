//! A tape of random words for one action after another.

ghost use Rattle.std.specs.Prelude.{◌≡◌, ◌+◌, ◌-◌, ◌<◌, ◌≤◌, ◌^◌, Some, None, [], ◌∷◌, length, IfOk, OnOk, OnErr, IfSome, IsPermutation, option_map, slice_get};
ghost use Rattle.dice_words.specs.Dice.{Rolled, die, shuffled};
ghost use Rattle.dice_words.specs.Strip.{live, blank, begun, place_of, Follows};

use crate::spent::Spent;
use crate::stream::Stream;
use std::marker::Model;

const MOST_WORDS: u32 = 256;

/// The words of one stream of a seed, from a place on, or no words at all. An action draws at most 256 of them.
///
/// Contracts see where the words come from, the place at which the action began, how many it has drawn and those that it has left.
pub struct Tape {
    // None in a blank tape, whose start and count stay 0.
    stream: Option<Stream>,
    start: u64,
    used: u32,
}

impl Drop for Tape {
    fn drop(self) {
        let Tape {
            stream,
            start: _,
            used: _,
        } = self;
        drop(stream);
    }
}

impl Model for Tape {
    ghost use Rattle.dice_words.specs.Strip.{Strip};

    ghost Value = { Strip };

    ghost use Rattle.dice_words.specs.Reading.{strip_of, IsKept};

    ghost view = { λ t. strip_of t.stream t.start t.used };

    ghost invariant = { λ t. IsKept t.stream t.start t.used };
}

impl Tape {
    /// A tape of a stream of a seed that begins an action at a place. Places count 32-bit words from 0.
    #[tactic(auto, using(crate::proofs::WordsLemmas::length_words))]
    pub fn live(seed: [u8; 32], stream: u64, place: u64) -> Tape
        ensures value { result ≡ live seed stream place }
        ensures whole { length result.left ≡ 256 }
    {
        Tape {
            stream: Some(Stream::at(seed, stream, place)),
            start: place,
            used: 0,
        }
    }

    /// A tape without words, which stays at place 0.
    pub fn blank() -> Tape
        ensures { result ≡ blank }
    {
        Tape {
            stream: None,
            start: 0,
            used: 0,
        }
    }

    /// Begins a new action at the place of the next word, with 256 words to draw again. A blank tape stays as it is.
    #[tactic(auto, using(crate::proofs::WordsLemmas::length_words))]
    pub fn begin(&mut self)
        ensures value { self.new ≡ begun self.old.source (place_of self.old) }
        ensures same_source { self.new.source ≡ self.old.source }
        ensures whole { IfSome self.old.source (λ _. length self.new.left ≡ 256) }
    {
        let place = self.place();
        self.start = place;
        self.used = 0;
    }

    /// The next word. It is `Spent` exactly where the action has no word left, and the tape then stays as it was.
    pub fn word(&mut self) -> Result<u32, Spent>
        ensures drawn { IfOk result (λ word. self.old.left ≡ word ∷ self.new.left) }
        ensures counted { OnOk result (self.new.used ≡ self.old.used + 1) }
        ensures spent { OnErr result (self.old.left ≡ []) }
        ensures kept { OnErr result (self.new ≡ self.old) }
        ensures follows { Follows self.old self.new }
    {
        let Some(stream) = &mut self.stream else {
            return Err(Spent);
        };
        if self.used == MOST_WORDS {
            return Err(Spent);
        }
        self.used += 1;
        Ok(stream.next())
    }

    /// The next word, which stays the next one. It is `Spent` exactly where the action has no word left.
    pub fn peek(&mut self) -> Result<u32, Spent>
        ensures next { IfOk result (λ word. slice_get self.old.left 0 ≡ Some word) }
        ensures spent { OnErr result (self.old.left ≡ []) }
        ensures kept { self.new ≡ self.old }
    {
        let Some(stream) = &mut self.stream else {
            return Err(Spent);
        };
        if self.used == MOST_WORDS {
            return Err(Spent);
        }
        let place = stream.place();
        let word = stream.next();
        stream.go_to(place);
        Ok(word)
    }

    /// The face that a die with `n` faces would show, whose word stays the next one. It is `Spent` exactly where the action has no word left.
    pub fn peek_die(&mut self, n: u32) -> Result<u32, Spent>
        requires { 1 ≤ n }
        ensures shown { IfOk result (λ face. option_map (die n) (slice_get self.old.left 0) ≡ Some face) }
        ensures spent { OnErr result (self.old.left ≡ []) }
        ensures kept { self.new ≡ self.old }
    {
        let word = self.peek()?;
        Ok(face(n, word))
    }

    /// A die with `n` faces, from 1 to `n`, rolled by the next word: 1 and the whole part of the word times `n` over 2^32.
    ///
    /// It is `Spent` exactly where the action has no word left, and the tape then stays as it was.
    pub fn die(&mut self, n: u32) -> Result<u32, Spent>
        requires { 1 ≤ n }
        ensures rolled { IfOk result (λ face. Rolled n face self.old.left self.new.left) }
        ensures at_least { IfOk result (λ face. 1 ≤ face) }
        ensures at_most { IfOk result (λ face. face ≤ n) }
        ensures counted { OnOk result (self.new.used ≡ self.old.used + 1) }
        ensures spent { OnErr result (self.old.left ≡ []) }
        ensures kept { OnErr result (self.new ≡ self.old) }
        ensures follows { Follows self.old self.new }
    {
        let word = self.word()?;
        Ok(face(n, word))
    }

    /// Shuffles a list: each place i from the last down to 1 is exchanged with the place one below a die of i + 1 faces.
    ///
    /// It is `Spent` exactly where the action has fewer words left than the list has places besides the first. Every word is then drawn, and the list is left in some order.
    pub fn shuffle(&mut self, list: &mut [u8]) -> Result<(), Spent>
        requires { length list.old < 2 ^ 32 }
        ensures shuffled { OnOk result (shuffled list.old self.old.left ≡ Some (list.new, self.new.left)) }
        ensures counted { OnOk result (self.new.used ≡ self.old.used + (length list.old - 1)) }
        ensures spent { OnErr result (shuffled list.old self.old.left ≡ None) }
        ensures short { OnErr result (length self.old.left + 1 < length list.old) }
        ensures emptied { OnErr result (self.new.left ≡ []) }
        ensures permuted { IsPermutation list.old list.new }
        ensures follows { Follows self.old self.new }
    {
        for place in (1..list.len()).rev() {
            let face = self.die(place as u32 + 1)?;
            list.swap(place, face as usize - 1);
        }
        Ok(())
    }

    /// How many words the action has drawn, at most 256; 0 on a blank tape.
    pub fn used(&self) -> u32
        ensures value { result ≡ self.now.used }
        ensures at_most { result ≤ 256 }
        ensures blank { self.now.source ≡ None → result ≡ 0 }
    {
        self.used
    }

    /// The place of the next word; 0 on a blank tape.
    pub fn place(&self) -> u64
        ensures value { result ≡ place_of self.now }
        ensures blank { self.now.source ≡ None → result ≡ 0 }
    {
        match &self.stream {
            Some(stream) => stream.place(),
            None => 0,
        }
    }

    /// Begins an action at a place. A blank tape stays at place 0.
    #[tactic(auto, using(crate::proofs::WordsLemmas::length_words))]
    pub fn rewind(&mut self, place: u64)
        ensures value { self.new ≡ begun self.old.source place }
        ensures same_source { self.new.source ≡ self.old.source }
        ensures whole { IfSome self.old.source (λ _. length self.new.left ≡ 256) }
    {
        if let Some(stream) = &mut self.stream {
            stream.go_to(place);
            self.start = place;
            self.used = 0;
        }
    }
}

/// The face of a die with `n` faces that a word shows.
fn face(n: u32, word: u32) -> u32
    requires { 1 ≤ n }
    ensures value { result ≡ die n word }
    ensures at_least { 1 ≤ result }
    ensures at_most { result ≤ n }
{
    1 + (u64::from(word) * u64::from(n) / (1 << 32)) as u32
}
