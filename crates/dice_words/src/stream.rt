//! One stream of a seed, read word by word.

ghost use Rattle.std.specs.Prelude.{◌≡◌, ◌+◌, ◌%◌, ◌^◌};
ghost use Rattle.dice_words.specs.Words.{word};

use rand_chacha::ChaCha20Rng;
use rand_core::SeedableRng;
use rand_core::utils::NextWord;
use std::marker::Model;

/// A place in one stream of a seed, with the generator that stands there.
#[derive(Drop)]
pub struct Stream {
    seed: [u8; 32],
    number: u64,
    place: u64,
    generator: ChaCha20Rng,
}

impl Model for Stream {
    ghost use Rattle.std.specs.Prelude.{◌≡◌};
    ghost use Rattle.rand_chacha.specs.ChaCha.{key_of};
    ghost use Rattle.dice_words.specs.Standing.{Standing};

    ghost Value = { Standing };

    ghost view = { λ s. record { source = (s.seed, s.number); place = s.place } };

    ghost invariant = { λ s. s.generator ≡ record {
      key = key_of s.seed;
      stream = s.number;
      word_pos = s.place;
    } };
}

impl Stream {
    /// The stream with this number of a seed, at a place.
    pub fn at(seed: [u8; 32], number: u64, place: u64) -> Stream
        ensures { result ≡ record { source = (seed, number); place = place } }
    {
        let mut generator = ChaCha20Rng::from_seed(seed);
        generator.set_stream(number);
        generator.set_word_pos(u128::from(place));
        Stream {
            seed,
            number,
            place,
            generator,
        }
    }

    /// The place of the next word.
    pub fn place(&self) -> u64
        ensures { result ≡ self.now.place }
    {
        self.place
    }

    /// Goes to a place.
    pub fn go_to(&mut self, place: u64)
        ensures { self.new ≡ record self.old { place = place } }
    {
        self.generator.set_word_pos(u128::from(place));
        self.place = place;
    }

    /// The next word. After the last place of 64 bits comes place 0.
    #[tactic(auto, unfolding(crate::specs::Words::word))]
    pub fn next(&mut self) -> u32
        ensures word { result ≡ word self.old.source.0 self.old.source.1 self.old.place }
        ensures moved { self.new ≡ record self.old { place = (self.old.place + 1) % 2 ^ 64 } }
    {
        let word = self.generator.next_word();
        self.place = self.place.wrapping_add(1);
        if self.place == 0 {
            self.generator.set_word_pos(0);
        }
        word
    }
}
