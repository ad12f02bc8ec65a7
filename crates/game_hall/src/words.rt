//! Seeds and keys, made of a session's random words.

ghost use Rattle.std.specs.Prelude.{◌≡◌, ◌≤◌, ◌<◌, ◌+◌, ◌*◌, ◌++◌, take, drop, length};
ghost use Rattle.std.specs.Int.{w32, to_le_bytes};
ghost use Rattle.game_hall.specs.Words.{bytes_of_words, drawn, key_of, seed_of, seed_words};

use dice_words::Tape;
use game_sheet::Key;

/// The seed of a match: the one that stands ready, which is then gone, or else eight words.
pub fn match_seed(tape: &mut Tape, ready: &mut Option<[u8; 32]>) -> [u8; 32]
    requires { 8 ≤ length tape.old.left }
    ensures value { result ≡ seed_of ready.old tape.old.left }
    ensures taken { ready.new ≡ None }
    ensures drawn { tape.new ≡ drawn (seed_words ready.old) tape.old }
{
    match ready.take() {
        Some(seed) => seed,
        None => {
            let mut seed = [0; 32];
            fill(tape, &mut seed, 8);
            seed
        }
    }
}

/// A player's key: four words.
pub fn player_key(tape: &mut Tape) -> Key
    requires { 4 ≤ length tape.old.left }
    ensures value { result ≡ key_of tape.old.left }
    ensures drawn { tape.new ≡ drawn 4 tape.old }
{
    let mut bytes = [0; 16];
    fill(tape, &mut bytes, 4);
    Key::new(bytes)
}

/// Fills bytes with so many words, each least byte first.
fn fill(tape: &mut Tape, bytes: &mut [u8], words: usize)
    requires room { length bytes.old ≡ 4 * words }
    requires enough { words ≤ length tape.old.left }
    ensures value { bytes.new ≡ bytes_of_words (take words tape.old.left) }
    ensures drawn { tape.new ≡ drawn words tape.old }
{
    for place in 0..words {
        let Ok(word) = tape.word() else {
            unreachable!();
        };
        write_word(bytes, place, word);
    }
}

/// Writes a word at its place, of four bytes, least byte first.
fn write_word(bytes: &mut [u8], place: usize, word: u32)
    requires { 4 * place + 4 ≤ length bytes.old }
    ensures { bytes.new ≡ take (4 * place) bytes.old ++ to_le_bytes w32 word ++ drop (4 * place + 4) bytes.old }
{
    bytes[4 * place..4 * place + 4].copy_from_slice(&word.to_le_bytes());
}
