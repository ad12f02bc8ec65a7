//! The steps that the lines of a script ask for. They are read without memory.

ghost use Rattle.std.specs.Prelude.{◌≡◌, ◌≤◌, ◌<◌, ◌==◌, length, take, drop, position, option_map, IfSome, ◌+◌, ◌*◌, ◌&&◌, nat_le};
ghost use Rattle.script_steps.specs.Forms.{digit, leading, after, small_number, pass_of, seats_of, opening, saying, alone, leads, text_of, step_of};
ghost use Rattle.script_steps.specs.StepIs.{step_is, HasPass};

use any_game::may_open;
use std::str;
use wire_json::lower_hex_of;

/// What a line of a script asks for.
#[derive(Clone, Copy)]
pub enum Step<'a> {
    /// Nothing: the line is empty or a comment.
    Nothing,
    /// The seed of the next match that is made.
    Seeds {
        /// Its bytes.
        seed: [u8; 32],
    },
    /// A match with a player at each of its seats.
    Opens {
        /// The name of a game.
        game: &'a str,
        /// A number of seats that the game is for.
        seats: u8,
    },
    /// A line of a session.
    Says {
        /// The session, 0 to 31.
        pass: u8,
        /// Its line, which may be empty.
        line: &'a [u8],
    },
    /// What waits for a session.
    Takes {
        /// The session, 0 to 31.
        pass: u8,
    },
    /// The end of a session's attachment.
    Detaches {
        /// The session, 0 to 31.
        pass: u8,
    },
}

/// The step that a line asks for; none where the line is in no form.
#[tactic(auto, unfolding(crate::specs::Forms::step_of))]
pub fn step_of(line: &[u8]) -> Option<Step<'_>>
    ensures value { option_map step_is result ≡ step_of line.now }
    ensures passes { IfSome result HasPass }
{
    let Some(first) = line.first() else {
        return Some(Step::Nothing);
    };
    if *first == b'#' {
        return Some(Step::Nothing);
    }
    match blank(line) {
        None => alone(line),
        Some(at) => leads(&line[..at], &line[at + 1..]),
    }
}

/// The step of a word that others follow.
fn leads<'a>(word: &'a [u8], rest: &'a [u8]) -> Option<Step<'a>>
    ensures value { option_map step_is result ≡ leads word.now rest.now }
    ensures passes { IfSome result HasPass }
{
    if word == b"open".as_slice() {
        opening(rest)
    } else if word == b"seed".as_slice() {
        let seed = lower_hex_of::<32, 64>(rest)?;
        Some(Step::Seeds { seed })
    } else {
        saying(word, rest)
    }
}

fn opening(rest: &[u8]) -> Option<Step<'_>>
    ensures value { option_map step_is result ≡ opening rest.now }
    ensures passes { IfSome result HasPass }
{
    let at = blank(rest)?;
    let game = text_of(&rest[..at])?;
    let seats = seats_of(&rest[at + 1..])?;
    if may_open(game, seats) {
        Some(Step::Opens { game, seats })
    } else {
        None
    }
}

/// A word that is a text.
fn text_of(word: &[u8]) -> Option<&str>
    ensures { option_map (λ text. text.now) result ≡ text_of word.now }
{
    match str::from_utf8(word) {
        Ok(text) => Some(text),
        Err(_) => None,
    }
}

fn saying<'a>(word: &'a [u8], line: &'a [u8]) -> Option<Step<'a>>
    ensures value { option_map step_is result ≡ saying word.now line.now }
    ensures passes { IfSome result HasPass }
{
    let (first, number) = word.split_first()?;
    if *first != b's' {
        return None;
    }
    let pass = pass_of(number)?;
    Some(Step::Says { pass, line })
}

/// The step of a word alone.
fn alone(word: &[u8]) -> Option<Step<'_>>
    ensures value { option_map step_is result ≡ alone word.now }
    ensures passes { IfSome result HasPass }
{
    let Some((first, number)) = word.split_first() else {
        return Some(Step::Nothing);
    };
    match *first {
        b't' => {
            let pass = pass_of(number)?;
            Some(Step::Takes { pass })
        }
        b'x' => {
            let pass = pass_of(number)?;
            Some(Step::Detaches { pass })
        }
        _ => None,
    }
}

/// Where the first blank stands.
fn blank(bytes: &[u8]) -> Option<usize>
    ensures value { result ≡ position (λ b. b == 32) bytes.now }
    ensures within { IfSome result (λ i. i < length bytes.now) }
{
    bytes.iter().position(|b| *b == b' ')
}

fn pass_of(word: &[u8]) -> Option<u8>
    ensures value { result ≡ pass_of word.now }
    ensures within { IfSome result (λ pass. pass < 32) }
{
    let n = small_number(word)?;
    if n <= 31 { Some(n as u8) } else { None }
}

fn seats_of(word: &[u8]) -> Option<u8>
    ensures { result ≡ seats_of word.now }
{
    let n = small_number(word)?;
    if n <= 255 { Some(n as u8) } else { None }
}

fn small_number(word: &[u8]) -> Option<u16>
    ensures { result ≡ small_number word.now }
{
    match word {
        [a] => digit(*a),
        [a, b] => after(*b, leading(*a)?),
        [a, b, c] => {
            let front = after(*b, leading(*a)?)?;
            after(*c, front)
        }
        _ => None,
    }
}

fn digit(byte: u8) -> Option<u16>
    ensures value { result ≡ digit byte }
    ensures small { IfSome result (λ d. d ≤ 9) }
{
    match byte {
        b'0'..=b'9' => Some(u16::from(byte - b'0')),
        _ => None,
    }
}

fn leading(byte: u8) -> Option<u16>
    ensures value { result ≡ leading byte }
    ensures small { IfSome result (λ d. d ≤ 9) }
{
    if byte == b'0' { None } else { digit(byte) }
}

fn after(byte: u8, front: u16) -> Option<u16>
    requires { front ≤ 99 }
    ensures value { result ≡ after byte front }
    ensures small { IfSome result (λ n. n ≤ 10 * front + 9) }
{
    let last = digit(byte)?;
    Some(10 * front + last)
}
