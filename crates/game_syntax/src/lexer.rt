//! From a text to its tokens.

ghost use Rattle.std.specs.Prelude.{◌≡◌, ◌<◌, ◌≤◌, length, slice_index};

use crate::fault_name::FaultName;
use crate::token::{Sign, Span, Token, TokenKind, Word};
use std::alloc::{AllocError, Global};

/// The greatest number that a token holds: one more than the greatest number of code, for its negative.
const MOST_NUMBER: u32 = 2147483648;

/// How many bytes a text has at most.
const MOST_TEXT: usize = 64;

/// Runs of bytes that belong together.
#[derive(Clone, Copy)]
enum Run {
    Blanks,
    Letters,
    Digits,
    Line,
    Single,
    Double,
}

/// The tokens of a text, and then one where it ends. What is no token ends the list, as its last but one.
pub fn read_tokens(alloc: Global, text: &[u8]) -> Result<Vec<Token>, AllocError> {
    let mut tokens = Vec::new(alloc);
    let mut at = 0;
    let mut end = 0;
    for _turn in 0..text.len() {
        at = past_blanks(text, at);
        if at >= text.len() {
            break;
        }
        let token = token_at(text, at);
        tokens.push(token)?;
        at = token.span.past;
        end = at;
        if let TokenKind::Bad(_) = token.kind {
            break;
        }
    }
    let span = Span {
        from: end,
        past: end,
    };
    tokens.push(Token {
        kind: TokenKind::End,
        span,
    })?;
    Ok(tokens)
}

/// The byte at a place, 0 past the end.
fn byte(text: &[u8], at: usize) -> u8
    ensures { result ≡ slice_index text.now at }
{
    if at < text.len() { text[at] } else { 0 }
}

fn is_in(run: Run, byte: u8) -> bool {
    match run {
        Run::Blanks => byte == b' ' || byte == b'\t' || byte == b'\n' || byte == b'\r',
        Run::Letters => byte.is_ascii_alphanumeric() || byte == b'_',
        Run::Digits => byte.is_ascii_digit(),
        Run::Line => byte != b'\n',
        Run::Single => byte != b'\'' && byte >= 32,
        Run::Double => byte != b'"' && byte >= 32,
    }
}

/// Where the run at a place ends.
fn past(run: Run, text: &[u8], at: usize) -> usize
    requires { at ≤ length text.now }
    ensures { (at ≤ result) × (result ≤ length text.now) }
{
    let mut end = at;
    while end < text.len() && is_in(run, text[end]) {
        end += 1;
    }
    end
}

/// Where the blanks and comments at a place end.
fn past_blanks(text: &[u8], at: usize) -> usize
    requires { at ≤ length text.now }
    ensures { (at ≤ result) × (result ≤ length text.now) }
{
    let mut end = at;
    for _turn in 0..text.len() {
        end = past(Run::Blanks, text, end);
        if !is_comment(text, end) {
            return end;
        }
        end = past(Run::Line, text, end);
    }
    end
}

fn is_comment(text: &[u8], at: usize) -> bool
    requires { at ≤ length text.now }
{
    byte(text, at) == b'/' && byte(text, at + 1) == b'/'
}

/// The token at a place.
fn token_at(text: &[u8], at: usize) -> Token
    requires { at < length text.now }
    ensures { (at < result.span.past) × (result.span.past ≤ length text.now) }
{
    let first = text[at];
    if is_in(Run::Digits, first) {
        return number_at(text, at);
    }
    if is_in(Run::Letters, first) {
        return word_at(text, at);
    }
    match first {
        b'\'' => text_at(Run::Single, text, at),
        b'"' => text_at(Run::Double, text, at),
        _ => sign_at(text, at),
    }
}

fn token(kind: TokenKind, from: usize, past: usize) -> Token
    ensures { result.span.past ≡ past }
{
    Token {
        kind,
        span: Span { from, past },
    }
}

fn number_at(text: &[u8], at: usize) -> Token
    requires { at < length text.now }
    ensures { (at < result.span.past) × (result.span.past ≤ length text.now) }
{
    let end = past(Run::Digits, text, at + 1);
    let value = number_of(&text[at..end]);
    if value > MOST_NUMBER {
        return token(TokenKind::Bad(FaultName::OutOfRange), at, end);
    }
    token(TokenKind::Number(value), at, end)
}

/// The number that digits write, the greatest of 32 bits if it is greater.
fn number_of(digits: &[u8]) -> u32 {
    let mut value: u32 = 0;
    for digit in digits {
        value = value
            .saturating_mul(10)
            .saturating_add(u32::from(digit.saturating_sub(b'0')));
    }
    value
}

fn word_at(text: &[u8], at: usize) -> Token
    requires { at < length text.now }
    ensures { (at < result.span.past) × (result.span.past ≤ length text.now) }
{
    let end = past(Run::Letters, text, at + 1);
    token(word_of(&text[at..end]), at, end)
}

fn word_of(name: &[u8]) -> TokenKind {
    match reserved(name) {
        Some(word) => TokenKind::Word(word),
        None => TokenKind::Name,
    }
}

/// The words that name nothing else.
static RESERVED: [(&str, Word); 20] = [
    ("let", Word::Let),
    ("var", Word::Var),
    ("for", Word::For),
    ("in", Word::In),
    ("if", Word::If),
    ("else", Word::Else),
    ("null", Word::Null),
    ("true", Word::True),
    ("false", Word::False),
    ("me", Word::Me),
    ("players", Word::Players),
    ("secret", Word::Secret),
    ("order", Word::Order),
    ("seat", Word::Seat),
    ("seats", Word::Seats),
    ("current", Word::Current),
    ("turn", Word::Turn),
    ("moves", Word::Moves),
    ("pos", Word::Pos),
    ("phase", Word::Phase),
];

fn reserved(name: &[u8]) -> Option<Word> {
    for (text, word) in &RESERVED {
        if text.as_bytes() == name {
            return Some(*word);
        }
    }
    None
}

/// The text in quotes at a place. One without an end, or with a byte below 32, is bad, and one of more than 64 bytes.
fn text_at(run: Run, text: &[u8], at: usize) -> Token
    requires { at < length text.now }
    ensures { (at < result.span.past) × (result.span.past ≤ length text.now) }
{
    let end = past(run, text, at + 1);
    if end >= text.len() || text[end] == b'\n' {
        return token(TokenKind::Bad(FaultName::Syntax), at, end);
    }
    if text[end] < 32 {
        return token(TokenKind::Bad(FaultName::BadCharacter), end, end + 1);
    }
    if end - (at + 1) > MOST_TEXT {
        return token(TokenKind::Bad(FaultName::LongText), at, end + 1);
    }
    token(TokenKind::Text, at, end + 1)
}

fn sign_at(text: &[u8], at: usize) -> Token
    requires { at < length text.now }
    ensures { (at < result.span.past) × (result.span.past ≤ length text.now) }
{
    let first = text[at];
    let second = byte(text, at + 1);
    if first == b'.' && second == b'.' {
        return dots_at(text, at);
    }
    if at + 1 < text.len()
        && let Some(sign) = pair_of(first, second)
    {
        return token(TokenKind::Sign(sign), at, at + 2);
    }
    match single_of(first) {
        Some(sign) => token(TokenKind::Sign(sign), at, at + 1),
        None => token(TokenKind::Bad(FaultName::BadCharacter), at, at + 1),
    }
}

/// `..` or `..<`.
fn dots_at(text: &[u8], at: usize) -> Token
    requires { at < length text.now }
    ensures { (at < result.span.past) × (result.span.past ≤ length text.now) }
{
    if at + 2 < text.len() && text[at + 2] == b'<' {
        return token(TokenKind::Sign(Sign::Below), at, at + 3);
    }
    if at + 1 < text.len() {
        return token(TokenKind::Sign(Sign::Through), at, at + 2);
    }
    token(TokenKind::Sign(Sign::Dot), at, at + 1)
}

/// The sign of two bytes.
fn pair_of(first: u8, second: u8) -> Option<Sign> {
    Some(match (first, second) {
        (b'=', b'=') => Sign::Equal,
        (b'=', b'>') => Sign::Arrow,
        (b'!', b'=') => Sign::Differs,
        (b'<', b'=') => Sign::AtMost,
        (b'>', b'=') => Sign::AtLeast,
        (b'&', b'&') => Sign::And,
        (b'|', b'|') => Sign::Or,
        (b'+', b'=') => Sign::PlusPut,
        (b'-', b'=') => Sign::MinusPut,
        _ => return None,
    })
}

/// The sign of one byte.
fn single_of(first: u8) -> Option<Sign> {
    Some(match first {
        b'(' => Sign::OpenRound,
        b')' => Sign::CloseRound,
        b'[' => Sign::OpenSquare,
        b']' => Sign::CloseSquare,
        b'{' => Sign::OpenCurly,
        b'}' => Sign::CloseCurly,
        b',' => Sign::Comma,
        b';' => Sign::Semicolon,
        b':' => Sign::Colon,
        b'?' => Sign::Question,
        b'.' => Sign::Dot,
        b'=' => Sign::Put,
        b'!' => Sign::Not,
        b'<' => Sign::Less,
        b'>' => Sign::Greater,
        b'+' => Sign::Plus,
        b'-' => Sign::Minus,
        b'*' => Sign::Times,
        b'/' => Sign::Over,
        b'%' => Sign::Rest,
        _ => return None,
    })
}
