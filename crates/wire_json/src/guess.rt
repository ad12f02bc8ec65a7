//! Reads a line that is written as `write_client` writes it, without a tree: a message is guessed, and its text compared.
//!
//! `read_client` tries this first. The guess may be wrong, or none; the comparison decides.

ghost use Rattle.std.specs.Prelude.{◌≡◌, true, IfSome};
ghost use Rattle.wire_json.specs.Asking.{IsWord};
ghost use Rattle.wire_json.specs.ClientText.{IsForm, IsSendable};

use crate::asked::Asked;
use crate::client::ClientMsg;
use crate::client_read::CLIENT_LINE;
use crate::client_write::put_message;
use crate::key_text::key_of;
use crate::match_text::match_of;
use crate::submission::Submission;
use game_sheet::{Arg, Args, Key, MatchName, Text};
use std::alloc::Global;
use std::str;

const MOST_NUMBER: u64 = 4_294_967_295;

/// The message that is written as the line, if the guess finds it. None where there is no memory for the text.
pub fn guessed(alloc: Global, line: &[u8]) -> Option<ClientMsg>
    ensures { IfSome result (λ m. IsForm line.now m) }
{
    let message = act(alloc, line)?;
    if is_written(alloc, &message, line) {
        Some(message)
    } else {
        drop(message);
        None
    }
}

fn is_written(alloc: Global, message: &ClientMsg, line: &[u8]) -> bool
    requires { IsSendable message.now }
    ensures { result ≡ true → IsForm line.now message.now }
{
    if line.len() as u64 > CLIENT_LINE {
        return false;
    }
    let Ok(mut text) = Vec::with_capacity(alloc, line.len() + 32) else {
        return false;
    };
    match put_message(alloc, &mut text, message) {
        Ok(()) => text.as_slice() == line,
        Err(_) => false,
    }
}

// The move that the line seems to ask for.
fn act(alloc: Global, line: &[u8]) -> Option<ClientMsg>
    ensures { IfSome result IsSendable }
{
    let rest = line.strip_prefix(b"{\"act\":{\"args\":[")?;
    let Some((args, rest)) = args_at(rest) else {
        return None;
    };
    let rest = rest.strip_prefix(b",\"kind\":\"move\",\"move\":\"")?;
    let (word, rest) = text_at(rest)?;
    let rest = rest.strip_prefix(b"},\"key\":\"")?;
    let Some((key, rest)) = key_at(rest) else {
        return None;
    };
    let rest = rest.strip_prefix(b",\"match\":\"")?;
    let Some((name, rest)) = match_at(rest) else {
        return None;
    };
    let rest = rest.strip_prefix(b",\"number\":")?;
    let (number, rest) = number_at(rest)?;
    let rest = rest.strip_prefix(b",\"ticket\":")?;
    let (ticket, _) = number_at(rest)?;
    let word = name_of(alloc, word)?;
    Some(ClientMsg::Act(Submission {
        name,
        key,
        number,
        ticket,
        asked: Asked::Move { name: word, args },
    }))
}

// A name of 1 to 32 bytes.
fn name_of(alloc: Global, word: &str) -> Option<Text>
    ensures { IfSome result IsWord }
{
    if word.len() == 0 || word.len() > 32 {
        return None;
    }
    match Text::from_str(alloc, word) {
        Ok(name) => Some(name),
        Err(_) => None,
    }
}

// The text before a quotation mark, and what follows the mark.
fn text_at(line: &[u8]) -> Option<(&str, &[u8])> {
    let end = line.iter().position(|byte| *byte == b'"')?;
    match str::from_utf8(&line[..end]) {
        Ok(text) => Some((text, &line[end + 1..])),
        Err(_) => None,
    }
}

fn key_at(line: &[u8]) -> Option<(Key, &[u8])> {
    let (text, rest) = text_at(line)?;
    let key = key_of(text)?;
    Some((key, rest))
}

fn match_at(line: &[u8]) -> Option<(MatchName, &[u8])> {
    let (text, rest) = text_at(line)?;
    let name = match_of(text)?;
    Some((name, rest))
}

// The number of 32 bits that the line begins with, and what follows it.
fn number_at(line: &[u8]) -> Option<(u32, &[u8])> {
    let mut number: u64 = 0;
    let mut at = 0;
    while at < line.len() && line[at].is_ascii_digit() && number <= MOST_NUMBER {
        number = number * 10 + u64::from(line[at] - b'0');
        at += 1;
    }
    if number <= MOST_NUMBER {
        Some((number as u32, &line[at..]))
    } else {
        None
    }
}

// At most eight whole numbers, and what follows the bracket behind them.
fn args_at(line: &[u8]) -> Option<(Args, &[u8])> {
    let mut args = Args::new();
    let mut rest = line;
    while args.len() < Args::MOST {
        if let Some(end) = rest.strip_prefix(b"]") {
            return Some((args, end));
        }
        let (number, more) = number_at(rest)?;
        if number > 2_147_483_647 {
            return None;
        }
        args.push(Arg::Whole(number as i32));
        rest = match more.strip_prefix(b",") {
            Some(next) => next,
            None => more,
        };
    }
    let end = rest.strip_prefix(b"]")?;
    Some((args, end))
}
