//! Names in their forms.

ghost use Rattle.std.specs.Prelude.{◌≡◌, ◌&&◌, nat_le, length, true, OnOk};
ghost use Rattle.std.specs.List.{list_all};
ghost use Rattle.std.specs.Char.{is_ascii_alphanumeric};
ghost use Rattle.game_sheet.specs.SheetRules.{is_game_letter, is_name};

use crate::paths::fault_at;
use crate::unread::Unread;
use game_syntax::{FaultName, Token, TokenKind, called_of, read_tokens};
use std::alloc::Global;

/// Whether the name of a game is 1 to 32 lower-case letters, digits and dashes.
pub(crate) fn is_game_name(name: &str) -> bool
    ensures { result ≡ is_name is_game_letter name.now }
{
    let name = name.as_bytes();
    has_name_length(name) && are_game_letters(name)
}

/// Whether the name of a move, phase, stage or spec is 1 to 32 letters and digits.
fn is_row_name(name: &str) -> bool
    ensures { result ≡ is_name is_ascii_alphanumeric name.now }
{
    let name = name.as_bytes();
    has_name_length(name) && are_letters(name)
}

fn has_name_length(name: &[u8]) -> bool
    ensures { result ≡ (nat_le 1 (length name.now) && nat_le (length name.now) 32) }
{
    !name.is_empty() && name.len() <= 32
}

fn are_game_letters(name: &[u8]) -> bool
    ensures { result ≡ list_all is_game_letter name.now }
{
    name.iter().all(|byte| byte.is_ascii_lowercase() || byte.is_ascii_digit() || *byte == b'-')
}

fn are_letters(name: &[u8]) -> bool
    ensures { result ≡ list_all is_ascii_alphanumeric name.now }
{
    name.iter().all(|byte| byte.is_ascii_alphanumeric())
}

/// Refuses a row whose name isn't 1 to 32 letters and digits.
pub(crate) fn check_row_name(alloc: Global, name: &str, path: &str) -> Result<(), Unread>
    ensures { OnOk result (is_name is_ascii_alphanumeric name.now ≡ true) }
{
    if is_row_name(name) {
        Ok(())
    } else {
        Err(fault_at(
            alloc,
            FaultName::BadName,
            path,
            "a name has 1 to 32 letters and digits",
        ))
    }
}

/// Refuses a name that code can't have: one of another form, or one of the words of code.
pub(crate) fn check_code_name(alloc: Global, name: &str, path: &str) -> Result<(), Unread> {
    match kind_of(alloc, name)? {
        TokenKind::Name => Ok(()),
        TokenKind::Word(_) => Err(fault_at(alloc, FaultName::ReservedName, path, "")),
        _ => Err(fault_at(
            alloc,
            FaultName::BadName,
            path,
            "a name has letters, digits and `_`, and no digit first",
        )),
    }
}

/// Refuses a name that named code can't have: such a one, or a word that is called.
pub(crate) fn check_called_name(alloc: Global, name: &str, path: &str) -> Result<(), Unread> {
    check_code_name(alloc, name, path)?;
    match called_of(name.as_bytes()) {
        None => Ok(()),
        Some(_) => Err(fault_at(alloc, FaultName::ReservedName, path, "")),
    }
}

/// What a name is as a token, if it is one whole; the end of a text otherwise.
fn kind_of(alloc: Global, name: &str) -> Result<TokenKind, Unread> {
    let tokens = read_tokens(alloc, name.as_bytes())?;
    let kind = kind_of_whole(tokens.as_slice(), name.len());
    drop(tokens);
    Ok(kind)
}

fn kind_of_whole(tokens: &[Token], len: usize) -> TokenKind {
    match tokens.first() {
        Some(token) if token.span.from == 0 && token.span.past == len => token.kind,
        _ => TokenKind::End,
    }
}
