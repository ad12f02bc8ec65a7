//! The line by which a page begins at a match.

ghost use Rattle.std.specs.Prelude.{◌≡◌, ◌==◌, ◌<◌, length, position, option_and_then, option_map, IfOk, IfSome, Ok};
ghost use Rattle.any_game.specs.AnyRules.{named};
ghost use Rattle.page_player.specs.PageLines.{Begins, begins_at, text_of, who_asks};
ghost use Rattle.wire_json.specs.ClientReading.{client_read};

use any_game::{AnyGame, by_name};
use game_sheet::{MatchName, NoMemory, Viewer};
use std::alloc::Global;
use std::str;
use wire_json::{ClientMsg, WireNo, read_client};

/// Which match a line begins at: its game, its name and for whom; none where the line is in no form.
pub(crate) fn begun(
    alloc: Global,
    line: &[u8],
) -> Result<Option<(AnyGame, (MatchName, Viewer))>, NoMemory>
    ensures { IfOk result (λ b. option_map (λ b. Begins b.0 (record { name = b.1.0; viewer = b.1.1 })) b ≡ begins_at line.now (position (λ b. b == 32) line.now)) }
{
    let Some(place) = blank(line) else {
        return Ok(None);
    };
    let Some(game) = game_of(alloc, &line[..place])? else {
        return Ok(None);
    };
    match who_asks(alloc, &line[place + 1..]) {
        Ok(Some(who)) => Ok(Some((game, who))),
        Ok(None) => {
            drop(game);
            Ok(None)
        }
        Err(no) => {
            drop(game);
            Err(no)
        }
    }
}

/// Where the first blank stands.
fn blank(text: &[u8]) -> Option<usize>
    ensures value { result ≡ position (λ b. b == 32) text.now }
    ensures within { IfSome result (λ place. place < length text.now) }
{
    text.iter().position(|byte| *byte == b' ')
}

/// The game of a name.
fn game_of(alloc: Global, name: &[u8]) -> Result<Option<AnyGame>, NoMemory>
    ensures { IfOk result (λ game. game ≡ option_and_then named (text_of name.now)) }
{
    match text_of(name) {
        Some(name) => by_name(alloc, name),
        None => Ok(None),
    }
}

/// These bytes as a text.
fn text_of(word: &[u8]) -> Option<&str>
    ensures { option_map (λ text. text.now) result ≡ text_of word.now }
{
    match str::from_utf8(word) {
        Ok(text) => Some(text),
        Err(_) => None,
    }
}

/// Who asks for the stream of which match, if this line of a client does.
fn who_asks(alloc: Global, line: &[u8]) -> Result<Option<(MatchName, Viewer)>, NoMemory>
    ensures { IfOk result (λ who. option_map (λ w. record { name = w.0; viewer = w.1 }) who ≡ who_asks (client_read line.now)) }
{
    match read_client(alloc, line) {
        Ok(message) => Ok(who_of(message)),
        Err(WireNo::NoMemory) => Err(NoMemory),
        Err(_) => Ok(None),
    }
}

/// Who asks for the stream of which match, if a message does.
fn who_of(message: ClientMsg) -> Option<(MatchName, Viewer)>
    ensures { option_map (λ w. record { name = w.0; viewer = w.1 }) result ≡ who_asks (Ok message) }
{
    match message {
        ClientMsg::Sync {
            name,
            viewer,
            protocol: _,
        } => Some((name, viewer)),
        other => {
            drop(other);
            None
        }
    }
}
