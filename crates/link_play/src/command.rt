//! The commands that the lines of a source ask for.

ghost use Rattle.std.specs.Prelude.{◌≡◌, ◌==◌, ◌<◌, IfNone, IfOk, IfSome, Some, length, option_map, position};
ghost use Rattle.link_play.specs.Commands.{Acts, act_in_short, acts_in_short, asked_of, by_words, command_is, command_of, move_at, move_in_short, move_text};
ghost use Rattle.link_play.specs.Asking.{MayAsk};
ghost use Rattle.wire_json.specs.Asking.{IsAskable};

use game_sheet::NoMemory;
use json_tree::{LineFault, read_text};
use std::alloc::Global;
use wire_json::Asked;

/// What a line asks for.
#[derive(Drop)]
pub enum Command {
    /// Nothing: the line is empty or a comment.
    Nothing,
    /// An action.
    Acts(Asked),
    /// The lines that the link gives at once.
    Reads,
    /// The next line of the link.
    Waits,
    /// What the client holds.
    Shows,
    /// The end.
    Ends,
}

/// What a line asks for; none where it is in no form. The line comes without its newline.
#[tactic(auto, unfolding(crate::specs::Commands::command_of))]
pub fn command_of(alloc: Global, line: &[u8]) -> Result<Option<Command>, NoMemory>
    ensures command { IfOk result (λ c. option_map command_is c ≡ command_of line.now) }
    ensures askable { IfOk result (λ c. IfSome c MayAsk) }
{
    let Some(first) = line.first() else {
        return Ok(Some(Command::Nothing));
    };
    if *first == b'#' {
        return Ok(Some(Command::Nothing));
    }
    by_words(alloc, line)
}

/// What a line asks for that is neither empty nor a comment.
fn by_words(alloc: Global, line: &[u8]) -> Result<Option<Command>, NoMemory>
    ensures command { IfOk result (λ c. option_map command_is c ≡ by_words line.now) }
    ensures askable { IfOk result (λ c. IfSome c MayAsk) }
{
    if line == b"read".as_slice() {
        Ok(Some(Command::Reads))
    } else if line == b"wait".as_slice() {
        Ok(Some(Command::Waits))
    } else if line == b"show".as_slice() {
        Ok(Some(Command::Shows))
    } else if line == b"end".as_slice() {
        Ok(Some(Command::Ends))
    } else if line.starts_with(b"act ") {
        acting(alloc, &line[4..])
    } else {
        in_short(alloc, line)
    }
}

/// The action that a line says in short.
#[tactic(auto, unfolding(crate::specs::Commands::act_in_short))]
fn in_short(alloc: Global, line: &[u8]) -> Result<Option<Command>, NoMemory>
    ensures command { IfOk result (λ c. option_map command_is c ≡ acts_in_short (act_in_short line.now)) }
    ensures askable { IfOk result (λ c. IfSome c MayAsk) }
{
    if let Some(text) = word_in_short(line) {
        return acting(alloc, text);
    }
    if !line.starts_with(b"move ") {
        return Ok(None);
    }
    let text = text_of_move(alloc, &line[5..])?;
    let command = acting(alloc, text.as_slice());
    drop(text);
    command
}

/// The act of a line that is an event, `undo` or `redo`.
#[tactic(auto, unfolding(crate::specs::Commands::act_in_short))]
fn word_in_short(line: &[u8]) -> Option<&'static [u8]>
    ensures short { IfSome result (λ text. act_in_short line.now ≡ Some text.now) }
    ensures none { IfNone result (act_in_short line.now ≡ move_in_short line.now) }
{
    if line == b"end turn".as_slice() {
        Some(b"{\"event\":\"endTurn\",\"kind\":\"event\",\"to\":null}")
    } else if line == b"end stage".as_slice() {
        Some(b"{\"event\":\"endStage\",\"kind\":\"event\",\"to\":null}")
    } else if line == b"end phase".as_slice() {
        Some(b"{\"event\":\"endPhase\",\"kind\":\"event\",\"to\":null}")
    } else if line == b"undo".as_slice() {
        Some(b"{\"kind\":\"undo\"}")
    } else if line == b"redo".as_slice() {
        Some(b"{\"kind\":\"redo\"}")
    } else {
        None
    }
}

/// The act of a move: its name stands before the first blank, and its arguments behind it, as the items of an array.
fn text_of_move(alloc: Global, text: &[u8]) -> Result<Vec<u8>, NoMemory>
    ensures { IfOk result (λ act. act.items ≡ move_at text.now (position (λ b. b == 32) text.now)) }
{
    match blank(text) {
        Some(place) => move_act(alloc, &text[..place], &text[place + 1..]),
        None => move_act(alloc, text, &[]),
    }
}

/// Where the first blank stands.
fn blank(text: &[u8]) -> Option<usize>
    ensures value { result ≡ position (λ b. b == 32) text.now }
    ensures within { IfSome result (λ place. place < length text.now) }
{
    text.iter().position(|byte| *byte == b' ')
}

/// The act of a move of this name with these arguments.
fn move_act(alloc: Global, name: &[u8], args: &[u8]) -> Result<Vec<u8>, NoMemory>
    ensures { IfOk result (λ act. act.items ≡ move_text name.now args.now) }
{
    let mut act = Vec::new(alloc);
    act.extend_from_slice(b"{\"args\":[")?;
    act.extend_from_slice(args)?;
    act.extend_from_slice(b"],\"kind\":\"move\",\"move\":\"")?;
    act.extend_from_slice(name)?;
    act.extend_from_slice(b"\"}")?;
    Ok(act)
}

/// The action that a text is.
fn acting(alloc: Global, text: &[u8]) -> Result<Option<Command>, NoMemory>
    ensures command { IfOk result (λ c. option_map command_is c ≡ option_map Acts (asked_of text.now)) }
    ensures askable { IfOk result (λ c. IfSome c MayAsk) }
{
    match asked_of(alloc, text)? {
        Some(asked) => Ok(Some(Command::Acts(asked))),
        None => Ok(None),
    }
}

/// The act that a text is; none where it is in no form.
#[tactic(auto, using(crate::proofs::Askable::askable))]
fn asked_of(alloc: Global, text: &[u8]) -> Result<Option<Asked>, NoMemory>
    ensures act { IfOk result (λ asked. asked ≡ asked_of text.now) }
    ensures askable { IfOk result (λ asked. IfSome asked IsAskable) }
{
    match read_text(alloc, text) {
        Ok(act) => {
            let asked = wire_json::asked_of(alloc, &act);
            drop(act);
            asked
        }
        Err(LineFault::NoMemory) => Err(NoMemory),
        Err(_) => Ok(None),
    }
}
