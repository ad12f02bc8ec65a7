//! What steps print, added to a text: lines behind the number of the session that they go to.

ghost use Rattle.std.specs.Prelude.{◌≡◌, ◌≤◌, ◌<◌, ◌∷◌, ◌++◌, OnOk, Some, drop, length, take};
ghost use Rattle.game_sheet.specs.Lines.{lines};
ghost use Rattle.hall_history.specs.Script.{all_to_session, to_session, unattached_text};
ghost use Rattle.session_hall.specs.Answered.{made_text};
ghost use Rattle.script_steps.specs.Printing.{end_text, reply_text};

use game_sheet::{Bye, Bytes, MatchName, NoMemory};
use itoa::Buffer;
use match_master::RoomReply;
use memchr::memchr;
use wire_json::bye_line;

/// Adds a line behind a session's number.
pub fn put_line(text: &mut Vec<u8>, pass: u8, line: &[u8]) -> Result<(), NoMemory>
    ensures { OnOk result (text.new.items ≡ text.old.items ++ to_session pass line.now) }
{
    let mut digits = Buffer::new();
    text.extend_from_slice(digits.format(pass).as_bytes())?;
    text.push(b' ')?;
    text.extend_from_slice(line)?;
    Ok(())
}

/// Adds each line of some bytes behind a session's number.
pub fn put_lines(text: &mut Vec<u8>, pass: u8, bytes: &Bytes) -> Result<(), NoMemory>
    ensures { OnOk result (text.new.items ≡ text.old.items ++ all_to_session pass bytes.now) }
{
    match bytes.whole() {
        Some(whole) => put_whole(text, pass, whole),
        None => put_pieces(text, pass, bytes),
    }
}

/// Adds lines that stand one after another.
fn put_whole(text: &mut Vec<u8>, pass: u8, bytes: &[u8]) -> Result<(), NoMemory>
    ensures { OnOk result (text.new.items ≡ text.old.items ++ all_to_session pass bytes.now) }
{
    let mut rest = bytes;
    while !rest.is_empty() {
        let end = line_end(rest);
        put_line(text, pass, &rest[..end])?;
        rest = &rest[end..];
    }
    Ok(())
}

/// How many bytes the first line has, its newline included.
fn line_end(bytes: &[u8]) -> usize
    requires { 0 < length bytes.now }
    ensures some { 0 < result }
    ensures within { result ≤ length bytes.now }
    ensures cuts { lines bytes.now ≡ take result bytes.now ∷ lines (drop result bytes.now) }
{
    match memchr(b'\n', bytes) {
        Some(at) => at + 1,
        None => bytes.len(),
    }
}

/// Adds lines that are held one by one.
fn put_pieces(text: &mut Vec<u8>, pass: u8, bytes: &Bytes) -> Result<(), NoMemory>
    ensures { OnOk result (text.new.items ≡ text.old.items ++ all_to_session pass bytes.now) }
{
    for place in 0..bytes.count() {
        put_line(text, pass, bytes.piece(place))?;
    }
    Ok(())
}

/// Adds what a Take or a Detach of a session prints.
pub fn put_reply(text: &mut Vec<u8>, pass: u8, reply: &Option<RoomReply>) -> Result<(), NoMemory>
    ensures { OnOk result (text.new.items ≡ text.old.items ++ reply_text pass reply.now) }
{
    match reply {
        None => put_unattached(text, pass),
        Some(RoomReply::NotAttached) => put_unattached(text, pass),
        Some(RoomReply::Taken { bytes, end }) => {
            put_lines(text, pass, bytes)?;
            put_end(text, pass, *end)
        }
        Some(_) => Ok(()),
    }
}

/// Adds that a session isn't attached.
#[tactic(auto, using(crate::proofs::Printed::not_attached))]
fn put_unattached(text: &mut Vec<u8>, pass: u8) -> Result<(), NoMemory>
    ensures { OnOk result (text.new.items ≡ text.old.items ++ unattached_text pass) }
{
    let line = b"{\"field\":null,\"reason\":\"not-attached\",\"type\":\"refused\"}\n";
    put_line(text, pass, line)
}

/// Adds the end of a stream, where it is handed out.
fn put_end(text: &mut Vec<u8>, pass: u8, end: Option<Bye>) -> Result<(), NoMemory>
    ensures { OnOk result (text.new.items ≡ text.old.items ++ end_text pass end) }
{
    match end {
        None => Ok(()),
        Some(why) => put_line(text, pass, bye_line(why)),
    }
}

/// Adds which match was opened, or that all rooms are full.
pub fn put_opened(text: &mut Vec<u8>, name: Option<MatchName>) -> Result<(), NoMemory>
    ensures { OnOk result (text.new.items ≡ text.old.items ++ made_text name) }
{
    match name {
        None => Ok(text.extend_from_slice(b"open full\n")?),
        Some(name) => put_match(text, name),
    }
}

fn put_match(text: &mut Vec<u8>, name: MatchName) -> Result<(), NoMemory>
    ensures { OnOk result (text.new.items ≡ text.old.items ++ made_text (Some name)) }
{
    let mut room = Buffer::new();
    let mut serial = Buffer::new();
    text.extend_from_slice(b"open ")?;
    text.extend_from_slice(room.format(name.room()).as_bytes())?;
    text.push(b'-')?;
    text.extend_from_slice(serial.format(name.serial()).as_bytes())?;
    text.push(b'\n')?;
    Ok(())
}
