//! The text of a room: how many records made it, and the match that stands with what a spectator sees of it.

ghost use Rattle.std.specs.Prelude.{◌≡◌, ◌++◌, List, None, Some, IfOk, OnOk};
ghost use Rattle.any_game.specs.AnyRules.{any_rules};
ghost use Rattle.any_game.specs.GameKind.{GameKind};
ghost use Rattle.any_game.specs.declared.any_g.AnyG.{AnyG};
ghost use Rattle.room_history.specs.Match.{Match};
ghost use Rattle.room_history.specs.Room.{standing};
ghost use Rattle.room_history.specs.declared.call.RoomCall.{RoomCall as Asks};
ghost use Rattle.room_object.specs.Entry.{Entry};
ghost use Rattle.room_journal.specs.Coming.{StandsIn};
ghost use Rattle.serde_json.specs.Data.{Data};
ghost use Rattle.serde_json.specs.Written.{compact_text};
ghost use Rattle.wire_json.specs.ServerText.{text as server_text};
ghost use Rattle.wire_json.specs.declared.protocol.Protocol.TheVariants.{One};
ghost use Rattle.wire_json.specs.declared.server.ServerMsg.TheVariants.{Sync};
ghost use Rattle.journal_replay.specs.ReplayText.{replay_text, shown_text, standing_text};
ghost use Rattle.journal_replay.specs.Showing.{StillStands, name_said, standing_name, sync_of};

use crate::line::{lines_taken, put_view};
use game_sheet::{MatchName, NoMemory};
use itoa::Buffer;
use object_journal::Recorded;
use room_history::{RoomCall, RoomReply};
use room_journal::{REPLAYER, RoomBook};
use room_object::Object;
use std::alloc::Global;
use wire_json::{Protocol, text_of_match};

/// The text of a room that so many records made.
pub(crate) fn room_text(alloc: Global, count: u64, book: &mut RoomBook) -> Result<Vec<u8>, NoMemory>
    requires { (h : List (Entry (Asks GameKind))) × StandsIn book.old.room book.old.book h }
    ensures { (h : List (Entry (Asks GameKind))) → StandsIn book.old.room book.old.book h
        → IfOk result (λ text. text.items ≡ replay_text book.old.room count (standing any_rules book.old.room h)) }
{
    let mut text = Vec::new(alloc);
    let mut digits = Buffer::new();
    text.extend_from_slice(b"records ")?;
    text.extend_from_slice(digits.format(count).as_bytes())?;
    text.push(b'\n')?;
    put_standing(alloc, &mut text, book)?;
    Ok(text)
}

/// Adds the match that stands.
fn put_standing(alloc: Global, text: &mut Vec<u8>, book: &mut RoomBook) -> Result<(), NoMemory>
    requires { (h : List (Entry (Asks GameKind))) × StandsIn book.old.room book.old.book h }
    ensures { (h : List (Entry (Asks GameKind))) → StandsIn book.old.room book.old.book h
        → OnOk result (text.new.items ≡ text.old.items ++ standing_text book.old.room (standing any_rules book.old.room h)) }
{
    match name_of(book)? {
        None => Ok(text.extend_from_slice(b"match -\n")?),
        Some(name) => put_match(alloc, text, book, &name),
    }
}

/// The name of the match that stands.
fn name_of(book: &mut RoomBook) -> Result<Option<MatchName>, NoMemory>
    requires { (h : List (Entry (Asks GameKind))) × StandsIn book.old.room book.old.book h }
    ensures room { book.new.room ≡ book.old.room }
    ensures name { (h : List (Entry (Asks GameKind))) → StandsIn book.old.room book.old.book h
        → IfOk result (λ name. name ≡ standing_name book.old.room (standing any_rules book.old.room h)) }
    ensures stays { (h : List (Entry (Asks GameKind))) → StandsIn book.old.room book.old.book h → StillStands (standing any_rules book.old.room h) book.new }
{
    name_said(book.apply(REPLAYER, RoomCall::Look { serial: None }))
}

/// The name of the match that a Look shows; none where none stands.
fn name_said(reply: RoomReply) -> Result<Option<MatchName>, NoMemory>
    ensures { result ≡ name_said reply }
{
    match reply {
        RoomReply::Looked(row) => {
            let name = row.name;
            drop(row);
            Ok(Some(name))
        }
        RoomReply::NoMemory => Err(NoMemory),
        other => {
            drop(other);
            Ok(None)
        }
    }
}

/// Adds the match of a name, which stands, with what a spectator sees of it.
fn put_match(
    alloc: Global,
    text: &mut Vec<u8>,
    book: &mut RoomBook,
    name: &MatchName,
) -> Result<(), NoMemory>
    requires { (m : Match GameKind AnyG) × StillStands (Some m) book.old × (name.now ≡ record { room = book.old.room; serial = m.serial }) }
    ensures { (m : Match GameKind AnyG) → StillStands (Some m) book.old → name.now ≡ record { room = book.old.room; serial = m.serial }
        → OnOk result (text.new.items ≡ text.old.items ++ standing_text book.old.room (Some m)) }
{
    let line = spectators_line(alloc, book, name.serial())?;
    let put = put_shown(alloc, text, name, &line);
    drop(line);
    put
}

/// Adds the match of a name, with what a spectator's first line shows.
fn put_shown(
    alloc: Global,
    text: &mut Vec<u8>,
    name: &MatchName,
    line: &[u8],
) -> Result<(), NoMemory>
    requires { (s : Data) × (line.now ≡ server_text (Sync name.now None One s)) }
    ensures { (s : Data) → line.now ≡ server_text (Sync name.now None One s)
        → OnOk result (text.new.items ≡ text.old.items ++ shown_text name.now (compact_text s)) }
{
    let written = text_of_match(alloc, name)?;
    text.extend_from_slice(b"match ")?;
    text.extend_from_slice(written.as_bytes())?;
    text.extend_from_slice(b"\nview ")?;
    put_view(alloc, text, name, line)?;
    Ok(text.push(b'\n')?)
}

/// The line that begins a spectator's session of protocol 1 at the match of a serial, which stands.
fn spectators_line(alloc: Global, book: &mut RoomBook, serial: u64) -> Result<Vec<u8>, NoMemory>
    requires { (m : Match GameKind AnyG) × StillStands (Some m) book.old × (m.serial ≡ serial) }
    ensures { (m : Match GameKind AnyG) → StillStands (Some m) book.old
        → m.serial ≡ serial → IfOk result (λ line. line.items ≡ server_text (sync_of book.old.room m)) }
{
    let detached = book.apply(REPLAYER, RoomCall::Detach);
    drop(detached);
    let attached = book.apply(
        REPLAYER,
        RoomCall::Attach {
            serial,
            viewer: None,
            protocol: Protocol::One,
        },
    );
    let starved = RoomBook::starved(&attached);
    drop(attached);
    if starved {
        return Err(NoMemory);
    }
    lines_taken(alloc, book.apply(REPLAYER, RoomCall::Take))
}
