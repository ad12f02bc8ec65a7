//! A line that a session is handed, and what a spectator's first line shows.

ghost use Rattle.std.specs.Prelude.{◌≡◌, ◌++◌, List, ℕ, None, IfOk, OnOk};
ghost use Rattle.serde_json.specs.Data.{Data};
ghost use Rattle.serde_json.specs.Written.{compact_text};
ghost use Rattle.room_history.specs.declared.reply.RoomReply.TheVariants as answer;
ghost use Rattle.wire_json.specs.ServerText.{text as server_text};
ghost use Rattle.wire_json.specs.declared.protocol.Protocol.TheVariants.{One};
ghost use Rattle.wire_json.specs.declared.server.ServerMsg.TheVariants.{Sync};

use game_sheet::{Bytes, MatchName, NoMemory};
use room_history::RoomReply;
use std::alloc::Global;
use wire_json::{Protocol, put_sync};

/// What a `null` takes in a line, with what comes after a snapshot: `,"type":"sync"}` and the newline.
const NULL_AND_BEHIND: usize = 20;

/// What comes after a snapshot.
const BEHIND: usize = 16;

/// The lines that a Take hands out, in one piece. An attached session is always handed some bytes.
pub(crate) fn lines_taken(alloc: Global, reply: RoomReply) -> Result<Vec<u8>, NoMemory>
    ensures { (bytes : List ℕ) → reply ≡ answer.Taken bytes None → IfOk result (λ all. all.items ≡ bytes) }
{
    match reply {
        RoomReply::Taken { bytes, end: _ } => {
            let all = joined(alloc, &bytes);
            drop(bytes);
            all
        }
        other => {
            drop(other);
            Err(NoMemory)
        }
    }
}

/// Lines that are held one by one, joined.
fn joined(alloc: Global, bytes: &Bytes) -> Result<Vec<u8>, NoMemory>
    ensures { IfOk result (λ all. all.items ≡ bytes.now) }
{
    let mut all = Vec::new(alloc);
    for place in 0..bytes.count() {
        all.extend_from_slice(bytes.piece(place))?;
    }
    Ok(all)
}

/// The snapshot in the line that begins a spectator's session of protocol 1.
pub(crate) fn put_view(
    alloc: Global,
    out: &mut Vec<u8>,
    name: &MatchName,
    line: &[u8],
) -> Result<(), NoMemory>
    requires { (s : Data) × (line.now ≡ server_text (Sync name.now None One s)) }
    ensures { (s : Data) → line.now ≡ server_text (Sync name.now None One s) → OnOk result (out.new.items ≡ out.old.items ++ compact_text s) }
{
    let mut blank = Vec::new(alloc);
    put_sync(alloc, &mut blank, name, None, Protocol::One, b"null")?;
    let begin = blank.len() - NULL_AND_BEHIND;
    drop(blank);
    out.extend_from_slice(&line[begin..line.len() - BEHIND])?;
    Ok(())
}
