//! The short lines to clients, each written into an array: they take no memory.

ghost use Rattle.std.specs.Prelude.{◌≡◌, ◌≤◌, ◌+◌, ◌++◌, length};
ghost use Rattle.arrayvec.specs.ArrayVec.{array_vec_len};
ghost use Rattle.hex.specs.Hex.{encode_lower, IsBytes};
ghost use Rattle.wire_json.specs.MatchText.{match_text, IsName};
ghost use Rattle.wire_json.specs.RefusalText.{refusal_text};
ghost use Rattle.wire_json.specs.ServerText.{text};
ghost use Rattle.game_hall.specs.ShortText.{field_text, place_text, ticket_text};
ghost use Rattle.wire_json.specs.declared.server.ServerMsg.TheVariants as message;

use arrayvec::ArrayVec;
use game_sheet::{Key, MatchName, Seat};
use itoa::Buffer;
use wire_json::{Member, Refusal};

/// The line that a request may be made again.
#[tactic(auto, using(crate::proofs::ShortTexts::again_is))]
pub fn again_line(ticket: Option<u32>) -> ArrayVec<u8, 128>
    ensures { result.items ≡ text (message.Again ticket) }
{
    let mut line = ArrayVec::new();
    add(&mut line, b"{\"ticket\":");
    add_ticket(&mut line, ticket);
    add(&mut line, b",\"type\":\"again\"}\n");
    line
}

/// The line that a request is refused.
#[tactic(auto, using(crate::proofs::ShortTexts::refused_is))]
pub fn refused_line(refusal: Refusal) -> ArrayVec<u8, 128>
    ensures { result.items ≡ text (message.Refused refusal) }
{
    let mut line = ArrayVec::new();
    add(&mut line, b"{\"field\":");
    add_field(&mut line, refusal.field());
    add(&mut line, b",\"reason\":\"");
    add_reason(&mut line, refusal);
    add(&mut line, b"\",\"type\":\"refused\"}\n");
    line
}

/// The line that a match was made.
#[tactic(auto, using(crate::proofs::ShortTexts::created_is))]
pub fn created_line(name: &MatchName) -> ArrayVec<u8, 128>
    ensures { result.items ≡ text (message.Created name.now) }
{
    let mut line = ArrayVec::new();
    add(&mut line, b"{\"match\":\"");
    add_match(&mut line, name);
    add(&mut line, b"\",\"type\":\"created\"}\n");
    line
}

/// The line that a player sits at a seat, with the player's key.
#[tactic(auto, using(crate::proofs::ShortTexts::joined_is))]
pub fn joined_line(key: &Key, name: &MatchName, seat: Seat) -> ArrayVec<u8, 128>
    ensures { result.items ≡ text (message.Joined key.now name.now seat) }
{
    let mut line = ArrayVec::new();
    add(&mut line, b"{\"key\":\"");
    add_key(&mut line, key);
    add(&mut line, b"\",\"match\":\"");
    add_place(&mut line, name, seat, b",\"type\":\"joined\"}\n");
    line
}

/// The line that a player has another name.
#[tactic(auto, using(crate::proofs::ShortTexts::renamed_is))]
pub fn renamed_line(name: &MatchName, seat: Seat) -> ArrayVec<u8, 128>
    ensures { result.items ≡ text (message.Renamed name.now seat) }
{
    let mut line = ArrayVec::new();
    add(&mut line, b"{\"match\":\"");
    add_place(&mut line, name, seat, b",\"type\":\"renamed\"}\n");
    line
}

/// The line that a player has left.
#[tactic(auto, using(crate::proofs::ShortTexts::left_is))]
pub fn left_line(name: &MatchName, seat: Seat) -> ArrayVec<u8, 128>
    ensures { result.items ≡ text (message.Left name.now seat) }
{
    let mut line = ArrayVec::new();
    add(&mut line, b"{\"match\":\"");
    add_place(&mut line, name, seat, b",\"type\":\"left\"}\n");
    line
}

/// The line that the bot at a seat was asked to leave it.
#[tactic(auto, using(crate::proofs::ShortTexts::asked_is))]
pub fn asked_line(name: &MatchName, seat: Seat) -> ArrayVec<u8, 128>
    ensures { result.items ≡ text (message.Asked name.now seat) }
{
    let mut line = ArrayVec::new();
    add(&mut line, b"{\"match\":\"");
    add_place(&mut line, name, seat, b",\"type\":\"asked\"}\n");
    line
}

/// Adds bytes that have room.
fn add(line: &mut ArrayVec<u8, 128>, piece: &[u8])
    requires { array_vec_len line.old + length piece.now ≤ 128 }
    ensures text { line.new.items ≡ line.old.items ++ piece.now }
    ensures len { array_vec_len line.new ≡ array_vec_len line.old + length piece.now }
{
    let Ok(()) = line.try_extend_from_slice(piece) else {
        unreachable!();
    };
}

/// Adds a ticket, or null.
fn add_ticket(line: &mut ArrayVec<u8, 128>, ticket: Option<u32>)
    requires { array_vec_len line.old + 10 ≤ 128 }
    ensures text { line.new.items ≡ line.old.items ++ ticket_text ticket }
    ensures len { array_vec_len line.new ≤ array_vec_len line.old + 10 }
{
    match ticket {
        None => add(line, b"null"),
        Some(ticket) => {
            let mut digits = Buffer::new();
            add(line, digits.format(ticket).as_bytes());
        }
    }
}

/// Adds the name of a member between quotes, or null.
fn add_field(line: &mut ArrayVec<u8, 128>, field: Option<Member>)
    requires { array_vec_len line.old + 10 ≤ 128 }
    ensures text { line.new.items ≡ line.old.items ++ field_text field }
    ensures len { array_vec_len line.new ≤ array_vec_len line.old + 10 }
{
    match field {
        None => add(line, b"null"),
        Some(field) => add(line, quoted(field)),
    }
}

/// The name of a member between quotes.
fn quoted(field: Member) -> &'static [u8]
    ensures text { result.now ≡ field_text (Some field) }
    ensures short { length result.now ≤ 10 }
{
    match field {
        Member::Extra => b"\"*\"",
        Member::Kind => b"\"type\"",
        Member::Act => b"\"act\"",
        Member::Game => b"\"game\"",
        Member::Key => b"\"key\"",
        Member::Match => b"\"match\"",
        Member::Name => b"\"name\"",
        Member::Number => b"\"number\"",
        Member::Protocol => b"\"protocol\"",
        Member::Seat => b"\"seat\"",
        Member::Seats => b"\"seats\"",
        Member::Ticket => b"\"ticket\"",
    }
}

/// Adds the word of a refusal.
fn add_reason(line: &mut ArrayVec<u8, 128>, refusal: Refusal)
    requires { array_vec_len line.old + 16 ≤ 128 }
    ensures text { line.new.items ≡ line.old.items ++ refusal_text refusal }
    ensures len { array_vec_len line.new ≤ array_vec_len line.old + 16 }
{
    add(line, refusal.name().as_bytes());
}

/// Adds the text of a match's name.
fn add_match(line: &mut ArrayVec<u8, 128>, name: &MatchName)
    requires { array_vec_len line.old + 24 ≤ 128 }
    ensures text { line.new.items ≡ line.old.items ++ match_text name.now }
    ensures len { array_vec_len line.new ≤ array_vec_len line.old + 24 }
    ensures named { IsName name.now }
{
    let mut digits = Buffer::new();
    add(line, digits.format(name.room()).as_bytes());
    add(line, b"-");
    add(line, digits.format(name.serial()).as_bytes());
}

/// Adds the digits of a key.
fn add_key(line: &mut ArrayVec<u8, 128>, key: &Key)
    requires { array_vec_len line.old + 32 ≤ 128 }
    ensures text { line.new.items ≡ line.old.items ++ encode_lower key.now }
    ensures len { array_vec_len line.new ≡ array_vec_len line.old + 32 }
    ensures bytes { IsBytes key.now }
{
    add_hex(line, key.bytes());
}

/// Adds two digits for each byte.
fn add_hex(line: &mut ArrayVec<u8, 128>, bytes: &[u8; 16])
    requires { array_vec_len line.old + 32 ≤ 128 }
    ensures text { line.new.items ≡ line.old.items ++ encode_lower bytes.now }
    ensures len { array_vec_len line.new ≡ array_vec_len line.old + 32 }
    ensures bytes { IsBytes bytes.now }
{
    let mut digits = [0u8; 32];
    let Ok(()) = hex::encode_to_slice(bytes, &mut digits) else {
        unreachable!();
    };
    add(line, &digits);
}

/// Adds a match and a seat of it, and the end of the line.
fn add_place(line: &mut ArrayVec<u8, 128>, name: &MatchName, seat: Seat, ending: &[u8])
    requires { array_vec_len line.old + 36 + length ending.now ≤ 128 }
    ensures text { line.new.items ≡ line.old.items ++ place_text name.now seat ending.now }
    ensures named { IsName name.now }
{
    add_match(line, name);
    add(line, b"\",\"seat\":");
    let mut digits = Buffer::new();
    add(line, digits.format(seat).as_bytes());
    add(line, ending);
}
