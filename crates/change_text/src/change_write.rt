//! Appends the payload of a change, one function for each row.

ghost use Rattle.std.specs.Prelude.{◌≡◌, ◌∷◌, ◌++◌, codes, OnOk, true};
ghost use Rattle.hex.specs.Hex.{encode_lower};
ghost use Rattle.json.specs.Print.{quoted};
ghost use Rattle.serde_json.specs.Data.{string};
ghost use Rattle.change_text.specs.Payload.{ActsInForm, from_kind, from_name, from_seat, from_seats, payload};
ghost use Rattle.room_changes.specs.declared.change.Change.TheVariants as change;
ghost use Rattle.serde_json.specs.Written.{compact_text, members_text};
ghost use Rattle.wire_json.specs.Asking.{IsAskable};

use game_sheet::{Key, NoMemory, Seat, Text};
use game_trait::Game;
use json_text::put_natural;
use room_changes::Change;
use std::alloc::Global;
use wire_json::{Asked, put_asked, put_key, put_text};

/// Appends the payload of a change.
pub fn put_change<X: Game>(
    alloc: Global,
    out: &mut Vec<u8>,
    change: &Change<X>,
) -> Result<(), NoMemory>
    requires { ActsInForm change.now }
    ensures { OnOk result (out.new.items ≡ out.old.items ++ payload X.rules change.now) }
{
    match change {
        Change::Create { game, seats, seed } => put_create(alloc, out, game, *seats, seed),
        Change::Join { seat, name, key } => put_join::<X>(alloc, out, key, name, *seat),
        Change::Rename { seat, key, name } => put_rename::<X>(alloc, out, key, name, *seat),
        Change::Leave { seat, key } => put_leave::<X>(alloc, out, key, *seat),
        Change::Clear => put_clear::<X>(out),
        Change::Act { seat, asked } => put_act::<X>(alloc, out, asked, *seat),
    }
}

/// Appends the payload of a match that was made.
#[tactic(auto, unfolding(json::specs::Print::escape_byte))]
pub(crate) fn put_create<X: Game>(
    alloc: Global,
    out: &mut Vec<u8>,
    game: &X,
    seats: u8,
    seed: &[u8; 32],
) -> Result<(), NoMemory>
    ensures { OnOk result (out.new.items ≡ out.old.items ++ payload X.rules (change.Create game.now seats seed.now)) }
{
    put_game(alloc, out, game)?;
    put_from_create(alloc, out, seats, seed)
}

#[tactic(auto, unfolding(json::specs::Print::escape_byte))]
fn put_from_seats(
    alloc: Global,
    out: &mut Vec<u8>,
    seats: u8,
    seed: &[u8; 32],
) -> Result<(), NoMemory>
    ensures { OnOk result (out.new.items ≡ out.old.items ++ members_text true (from_seats seats seed.now)) }
{
    out.extend_from_slice(b",\"seats\":")?;
    put_natural(out, u64::from(seats))?;
    out.extend_from_slice(b",\"seed\":")?;
    let text = hex::encode(alloc, seed)?;
    put_text(alloc, out, text.as_str())?;
    Ok(out.push(b'}')?)
}

#[tactic(auto, unfolding(json::specs::Print::escape_byte))]
fn put_from_name(alloc: Global, out: &mut Vec<u8>, name: &Text, seat: Seat) -> Result<(), NoMemory>
    ensures { OnOk result (out.new.items ≡ out.old.items ++ members_text true (from_name name.now seat)) }
{
    out.extend_from_slice(b",\"name\":")?;
    put_text(alloc, out, name.as_str())?;
    put_from_seat(out, seat)
}

#[tactic(auto, unfolding(json::specs::Print::escape_byte))]
fn put_from_seat(out: &mut Vec<u8>, seat: Seat) -> Result<(), NoMemory>
    ensures { OnOk result (out.new.items ≡ out.old.items ++ members_text true (from_seat seat)) }
{
    out.extend_from_slice(b",\"seat\":")?;
    put_natural(out, u64::from(seat))?;
    Ok(out.push(b'}')?)
}

// The beginning of an object whose first member is the name of a game.
#[tactic(auto, unfolding(json::specs::Print::escape_byte))]
fn put_game<X: Game>(alloc: Global, out: &mut Vec<u8>, game: &X) -> Result<(), NoMemory>
    ensures { OnOk result (out.new.items ≡ out.old.items ++ 123 ∷ (quoted (codes "game") ++ 58 ∷ compact_text (string (X.rules game.now).sheet.name))) }
{
    out.extend_from_slice(b"{\"game\":")?;
    put_text(alloc, out, game.sheet().name.as_str())
}

#[tactic(auto, unfolding(json::specs::Print::escape_byte))]
fn put_from_create(
    alloc: Global,
    out: &mut Vec<u8>,
    seats: u8,
    seed: &[u8; 32],
) -> Result<(), NoMemory>
    ensures { OnOk result (out.new.items ≡ out.old.items ++ members_text true (from_kind (codes "create") (from_seats seats seed.now))) }
{
    out.extend_from_slice(b",\"kind\":\"create\"")?;
    put_from_seats(alloc, out, seats, seed)
}

// The beginning of an object whose first member is a key.
#[tactic(auto, unfolding(json::specs::Print::escape_byte))]
fn put_owner(alloc: Global, out: &mut Vec<u8>, key: &Key) -> Result<(), NoMemory>
    ensures { OnOk result (out.new.items ≡ out.old.items ++ 123 ∷ (quoted (codes "key") ++ 58 ∷ compact_text (string (encode_lower key.now)))) }
{
    out.extend_from_slice(b"{\"key\":")?;
    put_key(alloc, out, key)
}

#[tactic(auto, unfolding(json::specs::Print::escape_byte))]
fn put_from_kind(
    alloc: Global,
    out: &mut Vec<u8>,
    kind: &str,
    name: &Text,
    seat: Seat,
) -> Result<(), NoMemory>
    ensures { OnOk result (out.new.items ≡ out.old.items ++ members_text true (from_kind kind.now (from_name name.now seat))) }
{
    out.extend_from_slice(b",\"kind\":")?;
    put_text(alloc, out, kind)?;
    put_from_name(alloc, out, name, seat)
}

/// Appends the payload of a player who was seated.
#[tactic(auto, unfolding(json::specs::Print::escape_byte))]
pub(crate) fn put_join<X: Game>(
    alloc: Global,
    out: &mut Vec<u8>,
    key: &Key,
    name: &Text,
    seat: Seat,
) -> Result<(), NoMemory>
    ensures { OnOk result (out.new.items ≡ out.old.items ++ payload X.rules (change.Join seat name.now key.now)) }
{
    put_owner(alloc, out, key)?;
    put_from_kind(alloc, out, "join", name, seat)
}

/// Appends the payload of a player who got another name.
#[tactic(auto, unfolding(json::specs::Print::escape_byte))]
pub(crate) fn put_rename<X: Game>(
    alloc: Global,
    out: &mut Vec<u8>,
    key: &Key,
    name: &Text,
    seat: Seat,
) -> Result<(), NoMemory>
    ensures { OnOk result (out.new.items ≡ out.old.items ++ payload X.rules (change.Rename seat key.now name.now)) }
{
    put_owner(alloc, out, key)?;
    put_from_kind(alloc, out, "rename", name, seat)
}

/// Appends the payload of a player who left.
#[tactic(auto, unfolding(json::specs::Print::escape_byte))]
pub(crate) fn put_leave<X: Game>(
    alloc: Global,
    out: &mut Vec<u8>,
    key: &Key,
    seat: Seat,
) -> Result<(), NoMemory>
    ensures { OnOk result (out.new.items ≡ out.old.items ++ payload X.rules (change.Leave seat key.now)) }
{
    out.extend_from_slice(b"{\"key\":")?;
    put_key(alloc, out, key)?;
    out.extend_from_slice(b",\"kind\":\"leave\"")?;
    put_from_seat(out, seat)
}

/// Appends the payload of a match that was cleared.
#[tactic(auto, unfolding(json::specs::Print::escape_byte))]
pub(crate) fn put_clear<X: Game>(out: &mut Vec<u8>) -> Result<(), NoMemory>
    ensures { OnOk result (out.new.items ≡ out.old.items ++ payload X.rules change.Clear) }
{
    Ok(out.extend_from_slice(b"{\"kind\":\"clear\"}")?)
}

/// Appends the payload of an action.
#[tactic(auto, unfolding(json::specs::Print::escape_byte))]
pub(crate) fn put_act<X: Game>(
    alloc: Global,
    out: &mut Vec<u8>,
    asked: &Asked,
    seat: Seat,
) -> Result<(), NoMemory>
    requires { IsAskable asked.now }
    ensures { OnOk result (out.new.items ≡ out.old.items ++ payload X.rules (change.Act seat asked.now)) }
{
    out.extend_from_slice(b"{\"act\":")?;
    put_asked(alloc, out, asked)?;
    out.extend_from_slice(b",\"kind\":\"act\"")?;
    put_from_seat(out, seat)
}
