//! Reads the payload of a change, one function for each row.

ghost use Rattle.std.specs.Prelude.{◌≡◌, IfOk, IfSome};
ghost use Rattle.change_text.specs.Payload.{ActsInForm};
ghost use Rattle.change_text.specs.Reading.{act_in, change_in, change_read, create_in, join_in, key_under, leave_in, rename_in};
ghost use Rattle.json_tree.specs.Canonical.{IsCanonical};
ghost use Rattle.serde_json.specs.View.{view};

use crate::change_write::put_change;
use any_game::{AnyGame, by_name};
use game_sheet::{Key, NoMemory, Text};
use json_tree::{LineFault, natural_of, read_text, text_of};
use room_changes::Change;
use serde_json::Value;
use std::alloc::Global;
use wire_json::{asked_of, key_of, lower_hex_of};

/// The change that a payload is the text of; none where it is the text of no change.
#[tactic(auto, unfolding(crate::specs::Reading::change_read))]
pub fn read_change(alloc: Global, payload: &[u8]) -> Result<Option<Change<AnyGame>>, NoMemory>
    ensures exact { IfOk result (λ c. c ≡ change_read payload.now) }
    ensures in_form { IfOk result (λ c. IfSome c ActsInForm) }
{
    let value = match read_text(alloc, payload) {
        Ok(value) => value,
        Err(LineFault::NoMemory) => return Err(NoMemory),
        Err(_) => return Ok(None),
    };
    let Some(change) = change_of(alloc, &value)? else {
        return Ok(None);
    };
    let mut text = Vec::new(alloc);
    put_change(alloc, &mut text, &change)?;
    if text.as_slice() == payload {
        Ok(Some(change))
    } else {
        drop(change);
        Ok(None)
    }
}

#[tactic(auto, unfolding(crate::specs::Reading::change_in))]
fn change_of(alloc: Global, value: &Value) -> Result<Option<Change<AnyGame>>, NoMemory>
    requires { IsCanonical (view value.now) }
    ensures exact { IfOk result (λ c. c ≡ change_in (view value.now)) }
    ensures in_form { IfOk result (λ c. IfSome c ActsInForm) }
{
    let Ok(kind) = text_of(value, "kind") else {
        return Ok(None);
    };
    match kind {
        "act" => act_of(alloc, value),
        "create" => create_of(alloc, value),
        "join" => join_of(alloc, value),
        "rename" => rename_of(alloc, value),
        "leave" => Ok(leave_of(value)),
        "clear" => Ok(Some(Change::Clear)),
        _ => Ok(None),
    }
}

fn create_of(alloc: Global, value: &Value) -> Result<Option<Change<AnyGame>>, NoMemory>
    ensures exact { IfOk result (λ c. c ≡ create_in (view value.now)) }
    ensures in_form { IfOk result (λ c. IfSome c ActsInForm) }
{
    let Ok(seats) = natural_of(value, "seats", 255) else {
        return Ok(None);
    };
    let Ok(text) = text_of(value, "seed") else {
        return Ok(None);
    };
    let Some(seed) = lower_hex_of::<32, 64>(text.as_bytes()) else {
        return Ok(None);
    };
    let Ok(name) = text_of(value, "game") else {
        return Ok(None);
    };
    match by_name(alloc, name)? {
        Some(game) => Ok(Some(Change::Create {
            game,
            seats: seats as u8,
            seed,
        })),
        None => Ok(None),
    }
}

fn key_member_of(value: &Value) -> Option<Key>
    ensures { result ≡ key_under (view value.now) }
{
    match text_of(value, "key") {
        Ok(text) => key_of(text),
        Err(_) => None,
    }
}

fn join_of(alloc: Global, value: &Value) -> Result<Option<Change<AnyGame>>, NoMemory>
    ensures exact { IfOk result (λ c. c ≡ join_in (view value.now)) }
    ensures in_form { IfOk result (λ c. IfSome c ActsInForm) }
{
    let Ok(seat) = natural_of(value, "seat", 255) else {
        return Ok(None);
    };
    let Some(key) = key_member_of(value) else {
        return Ok(None);
    };
    let Ok(name) = text_of(value, "name") else {
        return Ok(None);
    };
    let name = Text::from_str(alloc, name)?;
    Ok(Some(Change::Join {
        seat: seat as u8,
        name,
        key,
    }))
}

fn rename_of(alloc: Global, value: &Value) -> Result<Option<Change<AnyGame>>, NoMemory>
    ensures exact { IfOk result (λ c. c ≡ rename_in (view value.now)) }
    ensures in_form { IfOk result (λ c. IfSome c ActsInForm) }
{
    let Ok(seat) = natural_of(value, "seat", 255) else {
        return Ok(None);
    };
    let Some(key) = key_member_of(value) else {
        return Ok(None);
    };
    let Ok(name) = text_of(value, "name") else {
        return Ok(None);
    };
    let name = Text::from_str(alloc, name)?;
    Ok(Some(Change::Rename {
        seat: seat as u8,
        key,
        name,
    }))
}

fn leave_of(value: &Value) -> Option<Change<AnyGame>>
    ensures exact { result ≡ leave_in (view value.now) }
    ensures in_form { IfSome result ActsInForm }
{
    let Ok(seat) = natural_of(value, "seat", 255) else {
        return None;
    };
    match key_member_of(value) {
        Some(key) => Some(Change::Leave {
            seat: seat as u8,
            key,
        }),
        None => None,
    }
}

#[tactic(auto, using(crate::proofs::ActForms::act_askable))]
fn act_of(alloc: Global, value: &Value) -> Result<Option<Change<AnyGame>>, NoMemory>
    requires { IsCanonical (view value.now) }
    ensures exact { IfOk result (λ c. c ≡ act_in (view value.now)) }
    ensures in_form { IfOk result (λ c. IfSome c ActsInForm) }
{
    let Ok(seat) = natural_of(value, "seat", 255) else {
        return Ok(None);
    };
    let Some(act) = value.get("act") else {
        return Ok(None);
    };
    match asked_of(alloc, act)? {
        Some(asked) => Ok(Some(Change::Act {
            seat: seat as u8,
            asked,
        })),
        None => Ok(None),
    }
}
