//! The lines that show what a client holds.

ghost use Rattle.std.specs.Prelude.{◌≡◌, ◌++◌, ◌∷◌, codes, false, OnOk};
ghost use Rattle.serde_json.specs.View.{view};
ghost use Rattle.serde_json.specs.Written.{compact_text, has_float};
ghost use Rattle.client_predict.specs.Stack.{snapshot_of};
ghost use Rattle.world_history.specs.WorldScript.{snapshot_text};
ghost use Rattle.world_history.specs.Words.{of_client};

use client_predict::Shown;
use game_sheet::NoMemory;
use game_trait::Game;
use json_tree::line_of;
use player_sight::{Snapshot, snapshot_value, to_value};
use serde_json::Value;
use std::alloc::Global;

/// Adds the line with the snapshot that the server settled last.
pub(crate) fn put_settled<X: Game>(
    alloc: Global,
    text: &mut Vec<u8>,
    client: u8,
    game: &X,
    settled: &Snapshot<X::G>,
) -> Result<(), NoMemory>
    ensures { OnOk result (text.new.items ≡ text.old.items
        ++ of_client client (codes "settled " ++ snapshot_text X.rules game.now settled.now)) }
{
    let value = to_value(alloc, game, settled)?;
    put_value(alloc, text, client, "settled", value)
}

/// Adds the line with the snapshot that is shown.
pub(crate) fn put_shown<X: Game>(
    alloc: Global,
    text: &mut Vec<u8>,
    client: u8,
    game: &X,
    shown: &Shown<'_, X::G>,
) -> Result<(), NoMemory>
    ensures { OnOk result (text.new.items ≡ text.old.items
        ++ of_client client (codes "shown " ++ snapshot_text X.rules game.now (snapshot_of shown.now))) }
{
    let g = game.to_value(alloc, shown.g)?;
    let value = snapshot_value(alloc, game.sheet(), shown.number, shown.ctx, g, shown.log)?;
    put_value(alloc, text, client, "shown", value)
}

/// Adds a client's line with a value behind a word.
fn put_value(
    alloc: Global,
    text: &mut Vec<u8>,
    client: u8,
    word: &str,
    value: Value,
) -> Result<(), NoMemory>
    requires { has_float (view value) ≡ false }
    ensures { OnOk result (text.new.items ≡ text.old.items
        ++ of_client client (word.now ++ 32 ∷ compact_text (view value))) }
{
    let line = line_of(alloc, &value);
    drop(value);
    let Ok(line) = line else {
        return Err(NoMemory);
    };
    let front = format!(in alloc; "{client} {word} ")?;
    text.extend_from_slice(front.as_bytes())?;
    text.extend_from_slice(line.as_slice())?;
    Ok(())
}
