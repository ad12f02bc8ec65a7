//! The lines that show what a client holds.

ghost use Rattle.std.specs.Prelude.{◌≡◌, ◌++◌, ◌∷◌, codes, false, IfOk, OnOk};
ghost use Rattle.serde_json.specs.View.{view};
ghost use Rattle.serde_json.specs.Written.{compact_text, has_float};
ghost use Rattle.client_predict.specs.Stack.{snapshot_of};
ghost use Rattle.client_predict.specs.Client.{settled_in, shown_in};
ghost use Rattle.link_play.specs.Doing.{shows, snapshot_text};
ghost use Rattle.link_play.specs.Sitting.{on_line};

use client_predict::{Client, Shown};
use game_sheet::NoMemory;
use game_trait::Game;
use json_tree::line_of;
use player_sight::{Snapshot, snapshot_value, to_value};
use serde_json::Value;
use std::alloc::Global;

/// What a client holds: the snapshot that the server settled last, and the one that is shown.
pub(crate) fn show_client<X: Game + Drop>(
    alloc: Global,
    client: &Client<X>,
) -> Result<Vec<u8>, NoMemory>
    ensures { IfOk result (λ text. text.items ≡ shows (X.rules client.now.game) client.now.client) }
{
    let Some(settled) = client.settled() else {
        return Ok(Vec::from_slice(alloc, b"none\n")?);
    };
    let Some(shown) = client.shown() else {
        return Ok(Vec::from_slice(alloc, b"none\n")?);
    };
    let mut text = Vec::new(alloc);
    put_settled(alloc, &mut text, client.game(), settled)?;
    put_shown(alloc, &mut text, client.game(), &shown)?;
    Ok(text)
}

/// Adds the line with the snapshot that the server settled last.
fn put_settled<X: Game>(
    alloc: Global,
    text: &mut Vec<u8>,
    game: &X,
    settled: &Snapshot<X::G>,
) -> Result<(), NoMemory>
    ensures { OnOk result (text.new.items ≡ text.old.items
        ++ on_line (codes "settled " ++ snapshot_text (X.rules game.now) settled.now)) }
{
    let value = to_value(alloc, game, settled)?;
    put_value(alloc, text, "settled ", value)
}

/// Adds the line with the snapshot that is shown.
fn put_shown<X: Game>(
    alloc: Global,
    text: &mut Vec<u8>,
    game: &X,
    shown: &Shown<'_, X::G>,
) -> Result<(), NoMemory>
    ensures { OnOk result (text.new.items ≡ text.old.items
        ++ on_line (codes "shown " ++ snapshot_text (X.rules game.now) (snapshot_of shown.now))) }
{
    let g = game.to_value(alloc, shown.g)?;
    let value = snapshot_value(alloc, game.sheet(), shown.number, shown.ctx, g, shown.log)?;
    put_value(alloc, text, "shown ", value)
}

/// Adds a line with a value behind a word.
fn put_value(alloc: Global, text: &mut Vec<u8>, word: &str, value: Value) -> Result<(), NoMemory>
    requires { has_float (view value) ≡ false }
    ensures { OnOk result (text.new.items ≡ text.old.items ++ on_line (word.now ++ compact_text (view value))) }
{
    let line = line_of(alloc, &value);
    drop(value);
    let Ok(line) = line else {
        return Err(NoMemory);
    };
    text.extend_from_slice(word.as_bytes())?;
    text.extend_from_slice(line.as_slice())?;
    Ok(())
}
