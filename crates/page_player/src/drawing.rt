//! What a page writes.

ghost use Rattle.std.specs.Prelude.{◌≡◌, ◌++◌, codes, false, IfOk, OnOk, None};
ghost use Rattle.client_predict.specs.Client.{shown_in};
ghost use Rattle.client_predict.specs.Stack.{snapshot_of};
ghost use Rattle.link_play.specs.Doing.{snapshot_text, sync_line};
ghost use Rattle.link_play.specs.Sitting.{on_line};
ghost use Rattle.page_player.specs.Drawing.{drawn, drawn_of, to_send};
ghost use Rattle.serde_json.specs.View.{view};
ghost use Rattle.serde_json.specs.Written.{compact_text, has_float};

use client_predict::{Client, Shown};
use game_sheet::{MatchName, NoMemory, Viewer};
use game_trait::Game;
use json_tree::line_of;
use player_sight::snapshot_value;
use serde_json::Value;
use std::alloc::Global;
use wire_json::{ClientMsg, Protocol, write_client};

/// Adds that there is nothing to draw.
pub(crate) fn draw_nothing(text: &mut Vec<u8>) -> Result<(), NoMemory>
    ensures { OnOk result (text.new.items ≡ text.old.items ++ drawn None) }
{
    text.extend_from_slice(b"=null\n")?;
    Ok(())
}

/// Adds what a client shows.
pub(crate) fn draw<X: Game + Drop>(
    alloc: Global,
    client: &Client<X>,
    text: &mut Vec<u8>,
) -> Result<(), NoMemory>
    ensures { OnOk result (text.new.items ≡ text.old.items ++ drawn_of (X.rules client.now.game) (shown_in (X.rules client.now.game) client.now.client)) }
{
    match client.shown() {
        None => draw_nothing(text),
        Some(shown) => draw_shown(alloc, client.game(), &shown, text),
    }
}

/// Adds a snapshot that is shown.
fn draw_shown<X: Game>(
    alloc: Global,
    game: &X,
    shown: &Shown<'_, X::G>,
    text: &mut Vec<u8>,
) -> Result<(), NoMemory>
    ensures { OnOk result (text.new.items ≡ text.old.items ++ on_line (codes "=" ++ snapshot_text (X.rules game.now) (snapshot_of shown.now))) }
{
    let g = game.to_value(alloc, shown.g)?;
    let value = snapshot_value(alloc, game.sheet(), shown.number, shown.ctx, g, shown.log)?;
    put_value(alloc, text, value)
}

/// Adds a line with a value that is to be drawn.
fn put_value(alloc: Global, text: &mut Vec<u8>, value: Value) -> Result<(), NoMemory>
    requires { has_float (view value) ≡ false }
    ensures { OnOk result (text.new.items ≡ text.old.items ++ on_line (codes "=" ++ compact_text (view value))) }
{
    let line = line_of(alloc, &value);
    drop(value);
    let Ok(line) = line else {
        return Err(NoMemory);
    };
    text.extend_from_slice(b"=")?;
    text.extend_from_slice(line.as_slice())?;
    Ok(())
}

/// Adds a client's line that is to be sent.
pub(crate) fn put_line(text: &mut Vec<u8>, line: &[u8]) -> Result<(), NoMemory>
    ensures { OnOk result (text.new.items ≡ text.old.items ++ to_send line.now) }
{
    text.extend_from_slice(b">")?;
    text.extend_from_slice(line)?;
    Ok(())
}

/// The line that asks for the stream of a match.
pub(crate) fn sync_line(alloc: Global, name: MatchName, viewer: Viewer) -> Result<Vec<u8>, NoMemory>
    ensures { IfOk result (λ line. line.items ≡ sync_line (record { name = name; viewer = viewer })) }
{
    let message = ClientMsg::Sync {
        name,
        viewer,
        protocol: Protocol::One,
    };
    let line = write_client(alloc, &message);
    drop(message);
    line
}
