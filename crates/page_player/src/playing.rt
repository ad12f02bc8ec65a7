//! What a client makes of a line of the server and of an action.

ghost use Rattle.std.specs.Prelude.{◌≡◌, ◌++◌, OnOk};
ghost use Rattle.page_player.specs.Page.{acted, heard};
ghost use Rattle.wire_json.specs.Asking.{IsAskable};

use crate::drawing::put_line;
use any_game::AnyGame;
use client_predict::{ActNo, Client, FeedNo};
use game_sheet::NoMemory;
use wire_json::Asked;

/// Reads a line of the server.
pub(crate) fn hear(client: &mut Client<AnyGame>, line: &[u8]) -> Result<(), NoMemory>
    ensures { OnOk result (client.new ≡ heard client.old line.now) }
{
    match client.feed(line) {
        Err(FeedNo::NoMemory) => Err(NoMemory),
        _ => Ok(()),
    }
}

/// Makes an action, and adds its line to send. Where the client makes none, nothing is added.
#[tactic(auto, using(crate::proofs::Acted::made, crate::proofs::Acted::not_made))]
pub(crate) fn act(
    client: &mut Client<AnyGame>,
    asked: &Asked,
    text: &mut Vec<u8>,
) -> Result<(), NoMemory>
    requires { IsAskable asked.now }
    ensures client { OnOk result (client.new ≡ (acted client.old asked.now).0) }
    ensures text { OnOk result (text.new.items ≡ text.old.items ++ (acted client.old asked.now).1) }
{
    match client.act(asked) {
        Ok((line, _)) => {
            let put = put_line(text, line.as_slice());
            drop(line);
            put
        }
        Err(ActNo::NoMemory) => Err(NoMemory),
        Err(_) => Ok(()),
    }
}
