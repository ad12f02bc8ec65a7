//! A client of a world, with its links.

ghost use Rattle.std.specs.Prelude.{◌≡◌, ◌∷◌, [], IfOk, OnOk, Some};
ghost use Rattle.wire_json.specs.Asking.{IsAskable};
ghost use Rattle.client_world.specs.Outcomes.{PeerActs, PeerReads};
ghost use Rattle.client_world.specs.Peers.{no_peer};

use crate::link::Link;
use crate::player::Player;
use client_predict::{ActNo, FeedNo, Predicted, Told};
use game_sheet::NoMemory;
use std::alloc::Global;
use std::mem;
use wire_json::Asked;

/// A client's place in a world: the client, once one was attached, and the links to and from its session.
pub struct Peer {
    /// The client.
    pub player: Option<Player>,
    /// What is on its way to the session.
    pub up: Link,
    /// What is on its way to the client.
    pub down: Link,
}

impl Drop for Peer {
    fn drop(self) {
        let Peer { player, up, down } = self;
        drop(player);
        drop(up);
        drop(down);
    }
}

impl Peer {
    /// A place without a client. It takes no memory.
    pub(crate) fn new(alloc: Global) -> Self
        ensures { result ≡ no_peer }
    {
        Peer {
            player: None,
            up: Link::new(alloc),
            down: Link::new(alloc),
        }
    }

    /// The client acts. The line of its action goes on the up link.
    pub(crate) fn act(&mut self, asked: &Asked) -> Result<Result<Predicted, ActNo>, NoMemory>
        requires { IsAskable asked.now }
        ensures { IfOk result (λ told. PeerActs self.old asked.now told self.new) }
    {
        let Some(player) = &mut self.player else {
            return Ok(Err(ActNo::NotSynced));
        };
        match player.act(asked) {
            Ok((line, told)) => {
                self.up.push(line)?;
                Ok(Ok(told))
            }
            Err(why) => Ok(Err(why)),
        }
    }

    /// The client reads the oldest line of its down link, if there is one.
    pub(crate) fn read_next(&mut self) -> Option<Result<Told, FeedNo>>
        ensures { PeerReads self.old result self.new }
    {
        let Some(player) = &mut self.player else {
            return None;
        };
        let Some(line) = self.down.pop() else {
            return None;
        };
        let heard = player.feed(line.as_slice());
        drop(line);
        Some(heard)
    }

    /// Both links lose their lines. It takes no memory.
    pub(crate) fn clear(&mut self)
        ensures { self.new ≡ record self.old { up = []; down = [] } }
    {
        self.up.clear();
        self.down.clear();
    }

    /// Another client takes the place, with its first line on the up link and no other line on its links.
    pub(crate) fn seat(&mut self, player: Player, line: Vec<u8>) -> Result<(), NoMemory>
        ensures { OnOk result (self.new ≡ record { player = Some player; up = line.items ∷ []; down = [] }) }
    {
        self.clear();
        put(&mut self.player, player);
        self.up.push(line)
    }
}

/// Puts a value in the place of another.
fn put<T: Drop>(place: &mut Option<T>, value: T)
    ensures { place.new ≡ Some value }
{
    let old = mem::replace(place, Some(value));
    drop(old);
}
