//! The clients of a world, with their links.

ghost use Rattle.std.specs.Prelude.{◌≡◌, ◌<◌, ◌++◌, ◌∷◌, ℕ, [], IfOk, OnOk, Some, option_map, replicate, length};
ghost use Rattle.any_game.specs.GameKind.{GameKind};
ghost use Rattle.any_game.specs.declared.any_g.AnyG.{AnyG};
ghost use Rattle.game_sheet.specs.Lines.{lines};
ghost use Rattle.world_history.specs.World.{World, new_world, with_client, with_down, with_up};
ghost use Rattle.wire_json.specs.Asking.{IsAskable};
ghost use Rattle.client_world.specs.Outcomes.{Acted, PopsUp, ReadsNext};
ghost use Rattle.client_world.specs.Peers.{ArePeers};

use crate::handing::put_lines;
use crate::peer::Peer;
use crate::player::Player;
use client_predict::{ActNo, FeedNo, Predicted, Told};
use game_sheet::NoMemory;
use std::alloc::Global;
use std::marker::Model;
use wire_json::Asked;

/// How many clients a world has.
const CLIENTS: u8 = 32;

/// The 32 clients of a world, with their links. Contracts see them, client 0's first.
pub struct Peers {
    each: Vec<Peer>,
}

impl Drop for Peers {
    fn drop(self) {
        let Peers { each } = self;
        drop(each);
    }
}

impl Model for Peers {
    ghost use Rattle.std.specs.Prelude.{◌≡◌, List, length};
    ghost use Rattle.client_world.specs.declared.peer.Peer.{Peer};

    ghost Value = { List Peer };

    ghost view = { λ p. p.each.items };

    ghost invariant = { λ p. length p.each.items ≡ 32 };
}

impl Peers {
    /// Places without clients.
    pub(crate) fn new(alloc: Global) -> Result<Self, NoMemory>
        ensures { (rooms : ℕ) → IfOk result (λ peers. ArePeers peers (new_world rooms)) }
    {
        let mut each = Vec::with_capacity(alloc, CLIENTS as usize)?;
        for _client in 0..CLIENTS {
            each.push_reserved(Peer::new(alloc));
        }
        Ok(Peers { each })
    }

    /// The client of a place, once one was attached. It takes no memory.
    pub(crate) fn player(&self, client: u8) -> Option<&Player>
        requires { client < 32 }
        ensures { (w : World GameKind AnyG) → ArePeers self.now w → option_map (λ player. player.now) result ≡ w.clients client }
    {
        self.each[client as usize].player.as_ref()
    }

    /// Takes the oldest line off a client's up link. It takes no memory.
    pub(crate) fn pop_up(&mut self, client: u8) -> Option<Vec<u8>>
        requires { client < 32 }
        ensures { (w : World GameKind AnyG) → ArePeers self.old w → PopsUp w client (option_map (λ line. line.items) result) self.new }
    {
        self.each[client as usize].up.pop()
    }

    /// Puts a line on a client's down link.
    pub(crate) fn push_down(&mut self, client: u8, line: Vec<u8>) -> Result<(), NoMemory>
        requires { client < 32 }
        ensures { (w : World GameKind AnyG) → ArePeers self.old w
            → OnOk result (ArePeers self.new (with_down w client (w.down client ++ line.items ∷ []))) }
    {
        self.each[client as usize].down.push(line)
    }

    /// Puts the lines of some bytes on a client's down link.
    pub(crate) fn push_all_down(
        &mut self,
        alloc: Global,
        client: u8,
        bytes: &[u8],
    ) -> Result<(), NoMemory>
        requires { client < 32 }
        ensures { (w : World GameKind AnyG) → ArePeers self.old w
            → OnOk result (ArePeers self.new (with_down w client (w.down client ++ lines bytes.now))) }
    {
        put_lines(alloc, &mut self.each[client as usize].down, bytes)
    }

    /// A client's links lose their lines. It takes no memory.
    pub(crate) fn clear(&mut self, client: u8)
        requires { client < 32 }
        ensures { (w : World GameKind AnyG) → ArePeers self.old w → ArePeers self.new (with_down (with_up w client []) client []) }
    {
        self.each[client as usize].clear();
    }

    /// Another client takes a place, with its first line on the up link and no other line on its links.
    pub(crate) fn seat(&mut self, client: u8, player: Player, line: Vec<u8>) -> Result<(), NoMemory>
        requires { client < 32 }
        ensures { (w : World GameKind AnyG) → ArePeers self.old w
            → OnOk result (ArePeers self.new (with_up (with_client (with_down (with_up w client []) client []) client player) client (line.items ∷ []))) }
    {
        self.each[client as usize].seat(player, line)
    }

    /// A client acts. The line of its action goes on its up link.
    pub(crate) fn act(
        &mut self,
        client: u8,
        asked: &Asked,
    ) -> Result<Result<Predicted, ActNo>, NoMemory>
        requires client { client < 32 }
        requires form { IsAskable asked.now }
        ensures { (w : World GameKind AnyG) → ArePeers self.old w → IfOk result (λ told. Acted w client asked.now told self.new) }
    {
        self.each[client as usize].act(asked)
    }

    /// A client reads the oldest line of its down link, if there is one.
    pub(crate) fn read_next(&mut self, client: u8) -> Option<Result<Told, FeedNo>>
        requires { client < 32 }
        ensures { (w : World GameKind AnyG) → ArePeers self.old w → ReadsNext w client result self.new }
    {
        self.each[client as usize].read_next()
    }
}
