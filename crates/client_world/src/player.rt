//! The client of a game, beside the game.

ghost use Rattle.std.specs.Prelude.{◌≡◌, ◌≢◌, ◌++◌, ◌∷◌, [], IfOk, IfErr, OnErr, Some, Ok};
ghost use Rattle.any_game.specs.AnyRules.{any_rules};
ghost use Rattle.client_predict.specs.Acting.{act_no, IsActed};
ghost use Rattle.client_predict.specs.Client.{fresh, settled_in, shown_in};
ghost use Rattle.client_predict.specs.Reading.{Hears, reads};
ghost use Rattle.client_predict.specs.declared.told.ActNo.TheVariants as unacted;
ghost use Rattle.hall_history.specs.Opening.{seat_key};
ghost use Rattle.world_history.specs.WorldScript.{key_of, shown_text};
ghost use Rattle.wire_json.specs.Asking.{IsAskable};

mod choosing;

use crate::showing::{put_settled, put_shown};
use crate::telling::told;
use any_game::AnyGame;
use client_predict::{ActNo, Client, FeedNo, Predicted, Told};
use game_sheet::{Key, NoMemory, Seat};
use std::alloc::Global;
use std::marker::Model;
use wire_json::Asked;

/// A client of a game that is picked by its name. Contracts see the client.
pub struct Player {
    game: AnyGame,
    client: Client<AnyGame>,
}

impl Drop for Player {
    fn drop(self) {
        let Player { game, client } = self;
        drop(game);
        drop(client);
    }
}

impl Model for Player {
    ghost use Rattle.std.specs.Prelude.{◌≡◌};
    ghost use Rattle.any_game.specs.GameKind.{GameKind};
    ghost use Rattle.any_game.specs.declared.any_g.AnyG.{AnyG};
    ghost use Rattle.client_predict.specs.Client.{Held};

    ghost Value = { Held GameKind AnyG };

    ghost view = { λ p. p.client };

    ghost invariant = { λ p. p.client.game ≡ p.game };
}

impl Player {
    /// A client that has read nothing, with the key of its seat.
    pub(crate) fn new(alloc: Global, game: AnyGame, seat: Option<Seat>) -> Result<Self, NoMemory>
        ensures { IfOk result (λ p. p ≡ record { game = game; key = key_of seat; client = fresh }) }
    {
        match game.copy_game(alloc) {
            Ok(copied) => Ok(Player {
                client: Client::new(alloc, copied, key_of(seat)),
                game,
            }),
            Err(no) => {
                drop(game);
                Err(no)
            }
        }
    }

    /// Makes an action: the line to send, and whether the action is shown already. After a refusal the client is as before.
    pub(crate) fn act(&mut self, asked: &Asked) -> Result<(Vec<u8>, Predicted), ActNo>
        requires { IsAskable asked.now }
        ensures acted { IfOk result (λ r. IsActed (any_rules self.old.game) self.old asked.now (r.0).items r.1 self.new) }
        ensures refused { IfErr result (λ why. why ≢ unacted.NoMemory
            → act_no self.old.client.gone self.old.client.playing ≡ Some why) }
        ensures unchanged { OnErr result (self.new ≡ self.old) }
    {
        self.client.act(asked)
    }

    /// Reads a line of its session.
    pub(crate) fn feed(&mut self, line: &[u8]) -> Result<Told, FeedNo>
        ensures { Hears self.old result self.new (reads (any_rules self.old.game) self.old.client line.now) }
    {
        self.client.feed(line)
    }

    /// What it holds, as a world shows it of a client.
    pub(crate) fn show(&self, alloc: Global, client: u8) -> Result<Vec<u8>, NoMemory>
        ensures { IfOk result (λ text. text.items ≡ shown_text any_rules client self.now.game
            (settled_in self.now.client) (shown_in (any_rules self.now.game) self.now.client)) }
    {
        let Some(settled) = self.client.settled() else {
            return told(alloc, client, "none");
        };
        let Some(shown) = self.client.shown() else {
            return told(alloc, client, "none");
        };
        let mut text = Vec::new(alloc);
        put_settled(alloc, &mut text, client, &self.game, settled)?;
        put_shown(alloc, &mut text, client, &self.game, &shown)?;
        Ok(text)
    }
}

/// The key of a seat; none for a spectator.
fn key_of(seat: Option<Seat>) -> Option<Key>
    ensures { result ≡ key_of seat }
{
    match seat {
        Some(seat) => Some(seat_key(seat)),
        None => None,
    }
}

/// The key by which a seat's player is known: its number.
pub(crate) fn seat_key(seat: Seat) -> Key
    ensures { result ≡ seat_key seat }
{
    Key::new([0, 0, 0, 0, 0, 0, 0, 0, 0, 0, 0, 0, 0, 0, 0, seat])
}
