//! What a bot's link makes of the lines that it is sent.

ghost use Rattle.std.specs.Prelude.{◌≡◌, ◌≢◌, ◌<◌, ◌≤◌, length, take, drop, ◌∷◌, ◌++◌, [], None, Some, fold, IfOk, IfSome, IsSome, OnErr, OnOk, is_some};
ghost use Rattle.client_predict.specs.Client.{fresh};
ghost use Rattle.client_predict.specs.Reading.{reads};
ghost use Rattle.game_sheet.specs.Lines.{first_length, lines};
ghost use Rattle.std.specs.Option.{option_copied};
ghost use Rattle.wire_json.specs.Asking.{IsAskable};
ghost use Rattle.board_links.specs.Answers.{AreLines};
ghost use Rattle.bot_sitter.specs.Ears.{ActedBy, ActsBy, quiet_ear};
ghost use Rattle.bot_sitter.specs.Hears.{client_after, clients_after};
ghost use Rattle.bot_sitter.specs.Sitting.{is_above, is_over, may_ask, settled_in};
ghost use Rattle.bot_sitter.specs.Told.{told_line};

use crate::told::Told;
use client_predict::{Client, FeedNo};
use game_sheet::{Key, NoMemory, Number};
use game_trait::Game;
use player_sight::Snapshot;
use std::alloc::Global;
use std::marker::Model;
use wire_json::Asked;

/// What a bot's link has heard: what lines told it, and its client, once it has one.
pub struct Ear<X: Game + Drop> {
    alloc: Global,
    game: X,
    spare: Option<X>,
    told: Told,
    client: Option<Client<X>>,
}

impl<X: Game + Drop> Drop for Ear<X> {
    fn drop(self) {
        let Ear {
            alloc: _,
            game,
            spare,
            told: _,
            client,
        } = self;
        drop(game);
        drop(spare);
        drop(client);
    }
}

impl<X: Game + Drop> Model for Ear<X> {
    ghost use Rattle.std.specs.Prelude.{option_map};
    ghost use Rattle.bot_sitter.specs.Ears.{Ear, IsEar};

    ghost Value = { Ear X X.G };

    ghost view = { λ e. record { game = e.game; told = e.told; client = option_map (λ held. held.client) e.client } };

    ghost invariant = { λ e. IsEar e.game e.spare e.client e.told };
}

impl<X: Game + Drop> Ear<X> {
    /// Nothing was heard yet. The game is handed in twice, since the client wants one of its own.
    pub fn new(alloc: Global, game: X, spare: X) -> Self
        requires { spare ≡ game }
        ensures { result ≡ quiet_ear game }
    {
        Ear {
            alloc,
            game,
            spare: Some(spare),
            told: Told::nothing(),
            client: None,
        }
    }

    /// What lines have told.
    pub fn told(&self) -> Told
        ensures { result ≡ self.now.told }
    {
        self.told
    }

    /// The game.
    pub fn game(&self) -> &X
        ensures { result.now ≡ self.now.game }
    {
        &self.game
    }

    /// What its client has settled.
    pub fn settled(&self) -> Option<&Snapshot<X::G>>
        ensures { option_copied result ≡ settled_in self.now.client }
    {
        match &self.client {
            None => None,
            Some(client) => client.settled(),
        }
    }

    /// Whether what its client has settled is the end of the match.
    pub fn is_over(&self) -> bool
        ensures { result ≡ is_over (settled_in self.now.client) }
    {
        match self.settled() {
            None => false,
            Some(settled) => settled.ctx.over.is_some(),
        }
    }

    /// Whether it has its client.
    pub fn has_client(&self) -> bool
        ensures { result ≡ is_some self.now.client }
    {
        self.client.is_some()
    }

    /// Whether its client is synced, waits for nothing, and has settled a number above this one.
    pub fn may_ask(&self, last: Option<Number>) -> bool
        ensures { result ≡ may_ask last self.now.client }
    {
        let Some(client) = &self.client else {
            return false;
        };
        if client.is_gone() {
            return false;
        }
        let Some(settled) = client.settled() else {
            return false;
        };
        client.waiting() == 0 && is_above(last, settled.number)
    }

    /// Makes an act, whose line is given without its newline. Without memory nothing changes.
    pub fn act(&mut self, asked: &Asked) -> Result<Vec<u8>, NoMemory>
        requires { IsAskable asked.now }
        ensures acted { IfOk result (λ line. ActsBy (X.rules self.old.game) asked.now line.items self.old self.new) }
        ensures unchanged { OnErr result (self.new ≡ self.old) }
    {
        let Some(client) = &mut self.client else {
            return Err(NoMemory);
        };
        act_of(client, asked)
    }

    /// Hears lines. Without memory some first of them were heard.
    pub fn hear_all(&mut self, bytes: &[u8]) -> Result<(), NoMemory>
        ensures told { OnOk result (self.new.told ≡ fold told_line self.old.told (lines bytes.now)) }
        ensures client { OnOk result (self.new.client ≡ clients_after (X.rules self.old.game) self.old.client (lines bytes.now)) }
        ensures game { self.new.game ≡ self.old.game }
        ensures seated { IsSome self.old.client → IsSome self.new.client }
    {
        let mut rest = bytes;
        while !rest.is_empty() {
            let length = first_length(rest);
            self.hear(&rest[..length])?;
            rest = &rest[length..];
        }
        Ok(())
    }

    /// Hears a line. Without memory it may be heard in part.
    fn hear(&mut self, line: &[u8]) -> Result<(), NoMemory>
        ensures told { OnOk result (self.new.told ≡ told_line self.old.told line.now) }
        ensures client { OnOk result (self.new.client ≡ client_after (X.rules self.old.game) self.old.client line.now) }
        ensures game { self.new.game ≡ self.old.game }
        ensures seated { IsSome self.old.client → IsSome self.new.client }
    {
        self.told.read(self.alloc, line)?;
        match &mut self.client {
            Some(client) => feed(client, line),
            None => {
                if let Some(key) = self.told.key {
                    self.client = begun(self.alloc, &mut self.spare, key);
                }
                Ok(())
            }
        }
    }
}

/// Whether a number is above the last one.
fn is_above(last: Option<Number>, number: Number) -> bool
    ensures { result ≡ is_above last number }
{
    match last {
        None => true,
        Some(before) => before < number,
    }
}

/// Has the client read a line. Without memory it is as before.
fn feed<X: Game + Drop>(client: &mut Client<X>, line: &[u8]) -> Result<(), NoMemory>
    ensures read { OnOk result (client.new ≡ record { game = client.old.game; key = client.old.key; client = (reads (X.rules client.old.game) client.old.client line.now).client }) }
    ensures unchanged { OnErr result (client.new ≡ client.old) }
{
    match client.feed(line) {
        Err(FeedNo::NoMemory) => Err(NoMemory),
        _ => Ok(()),
    }
}

/// Takes the newline off a line.
pub(crate) fn cut_newline(line: &mut Vec<u8>)
    requires { AreLines line.old.items }
    ensures { line.new.items ++ 10 ∷ [] ≡ line.old.items }
{
    let _newline = line.pop();
}

/// Has the client make an act, whose line is given without its newline. Without memory nothing changes.
fn act_of<X: Game + Drop>(client: &mut Client<X>, asked: &Asked) -> Result<Vec<u8>, NoMemory>
    requires { IsAskable asked.now }
    ensures acted { IfOk result (λ line. ActedBy (X.rules client.old.game) asked.now line.items client.old client.new) }
    ensures unchanged { OnErr result (client.new ≡ client.old) }
{
    let Ok((line, _predicted)) = client.act(asked) else {
        return Err(NoMemory);
    };
    let mut line = line;
    cut_newline(&mut line);
    Ok(line)
}

/// A client of the spare game.
fn begun<X: Game + Drop>(alloc: Global, spare: &mut Option<X>, key: Key) -> Option<Client<X>>
    ensures { (game : X) → spare.old ≡ Some game → result ≡ Some (record { game = game; key = Some key; client = fresh }) }
{
    match spare.take() {
        Some(game) => Some(Client::new(alloc, game, Some(key))),
        None => None,
    }
}

/// How many bytes the first line has; 0 where there is none.
fn first_length(bytes: &[u8]) -> usize
    ensures value { result ≡ first_length bytes.now }
    ensures within { result ≤ length bytes.now }
    ensures some { 0 < length bytes.now → 0 < result }
    ensures line { 0 < length bytes.now → lines bytes.now ≡ take result bytes.now ∷ lines (drop result bytes.now) }
{
    let mut length = 0;
    for byte in bytes {
        length += 1;
        if *byte == b'\n' {
            return length;
        }
    }
    length
}
