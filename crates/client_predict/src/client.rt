//! A client of a match.

ghost use Rattle.std.specs.Prelude.{◌≡◌, ◌≢◌, ℕ, position, IfOk, IfErr, IfNone, IfSome, OnErr, Ok, Some, option_and_then, option_map};
ghost use Rattle.std.specs.Option.{option_copied};
ghost use Rattle.wire_json.specs.Asking.{IsAskable};
ghost use Rattle.sight_reading.specs.EntryReading.{entry_in};
ghost use Rattle.sight_reading.specs.SnapshotReading.{snapshot_in};
ghost use Rattle.client_predict.specs.Acting.{act_no, IsActed};
ghost use Rattle.client_predict.specs.Client.{count_of, fresh, settled_in, shown_in};
ghost use Rattle.client_predict.specs.Reading.{Heard, Hears, change_by, change_in, changed, ended, has_ticket, hears, in_step, lost, only_told, patched_by, reads, synced, taken, unless_gone, updated, verdict};
ghost use Rattle.client_predict.specs.Rollback.{IsRolledBack};
ghost use Rattle.client_predict.specs.Stack.{snapshot_of};
ghost use Rattle.wire_json.specs.declared.reason.Reason.{Reason};
ghost use Rattle.client_predict.specs.declared.told.ActNo.TheVariants as unacted;
ghost use Rattle.client_predict.specs.declared.told.FeedNo.TheVariants as no;

use crate::change::{Change, change_of, change_onto};
use crate::part::{MOST_WAITING, Part, parts_of};
use crate::shown::Shown;
use crate::steps::{act, answer, settle};
use crate::told::{ActNo, FeedNo, Predicted, Told};
use crate::waiting::Waiting;
use game_sheet::{Bye, Key, MatchName, NoMemory, Number, Seat};
use game_trait::Game;
use json_tree::Tree;
use move_log::Entry;
use player_sight::Snapshot;
use sight_reading::{entry_of, from_value};
use std::alloc::Global;
use std::marker::Model;
use wire_json::{Asked, ServerMsg, WireNo, read_server};

/// A client of a game, with the key of a seat or none.
pub struct Client<X: Game + Drop> {
    alloc: Global,
    game: X,
    key: Option<Key>,
    gone: bool,
    part: Option<Part<X::G>>,
}

impl<X: Game + Drop> Drop for Client<X> {
    fn drop(self) {
        let Client {
            alloc: _,
            game,
            key: _,
            gone: _,
            part,
        } = self;
        drop(game);
        drop(part);
    }
}

impl<X: Game + Drop> Model for Client<X> {
    ghost use Rattle.std.specs.Prelude.{option_map};
    ghost use Rattle.client_predict.specs.Client.{Held};
    ghost use Rattle.client_predict.specs.Stack.{KeptInOrder, playing_of};

    ghost Value = { Held X X.G };

    ghost view = { λ c. record { game = c.game; key = c.key; client = record { gone = c.gone; playing = option_map playing_of c.part } } };

    ghost invariant = { λ c. KeptInOrder (X.rules c.game) c.part };
}

impl<X: Game + Drop> Client<X> {
    /// A client that has read nothing. It takes no memory.
    pub fn new(alloc: Global, game: X, key: Option<Key>) -> Self
        ensures { result ≡ record { game = game; key = key; client = fresh } }
    {
        Client {
            alloc,
            game,
            key,
            gone: false,
            part: None,
        }
    }

    /// The game of the matches that it reads. It takes no memory.
    pub fn game(&self) -> &X
        ensures { result.now ≡ self.now.game }
    {
        &self.game
    }

    /// Whether its stream has ended, or a line was none for it: then it takes in nothing but a sync. It takes no memory.
    pub fn is_gone(&self) -> bool
        ensures { result ≡ self.now.client.gone }
    {
        self.gone
    }

    /// The last snapshot that the server settled; none before the first sync. It takes no memory.
    pub fn settled(&self) -> Option<&Snapshot<X::G>>
        ensures { option_copied result ≡ settled_in self.now.client }
    {
        match &self.part {
            None => None,
            Some(part) => Some(&part.settled),
        }
    }

    /// What is shown: the settled snapshot with what is guessed of the waiting actions; none before the first sync. It takes
    /// no memory.
    #[tactic(auto, using(crate::proofs::Stacks::shows))]
    pub fn shown(&self) -> Option<Shown<'_, X::G>>
        ensures shown { option_map snapshot_of result ≡ shown_in (X.rules self.now.game) self.now.client }
        ensures nothing_waits { count_of self.now.client.playing ≡ 0
            → option_map snapshot_of result ≡ settled_in self.now.client }
    {
        match &self.part {
            None => None,
            Some(part) => Some(part.shown()),
        }
    }

    /// The seat of the viewer; none for a spectator, and before the first sync. It takes no memory.
    pub fn seat(&self) -> Option<Seat>
        ensures { result ≡ option_and_then (λ playing. playing.seat) self.now.client.playing }
    {
        match &self.part {
            None => None,
            Some(part) => part.seat,
        }
    }

    /// How many actions wait for their verdicts, at most 32. It takes no memory.
    pub fn waiting(&self) -> u32
        ensures { result ≡ count_of self.now.client.playing }
    {
        match &self.part {
            None => 0,
            Some(part) => part.waiting.len() as u32,
        }
    }

    /// Reads a line of the session.
    ///
    /// After `NoMemory` the client is as before; after another refusal and after the end of the stream it is gone until a sync.
    pub fn feed(&mut self, line: &[u8]) -> Result<Told, FeedNo>
        ensures hears { Hears self.old result self.new (reads (X.rules self.old.game) self.old.client line.now) }
        ensures rolled_back { (ticket : ℕ) (reason : Reason) → result ≡ Ok (Told.Refused ticket reason)
            → IsRolledBack (X.rules self.old.game) ticket self.old.client self.new.client }
    {
        self.read(line)
    }

    #[tactic(auto, unfolding(crate::specs::Reading::reads))]
    fn read(&mut self, line: &[u8]) -> Result<Told, FeedNo>
        ensures { Hears self.old result self.new (reads (X.rules self.old.game) self.old.client line.now) }
    {
        match read_server(self.alloc, line) {
            Ok(message) => {
                let told = self.hear(&message);
                drop(message);
                told
            }
            Err(WireNo::NoMemory) => Err(FeedNo::NoMemory),
            Err(_) => self.bad_line(),
        }
    }

    /// Takes a message in.
    fn hear(&mut self, message: &ServerMsg) -> Result<Told, FeedNo>
        ensures { Hears self.old result self.new (hears (X.rules self.old.game) self.old.client message.now) }
    {
        match message {
            ServerMsg::Sync {
                name,
                seat,
                snapshot,
                ..
            } => self.sync(*name, *seat, snapshot),
            ServerMsg::Update {
                ctx,
                entry,
                g,
                number,
            } => self.update(ctx, entry, g, *number),
            ServerMsg::Change {
                ctx,
                entry,
                gone,
                put,
                number,
            } => self.change(ctx, entry, gone, put, *number),
            ServerMsg::Ok { ticket, .. } => self.verdict(
                *ticket,
                Told::Accepted { ticket: *ticket },
            ),
            ServerMsg::No { reason, ticket, .. } => {
                self.verdict(
                    *ticket,
                    Told::Refused {
                        ticket: *ticket,
                        reason: *reason,
                    },
                )
            }
            ServerMsg::Again { ticket: None } => self.only_told(Told::Again { ticket: None }),
            ServerMsg::Again {
                ticket: Some(ticket),
            } => self.verdict(
                *ticket,
                Told::Again {
                    ticket: Some(*ticket),
                },
            ),
            ServerMsg::Bye(why) => self.end(*why),
            ServerMsg::Games(_)
            | ServerMsg::Matches(_)
            | ServerMsg::Match(_)
            | ServerMsg::Created { .. }
            | ServerMsg::Joined { .. }
            | ServerMsg::Renamed { .. }
            | ServerMsg::Left { .. }
            | ServerMsg::Asked { .. }
            | ServerMsg::Refused(_) => self.only_told(Told::Other),
        }
    }

    /// The line is none for the client, which is gone from then on.
    fn lose(&mut self, why: FeedNo) -> Result<Told, FeedNo>
        requires { why ≢ no.NoMemory }
        ensures { Hears self.old result self.new (lost self.old.client why) }
    {
        self.gone = true;
        Err(why)
    }

    /// The line is in no form.
    fn bad_line(&mut self) -> Result<Told, FeedNo>
        ensures { Hears self.old result self.new (unless_gone self.old.client (lost self.old.client no.BadLine)) }
    {
        if self.gone {
            self.lose(FeedNo::Gone)
        } else {
            self.lose(FeedNo::BadLine)
        }
    }

    /// A line that changes nothing.
    fn only_told(&mut self, told: Told) -> Result<Told, FeedNo>
        ensures { Hears self.old result self.new (unless_gone self.old.client (only_told self.old.client told)) }
    {
        if self.gone {
            return self.lose(FeedNo::Gone);
        }
        Ok(told)
    }

    /// The stream has ended.
    fn end(&mut self, why: Bye) -> Result<Told, FeedNo>
        ensures { Hears self.old result self.new (unless_gone self.old.client (ended self.old.client (Told.Ended why))) }
    {
        if self.gone {
            return self.lose(FeedNo::Gone);
        }
        self.gone = true;
        Ok(Told::Ended(why))
    }

    /// A session begins.
    fn sync(&mut self, name: MatchName, seat: Option<Seat>, snapshot: &Tree) -> Result<Told, FeedNo>
        ensures { Hears self.old result self.new (synced self.old.client name seat (snapshot_in (X.rules self.old.game) snapshot.now)) }
    {
        match from_value(self.alloc, &self.game, snapshot.value()) {
            Ok(Some(settled)) => self.begin(name, seat, settled),
            Ok(None) => self.lose(FeedNo::BadLine),
            Err(NoMemory) => Err(FeedNo::NoMemory),
        }
    }

    /// A session begins with a snapshot.
    fn begin(
        &mut self,
        name: MatchName,
        seat: Option<Seat>,
        settled: Snapshot<X::G>,
    ) -> Result<Told, FeedNo>
        ensures { Hears self.old result self.new (synced self.old.client name seat (Some settled)) }
    {
        let part = Part::new(self.alloc, name, seat, settled)?;
        self.part = Some(part);
        self.gone = false;
        Ok(Told::Synced)
    }

    /// An accepted action, with all that it led to.
    fn update(&mut self, ctx: &Tree, entry: &Tree, g: &Tree, number: Number) -> Result<Told, FeedNo>
        ensures { Hears self.old result self.new (unless_gone self.old.client
            (updated self.old.client self.old.client.playing (change_in (X.rules self.old.game) ctx.now entry.now g.now) number)) }
    {
        if self.gone {
            return self.lose(FeedNo::Gone);
        }
        match change_of(self.alloc, &self.game, ctx, entry, g) {
            Ok(Some(change)) => self.step_to(change, number),
            Ok(None) => self.lose(FeedNo::BadLine),
            Err(NoMemory) => Err(FeedNo::NoMemory),
        }
    }

    /// An accepted action of a number.
    fn step_to(&mut self, change: Change<X::G>, number: Number) -> Result<Told, FeedNo>
        ensures { Hears self.old result self.new (updated self.old.client self.old.client.playing (Some change) number) }
    {
        match self.out_of_step(number) {
            None => self.take_in(change, number),
            Some(why) => {
                drop(change);
                self.lose(why)
            }
        }
    }

    /// An accepted action, with what it changed.
    fn change(
        &mut self,
        ctx: &Tree,
        entry: &Tree,
        gone: &Tree,
        put: &Tree,
        number: Number,
    ) -> Result<Told, FeedNo>
        ensures { Hears self.old result self.new (unless_gone self.old.client
            (changed (X.rules self.old.game) self.old.client self.old.client.playing
            (entry_in (X.rules self.old.game).sheet entry.now) ctx.now gone.now put.now number)) }
    {
        if self.gone {
            return self.lose(FeedNo::Gone);
        }
        match entry_of(self.alloc, self.game.sheet(), entry.value()) {
            Ok(Some(entry)) => self.change_to(entry, ctx, gone, put, number),
            Ok(None) => self.lose(FeedNo::BadLine),
            Err(NoMemory) => Err(FeedNo::NoMemory),
        }
    }

    /// An accepted action of a number, with what it changed.
    fn change_to(
        &mut self,
        entry: Entry,
        ctx: &Tree,
        gone: &Tree,
        put: &Tree,
        number: Number,
    ) -> Result<Told, FeedNo>
        ensures { Hears self.old result self.new (in_step self.old.client self.old.client.playing number
            (patched_by (X.rules self.old.game) self.old.client self.old.client.playing entry ctx.now gone.now put.now number)) }
    {
        match self.out_of_step(number) {
            None => self.patch_by(entry, ctx, gone, put, number),
            Some(why) => {
                drop(entry);
                self.lose(why)
            }
        }
    }

    /// The next accepted action, with what it changed of the settled snapshot.
    fn patch_by(
        &mut self,
        entry: Entry,
        ctx: &Tree,
        gone: &Tree,
        put: &Tree,
        number: Number,
    ) -> Result<Told, FeedNo>
        ensures { Hears self.old result self.new
            (patched_by (X.rules self.old.game) self.old.client self.old.client.playing entry ctx.now gone.now put.now number) }
    {
        match self.read_change(entry, ctx, gone, put) {
            Ok(Some(change)) => self.take_in(change, number),
            Ok(None) => self.lose(FeedNo::BadLine),
            Err(NoMemory) => Err(FeedNo::NoMemory),
        }
    }

    /// What an entry and the changed parts show on the settled snapshot; none where no context or no state has their value.
    fn read_change(
        &self,
        entry: Entry,
        ctx: &Tree,
        gone: &Tree,
        put: &Tree,
    ) -> Result<Option<Change<X::G>>, NoMemory>
        ensures { IfOk result (λ change. change
            ≡ change_by (X.rules self.now.game) self.now.client.playing entry ctx.now gone.now put.now) }
    {
        let Some(part) = &self.part else {
            drop(entry);
            return Ok(None);
        };
        let settled = parts_of(&part.settled);
        let change = change_onto(self.alloc, &self.game, &settled, entry, ctx, gone, put)?;
        Ok(change)
    }

    /// Why an action of a number isn't the next; none where it is.
    fn out_of_step(&self, number: Number) -> Option<FeedNo>
        ensures why { IfSome result (λ why. (heard : Heard X.G)
            → in_step self.now.client self.now.client.playing number heard ≡ lost self.now.client why) }
        ensures next { IfNone result ((heard : Heard X.G)
            → in_step self.now.client self.now.client.playing number heard ≡ heard) }
        ensures starved { IfSome result (λ why. why ≢ no.NoMemory) }
    {
        let Some(part) = &self.part else {
            return Some(FeedNo::BadLine);
        };
        let have = part.settled.number;
        if number as u64 == have as u64 + 1 {
            None
        } else {
            Some(FeedNo::OutOfStep { have, was: number })
        }
    }

    /// The next accepted action is settled.
    fn take_in(&mut self, change: Change<X::G>, number: Number) -> Result<Told, FeedNo>
        ensures { Hears self.old result self.new (taken self.old.client self.old.client.playing change number) }
    {
        match &mut self.part {
            None => {
                drop(change);
                self.lose(FeedNo::BadLine)
            }
            Some(part) => match settle(self.alloc, &self.game, part, change, number) {
                Ok(()) => Ok(Told::Updated),
                Err(NoMemory) => Err(FeedNo::NoMemory),
            },
        }
    }

    /// The verdict on a waiting action, which waits no more.
    fn verdict(&mut self, ticket: u32, told: Told) -> Result<Told, FeedNo>
        ensures { Hears self.old result self.new (unless_gone self.old.client
            (verdict self.old.client self.old.client.playing ticket told)) }
    {
        if self.gone {
            return self.lose(FeedNo::Gone);
        }
        match &mut self.part {
            None => self.lose(FeedNo::UnknownTicket { ticket }),
            Some(part) => match place_of(part.waiting.as_slice(), ticket) {
                None => self.lose(FeedNo::UnknownTicket { ticket }),
                Some(place) => match answer(self.alloc, &self.game, part, place) {
                    Ok(()) => Ok(told),
                    Err(NoMemory) => Err(FeedNo::NoMemory),
                },
            },
        }
    }

    /// Makes an action: the line to send, and whether the action is shown already.
    ///
    /// The action is in its form on the wire, which is the caller's to see to. After a refusal the client is as before.
    pub fn act(&mut self, asked: &Asked) -> Result<(Vec<u8>, Predicted), ActNo>
        requires { IsAskable asked.now }
        ensures acted { IfOk result (λ r. IsActed (X.rules self.old.game) self.old asked.now (r.0).items r.1 self.new) }
        ensures refused { IfErr result (λ why. why ≢ unacted.NoMemory
            → act_no self.old.client.gone self.old.client.playing ≡ Some why) }
        ensures unchanged { OnErr result (self.new ≡ self.old) }
    {
        match &mut self.part {
            None => Err(ActNo::NotSynced),
            Some(_) if self.gone => Err(ActNo::Gone),
            Some(part) if part.waiting.len() == MOST_WAITING => Err(ActNo::TooManyWaiting),
            Some(part) => match act(self.alloc, &self.game, &self.key, part, asked) {
                Ok(made) => Ok(made),
                Err(NoMemory) => Err(ActNo::NoMemory),
            },
        }
    }
}

/// The place of the oldest action with a ticket.
fn place_of(waiting: &[Waiting], ticket: u32) -> Option<usize>
    ensures { result ≡ position (has_ticket ticket) waiting.now }
{
    waiting.iter().position(|w| w.ticket == ticket)
}
