//! A bot's link as far as it goes without its bot: what it was sent, and what it does next.

ghost use Rattle.std.specs.Prelude.{◌≡◌, ◌++◌, ◌∷◌, ℕ, [], false, true, take, IfOk, IsSome, None, OnErr, OnOk, Option, Some, length, slice_get, ◌≤◌};
ghost use Rattle.std.specs.Option.{option_copied};
ghost use Rattle.board_links.specs.Answers.{AreLines, OutRaises, Sends};
ghost use Rattle.game_sheet.specs.SheetFits.{SheetFits};
ghost use Rattle.wire_json.specs.Asking.{IsAskable};
ghost use Rattle.wire_json.specs.ClientText.{IsSendable};
ghost use Rattle.game_sheet.specs.Lines.{lines};
ghost use Rattle.bot_sitter.specs.Ears.{IsLine};
ghost use Rattle.client_predict.specs.Following.{followed};
ghost use Rattle.bot_sitter.specs.Given.{GivesAct, bot_name, move_asked, option_asked, gave_join, gave_leave, gave_sync, join_of, leave_of, sync_of, with_last};
ghost use Rattle.bot_sitter.specs.Sitting.{Stays, bot_seat_of, is_above, may_ask, new_sitting, settled_in, step_of, told_step};
ghost use Rattle.bot_sitter.specs.declared.step.Step.TheVariants as step;
ghost use Rattle.player_sight.specs.declared.shown.Snapshot.{Snapshot as Shown};
ghost use Rattle.bot_sitter.specs.Hearing.{AreCut, Grows, Hears, IsKept};
ghost use Rattle.bot_sitter.specs.Seen.{Agrees, settled_of};

use crate::ear::{Ear, cut_newline};
use crate::gave::Gave;
use crate::step::Step;
use crate::told::Told;
use board_links::Out;
use game_sheet::{Args, Key, List, MatchName, MoveId, NoMemory, Number, Seat, Sheet, Text};
use game_trait::Game;
use player_sight::Snapshot;
use std::alloc::Global;
use std::marker::Model;
use wire_json::{Asked, ClientMsg, Protocol, write_client};

/// A bot's link without its bot.
pub struct Sitter<X: Game + Drop> {
    alloc: Global,
    ear: Ear<X>,
    name: MatchName,
    seat: Seat,
    sent: Vec<u8>,
    gave: Gave,
    asked_out: bool,
    last: Option<Number>,
    starved: bool,
}

impl<X: Game + Drop> Drop for Sitter<X> {
    fn drop(self) {
        let Sitter {
            alloc: _,
            ear,
            name: _,
            seat: _,
            sent,
            gave: _,
            asked_out: _,
            last: _,
            starved: _,
        } = self;
        drop(ear);
        drop(sent);
    }
}

impl<X: Game + Drop> Model for Sitter<X> {
    ghost use Rattle.bot_sitter.specs.Hearing.{IsHeard};
    ghost use Rattle.bot_sitter.specs.Sitting.{Sitting};

    ghost Value = { Sitting X X.G };

    ghost view = { λ s. record {
      game = s.ear.game;
      name = s.name;
      seat = s.seat;
      sent = s.sent.items;
      starved = s.starved;
      client = s.ear.client;
      gave = s.gave;
      asked_out = s.asked_out;
      last = s.last;
    } };

    ghost invariant = { λ s. IsHeard (X.rules s.ear.game) s.starved s.sent.items s.ear.told s.ear.client };
}

impl<X: Game + Drop> Sitter<X> {
    /// A link that was sent nothing. The game is handed in twice.
    pub fn new(alloc: Global, game: X, spare: X, name: MatchName, seat: Seat) -> Self
        requires { spare ≡ game }
        ensures { result ≡ new_sitting game name seat }
    {
        Sitter {
            alloc,
            ear: Ear::new(alloc, game, spare),
            name,
            seat,
            sent: Vec::new(alloc),
            gave: Gave {
                join: false,
                sync: false,
                leave: false,
            },
            asked_out: false,
            last: None,
            starved: false,
        }
    }

    /// Keeps bytes that it is sent, and hears their lines.
    pub fn send(&mut self, bytes: &[u8]) -> Out
        requires { AreLines bytes.now }
        ensures hears { Hears (X.rules self.old.game) result bytes.now self.old self.new }
        ensures sends { Sends result bytes.now self.old.sent (Some self.new.sent) }
        ensures raises { OutRaises result 0 0 }
        ensures grows { Grows self.old.sent self.new.sent }
        ensures kept { IsKept self.old self.new }
        ensures seated { IsSome (bot_seat_of self.old) → bot_seat_of self.new ≡ bot_seat_of self.old }
    {
        self.hear(bytes)
    }

    fn hear(&mut self, bytes: &[u8]) -> Out
        requires { AreLines bytes.now }
        ensures hears { Hears (X.rules self.old.game) result bytes.now self.old self.new }
        ensures seated { IsSome self.old.client → IsSome self.new.client }
        ensures cut { AreCut self.old.sent }
    {
        if self.starved {
            return Out::NoMemory;
        }
        if self.sent.extend_from_slice(bytes).is_err() {
            self.starved = true;
            return Out::NoMemory;
        }
        match self.ear.hear_all(bytes) {
            Ok(()) => Out::Done,
            Err(NoMemory) => {
                self.starved = true;
                Out::NoMemory
            }
        }
    }

    /// What it does next.
    pub fn step(&self) -> Step
        ensures step { result ≡ step_of self.now }
        ensures asks { result ≡ step.Ask → (self.now.starved ≡ false) × (may_ask self.now.last self.now.client ≡ true) }
    {
        if self.starved {
            return Step::Starve;
        }
        self.told_step(self.ear.told())
    }

    /// By what its lines have told it.
    fn told_step(&self, told: Told) -> Step
        ensures step { result ≡ told_step told self.now }
        ensures asks { result ≡ step.Ask → may_ask self.now.last self.now.client ≡ true }
    {
        if told.again {
            return Step::Starve;
        }
        if told.over || self.ear.is_over() {
            return Step::End;
        }
        if self.gave.leave {
            return if told.left && !self.gave.sync {
                Step::End
            } else {
                Step::Rest
            };
        }
        match told.key {
            Some(key) if self.asked_out => Step::Leave(key),
            _ if !self.gave.join => Step::Join,
            Some(key) if !self.gave.sync => Step::Sync(key),
            _ if self.ear.may_ask(self.last) => Step::Ask,
            _ => Step::Rest,
        }
    }

    /// The game that is played.
    pub fn game(&self) -> &X
        ensures { result.now ≡ self.now.game }
    {
        self.ear.game()
    }

    /// The match.
    pub fn name(&self) -> MatchName
        ensures { result ≡ self.now.name }
    {
        self.name
    }

    /// The bot's seat.
    pub fn seat(&self) -> Seat
        ensures { result ≡ self.now.seat }
    {
        self.seat
    }

    /// The match and the seat, once the seat was joined.
    pub fn bot_seat(&self) -> Option<(MatchName, Seat)>
        ensures { result ≡ bot_seat_of self.now }
    {
        if self.ear.has_client() {
            Some((self.name, self.seat))
        } else {
            None
        }
    }

    /// What is settled. When the bot may be asked, it is what the lines show that were sent, and its number is above the last.
    pub fn settled(&self) -> Option<&Snapshot<X::G>>
        ensures value { option_copied result ≡ settled_in self.now.client }
        ensures shown { self.now.starved ≡ false → may_ask self.now.last self.now.client ≡ true → (s : Shown X.G)
            → settled_in self.now.client ≡ Some s → settled_of (followed (X.rules self.now.game) (lines self.now.sent)).playing ≡ Some s }
        ensures above { may_ask self.now.last self.now.client ≡ true → (s : Shown X.G)
            → settled_in self.now.client ≡ Some s → is_above self.now.last s.number ≡ true }
    {
        self.heard()
    }

    fn heard(&self) -> Option<&Snapshot<X::G>>
        ensures value { option_copied result ≡ settled_in self.now.client }
        ensures agrees { self.now.starved ≡ false → Agrees self.now.client (followed (X.rules self.now.game) (lines self.now.sent)) }
    {
        self.ear.settled()
    }

    /// What the game offers the bot's seat on a snapshot.
    pub fn options(&self, settled: &Snapshot<X::G>) -> Result<List<(MoveId, Args)>, NoMemory>
        ensures { IfOk result (λ offers. offers ≡ (X.rules self.now.game).options settled.now.g settled.now.ctx self.now.seat) }
    {
        self.ear
            .game()
            .options(self.alloc, &settled.g, &settled.ctx, self.seat)
    }

    /// The line that joins the seat.
    pub fn join(&self) -> Result<Vec<u8>, NoMemory>
        ensures { IfOk result (λ line. IsLine (join_of self.now) line.items) }
    {
        let name = bot_name(self.alloc, self.seat)?;
        line_of(
            self.alloc,
            ClientMsg::Join {
                name: self.name,
                player: name,
                seat: self.seat,
            },
        )
    }

    /// The line that asks for the stream.
    pub fn sync(&self, key: Key) -> Result<Vec<u8>, NoMemory>
        ensures { IfOk result (λ line. IsLine (sync_of self.now key) line.items) }
    {
        line_of(
            self.alloc,
            ClientMsg::Sync {
                name: self.name,
                viewer: Some((self.seat, key)),
                protocol: Protocol::One,
            },
        )
    }

    /// The line that leaves the seat.
    pub fn leave(&self, key: Key) -> Result<Vec<u8>, NoMemory>
        ensures { IfOk result (λ line. IsLine (leave_of self.now key) line.items) }
    {
        line_of(
            self.alloc,
            ClientMsg::Leave {
                key,
                name: self.name,
                seat: self.seat,
            },
        )
    }

    /// The line of a move of the game that is offered. Without memory nothing changes.
    pub fn act(&mut self, id: MoveId, args: &Args) -> Result<Vec<u8>, NoMemory>
        ensures stays { Stays self.old self.new }
        ensures last { self.new.last ≡ self.old.last }
        ensures acted { IfOk result (λ line. GivesAct (X.rules self.old.game) self.old.starved (option_asked (X.rules self.old.game) (id, args.now)) line.items self.old self.new) }
        ensures unchanged { OnErr result (self.new ≡ self.old) }
    {
        let asked = asked_by(self.alloc, self.ear.game().sheet(), id, args)?;
        let line = self.ear.act(&asked);
        drop(asked);
        line
    }

    /// The line that joins was given.
    pub fn joins(&mut self)
        ensures gave { self.new ≡ gave_join self.old }
        ensures stays { Stays self.old self.new }
    {
        self.gave.join = true;
    }

    /// The line that asks for the stream was given.
    pub fn syncs(&mut self)
        ensures gave { self.new ≡ gave_sync self.old }
        ensures stays { Stays self.old self.new }
    {
        self.gave.sync = true;
    }

    /// The line that leaves was given.
    pub fn leaves(&mut self)
        ensures gave { self.new ≡ gave_leave self.old }
        ensures stays { Stays self.old self.new }
    {
        self.gave.leave = true;
    }

    /// The bot was asked at this state number.
    pub fn asks_at(&mut self, number: Number)
        ensures last { self.new ≡ with_last self.old number }
        ensures stays { Stays self.old self.new }
    {
        self.last = Some(number);
    }

    /// The bot is asked to leave its seat.
    pub fn ask_out(&mut self)
        ensures { self.new ≡ record self.old { asked_out = true } }
    {
        self.asked_out = true;
    }

    /// A call had no memory.
    pub fn starve(&mut self)
        ensures starved { self.new ≡ record self.old { starved = true } }
        ensures stays { Stays self.old self.new }
    {
        self.starved = true;
    }
}

/// The name of the bot of a seat.
fn bot_name(alloc: Global, seat: Seat) -> Result<Text, NoMemory>
    ensures value { IfOk result (λ name. name ≡ bot_name seat) }
    ensures short { IfOk result (λ name. length name ≤ 255) }
{
    let name = format!(in alloc; "bot{seat}")?;
    if name.as_str().len() > 255 {
        drop(name);
        return Err(NoMemory);
    }
    let text = Text::from_str(alloc, name.as_str());
    drop(name);
    text
}

/// The line of a message, without its newline.
fn line_of(alloc: Global, message: ClientMsg) -> Result<Vec<u8>, NoMemory>
    requires { IsSendable message }
    ensures { IfOk result (λ line. IsLine message line.items) }
{
    let line = write_client(alloc, &message);
    drop(message);
    let mut line = line?;
    cut_newline(&mut line);
    Ok(line)
}

/// A move of the sheet as a client asks for it.
fn asked_by(alloc: Global, sheet: &Sheet, id: MoveId, args: &Args) -> Result<Asked, NoMemory>
    requires { SheetFits sheet.now }
    ensures asked { IfOk result (λ asked. asked ≡ move_asked (slice_get sheet.now.moves id) args.now) }
    ensures form { IfOk result IsAskable }
{
    let Some(row) = sheet.moves.get(id.place() as usize) else {
        return Ok(Asked::Undo);
    };
    let name = row.name.copy(alloc)?;
    Ok(Asked::Move {
        name,
        args: args.copy(),
    })
}
