//! The steps of a run that is at its end where there is no memory, with what they count.

ghost use Rattle.std.specs.Prelude.{◌≡◌, ◌<◌, ◌+◌, ℕ, List, Option, IfOk, OnOk, Some, length, slice_get};
ghost use Rattle.any_game.specs.AnyRules.{any_rules};
ghost use Rattle.any_game.specs.GameKind.{GameKind};
ghost use Rattle.any_game.specs.declared.any_g.AnyG.{AnyG};
ghost use Rattle.dice_words.specs.Strip.{Follows};
ghost use Rattle.game_hall.specs.Core.{is_again, text_said};
ghost use Rattle.game_hall.specs.declared.answer.Answer.{Answer};
ghost use Rattle.world_history.specs.World.{World};
ghost use Rattle.world_history.specs.Workload.{choice, choice_words};
ghost use Rattle.wire_json.specs.Asking.{IsAskable};
ghost use Rattle.client_world.specs.Counted.{HasActed, HasAnswered, HasArrived, HasHanded, HasHandedReply, HasRead, HasTaken, OpensMatch, TellsHeld, TellsRead};
ghost use Rattle.client_world.specs.IsWorld.{IsWorld};

use super::ClientWorld;
use crate::handing::{bytes_of, handed_out};
use client_predict::{ActNo, FeedNo, Predicted, Told};
use dice_words::Tape;
use game_sheet::{Bye, Bytes, MatchName, NoMemory};
use room_history::RoomReply;
use session_hall::{Said, Tally};
use wire_json::Asked;

impl ClientWorld {
    /// Makes a match of a game in the first free room, with a player at each of its seats, and gives its name; none where there is no
    /// room for it.
    pub fn open_match(&mut self, game: &str, seats: u8) -> Result<Option<MatchName>, NoMemory>
        ensures { (tape : ℕ → List ℕ) (w : World GameKind AnyG) → IsWorld tape self.old w
            → IfOk result (λ made. OpensMatch tape w game.now seats self.new made) }
    {
        self.hall.open(game, seats)
    }

    /// What a client asks for that takes one of the moves that its game offers it, by the next word; an undo, and no word is drawn, where
    /// it is offered none.
    pub fn choose(&self, client: u8, tape: &mut Tape) -> Result<Asked, NoMemory>
        requires client { client < 32 }
        requires word { 0 < length tape.old.left }
        ensures asked { (words : ℕ → List ℕ) (w : World GameKind AnyG) (word : ℕ) → IsWorld words self.now w → slice_get tape.old.left 0 ≡ Some word
            → IfOk result (λ asked. asked ≡ choice any_rules (w.clients client) word) }
        ensures form { IfOk result IsAskable }
        ensures drawn { (words : ℕ → List ℕ) (w : World GameKind AnyG) → IsWorld words self.now w
            → OnOk result (tape.new.used ≡ tape.old.used + choice_words any_rules (w.clients client)) }
        ensures follows { Follows tape.old tape.new }
    {
        match self.peers.player(client) {
            Some(player) => player.choose(self.alloc, tape),
            None => Ok(Asked::Undo),
        }
    }

    /// A client acts: the line of its action goes on its up link. It tells whether no action was made.
    pub fn act_counted(&mut self, client: u8, asked: &Asked) -> Result<bool, NoMemory>
        requires client { client < 32 }
        requires form { IsAskable asked.now }
        ensures { (tape : ℕ → List ℕ) (w : World GameKind AnyG) → IsWorld tape self.old w
            → IfOk result (λ held. HasActed tape w client asked.now held self.new) }
    {
        let acted = self.peers.act(client, asked)?;
        is_held(acted)
    }

    /// The oldest line of a client's up link reaches its session, whose direct answer goes on the down link. It tells how the line's
    /// action fared.
    pub fn arrive_counted(&mut self, client: u8) -> Result<Tally, NoMemory>
        requires { client < 32 }
        ensures { (tape : ℕ → List ℕ) (w : World GameKind AnyG) → IsWorld tape self.old w
            → IfOk result (λ tally. HasArrived tape w client tally self.new) }
    {
        let Some(line) = self.peers.pop_up(client) else {
            return Ok(Tally {
                accepted: 0,
                refused: 0,
            });
        };
        let said = self.hall.on_line(client, line.as_slice());
        drop(line);
        self.answer_counted(client, said)
    }

    /// A direct answer goes on a client's down link.
    fn answer_counted(&mut self, client: u8, said: Said) -> Result<Tally, NoMemory>
        requires { client < 32 }
        ensures { (tape : ℕ → List ℕ) (w : World GameKind AnyG) (answer : Option Answer) → IsWorld tape self.old w
            → said.line ≡ text_said answer → said.again ≡ is_again answer
            → IfOk result (λ tally. HasAnswered tape w client answer self.new × (tally ≡ said.tally)) }
    {
        let Said { line, again, tally } = said;
        let answer = bytes_of(self.alloc, &line);
        drop(line);
        let answer = answer?;
        if again {
            drop(answer);
            return Err(NoMemory);
        }
        self.put_answer(client, answer)?;
        Ok(tally)
    }

    /// What waits for a client's session goes on its down link, with the bye line where its stream has ended. It tells how many bytes
    /// were handed out.
    pub fn take_counted(&mut self, client: u8) -> Result<u64, NoMemory>
        requires { client < 32 }
        ensures { (tape : ℕ → List ℕ) (w : World GameKind AnyG) → IsWorld tape self.old w
            → IfOk result (λ count. HasTaken tape w client count self.new) }
    {
        match self.hall.take(client) {
            Some(reply) => self.taken_counted(client, reply),
            None => Ok(0),
        }
    }

    /// What a Take was replied is handed out to a client.
    fn taken_counted(&mut self, client: u8, reply: RoomReply) -> Result<u64, NoMemory>
        requires { client < 32 }
        ensures { (tape : ℕ → List ℕ) (w : World GameKind AnyG) → IsWorld tape self.old w
            → IfOk result (λ count. HasHandedReply tape w client reply count self.new) }
    {
        match reply {
            RoomReply::Taken { bytes, end } => self.hand_counted(client, bytes, end),
            RoomReply::NotAttached => Ok(0),
            other => {
                drop(other);
                self.hand_counted(client, Bytes::none(), None)
            }
        }
    }

    /// What a Take handed out goes on a client's down link.
    fn hand_counted(&mut self, client: u8, bytes: Bytes, end: Option<Bye>) -> Result<u64, NoMemory>
        requires { client < 32 }
        ensures { (tape : ℕ → List ℕ) (w : World GameKind AnyG) → IsWorld tape self.old w
            → IfOk result (λ count. HasHanded tape w client bytes end count self.new) }
    {
        let all = handed_out(self.alloc, &bytes, end);
        drop(bytes);
        let all = all?;
        let count = all.len() as u64;
        self.peers
            .push_all_down(self.alloc, client, all.as_slice())?;
        Ok(count)
    }

    /// A client reads the oldest line of its down link. It tells whether there was one.
    pub fn read_counted(&mut self, client: u8) -> Result<bool, NoMemory>
        requires { client < 32 }
        ensures { (tape : ℕ → List ℕ) (w : World GameKind AnyG) → IsWorld tape self.old w
            → IfOk result (λ read. HasRead tape w client read self.new) }
    {
        let heard = self.peers.read_next(client);
        was_read(heard)
    }
}

/// Whether no action was made.
fn is_held(acted: Result<Predicted, ActNo>) -> Result<bool, NoMemory>
    ensures { IfOk result (TellsHeld acted) }
{
    match acted {
        Ok(_) => Ok(false),
        Err(ActNo::NoMemory) => Err(NoMemory),
        Err(_) => Ok(true),
    }
}

/// Whether a line was read.
fn was_read(heard: Option<Result<Told, FeedNo>>) -> Result<bool, NoMemory>
    ensures { IfOk result (TellsRead heard) }
{
    match heard {
        None => Ok(false),
        Some(Err(FeedNo::NoMemory)) => Err(NoMemory),
        Some(_) => Ok(true),
    }
}
