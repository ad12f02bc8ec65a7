//! A world of clients, links and a server.

ghost use Rattle.std.specs.Prelude.{◌≡◌, ◌≤◌, ◌<◌, ◌++◌, ◌∷◌, ℕ, List, [], Option, IfOk, OnOk, codes, if◌then◌else◌};
ghost use Rattle.any_game.specs.AnyRules.{any_rules};
ghost use Rattle.any_game.specs.GameKind.{GameKind};
ghost use Rattle.any_game.specs.declared.any_g.AnyG.{AnyG};
ghost use Rattle.game_hall.specs.Core.{is_again, text_said};
ghost use Rattle.game_hall.specs.declared.answer.Answer.{Answer};
ghost use Rattle.hall_history.specs.Freeing.{frees};
ghost use Rattle.world_history.specs.Words.{of_client};
ghost use Rattle.world_history.specs.World.{World, new_world, with_client, with_down, with_hall, with_up, Acts, Arrives, Attaches, Drops, Leaves, Opens, Reads, Seeds, Shows, Takes};
ghost use Rattle.world_history.specs.WorldScript.{answer_lines, claim_of, drops};
ghost use Rattle.room_history.specs.declared.call.RoomCall.TheVariants.{Detach};
ghost use Rattle.session_hall.specs.Held.{tape_of};
ghost use Rattle.wire_json.specs.Asking.{IsAskable};
ghost use Rattle.wire_json.specs.ClientText.{client_text};
ghost use Rattle.wire_json.specs.declared.client.ClientMsg.TheVariants as message;
ghost use Rattle.client_world.specs.IsWorld.{HasDone, IsWorld};
ghost use Rattle.client_world.specs.Outcomes.{Hands, HandsReply};
ghost use Rattle.client_world.specs.Steps.{step_of, IsRunnable};

mod counted;

use crate::handing::{bytes_of, handed_out};
use crate::peers::Peers;
use crate::player::{Player, seat_key};
use crate::step::WorldStep;
use crate::telling::{acted_word, heard_text, leaving_text, made_text, told};
use any_game::AnyGame;
use game_sheet::{Bye, Bytes, MatchName, NoMemory, Seat, Text};
use room_history::RoomReply;
use session_hall::{Said, SessionHall};
use std::alloc::Global;
use std::marker::Model;
use wire_json::{Asked, ClientMsg, Protocol, write_client};

/// The rooms of a server, 32 clients, and a link to and from the session of each.
///
/// Contracts see what it holds, and that it stands for a world as `world_history` has it. A client's session has the client's number
/// as its pass. A step prints what its line of a world prints. After `NoMemory` a run is at its end, and no more is said of the world.
pub struct ClientWorld {
    alloc: Global,
    hall: SessionHall,
    peers: Peers,
}

impl Drop for ClientWorld {
    fn drop(self) {
        let ClientWorld {
            alloc: _,
            hall,
            peers,
        } = self;
        drop(hall);
        drop(peers);
    }
}

impl Model for ClientWorld {
    ghost use Rattle.client_world.specs.IsWorld.{HeldWorld};

    ghost Value = { HeldWorld };

    ghost view = { λ w. record { hall = w.hall; peers = w.peers } };
}

impl ClientWorld {
    /// A world over so many rooms, 1 to 64, in which nothing has happened. Its words are those of a seed.
    pub fn new(alloc: Global, rooms: u8, seed: [u8; 32]) -> Result<Self, NoMemory>
        requires least { 1 ≤ rooms }
        requires most { rooms ≤ 64 }
        ensures { IfOk result (λ world. IsWorld (tape_of seed) world (new_world rooms)) }
    {
        let peers = Peers::new(alloc)?;
        let hall = SessionHall::new(alloc, rooms, seed)?;
        Ok(ClientWorld { alloc, hall, peers })
    }

    /// Makes a step, and gives what it prints.
    pub fn run(&mut self, step: WorldStep) -> Result<Vec<u8>, NoMemory>
        requires { IsRunnable step }
        ensures { (tape : ℕ → List ℕ) (w : World GameKind AnyG) → IsWorld tape self.old w
            → IfOk result (λ text. HasDone tape w (step_of step) self.new text.items) }
    {
        match step {
            WorldStep::Nothing => Ok(Vec::new(self.alloc)),
            WorldStep::Seeds { seed } => Ok(self.seed(seed)),
            WorldStep::Opens { game, seats } => self.open_named(game, seats),
            WorldStep::Attaches {
                client,
                game,
                name,
                seat,
                protocol,
            } => self.attach(client, game, name, seat, protocol),
            WorldStep::Acts { client, asked } => self.act_as(client, asked),
            WorldStep::Arrives { client } => self.arrive(client),
            WorldStep::Takes { client } => self.take(client),
            WorldStep::Reads { client } => self.read(client),
            WorldStep::Drops { client } => Ok(self.cut(client)),
            WorldStep::Leaves { name, seat } => self.leave(name, seat),
            WorldStep::Shows { client } => self.show(client),
        }
    }

    /// Sets the seed that the next match takes. It prints nothing.
    pub fn seed(&mut self, seed: [u8; 32]) -> Vec<u8>
        ensures { (tape : ℕ → List ℕ) (w : World GameKind AnyG) → IsWorld tape self.old w → HasDone tape w (Seeds seed) self.new result.items }
    {
        self.hall.set_seed(seed);
        Vec::new(self.alloc)
    }

    /// Makes a match of a game in the first free room, with a player at each of its seats.
    pub fn open(&mut self, game: &str, seats: u8) -> Result<Vec<u8>, NoMemory>
        ensures { (tape : ℕ → List ℕ) (w : World GameKind AnyG) → IsWorld tape self.old w
            → IfOk result (λ text. HasDone tape w (Opens game.now seats) self.new text.items) }
    {
        let made = self.hall.open(game, seats)?;
        made_text(self.alloc, made)
    }

    /// The same, by an owned name.
    fn open_named(&mut self, game: Text, seats: u8) -> Result<Vec<u8>, NoMemory>
        ensures { (tape : ℕ → List ℕ) (w : World GameKind AnyG) → IsWorld tape self.old w
            → IfOk result (λ text. HasDone tape w (Opens game seats) self.new text.items) }
    {
        self.open(game.as_str(), seats)
    }

    /// Puts a new client of a game in a client's place, which asks for the stream of a match. It prints nothing.
    pub fn attach(
        &mut self,
        client: u8,
        game: AnyGame,
        name: MatchName,
        seat: Option<Seat>,
        protocol: Protocol,
    ) -> Result<Vec<u8>, NoMemory>
        requires { client < 32 }
        ensures { (tape : ℕ → List ℕ) (w : World GameKind AnyG) → IsWorld tape self.old w
            → IfOk result (λ text. HasDone tape w (Attaches client game name seat protocol) self.new text.items) }
    {
        let player = Player::new(self.alloc, game, seat)?;
        match sync_line(self.alloc, name, seat, protocol) {
            Ok(line) => self.seat(client, player, line),
            Err(no) => {
                drop(player);
                Err(no)
            }
        }
    }

    /// Puts a new client in a client's place, with its first line.
    fn seat(&mut self, client: u8, player: Player, line: Vec<u8>) -> Result<Vec<u8>, NoMemory>
        requires { client < 32 }
        ensures { (tape : ℕ → List ℕ) (w : World GameKind AnyG) → IsWorld tape self.old w
            → IfOk result (λ text. IsWorld tape self.new (with_up (with_client (drops any_rules w client) client player) client (line.items ∷ []))
            × (text.items ≡ [])) }
    {
        self.detach(client);
        self.peers.seat(client, player, line)?;
        Ok(Vec::new(self.alloc))
    }

    /// Cuts a client's links, and detaches its session; the client stays. It prints nothing.
    pub fn cut(&mut self, client: u8) -> Vec<u8>
        requires { client < 32 }
        ensures { (tape : ℕ → List ℕ) (w : World GameKind AnyG) → IsWorld tape self.old w → HasDone tape w (Drops client) self.new result.items }
    {
        self.detach(client);
        self.peers.clear(client);
        Vec::new(self.alloc)
    }

    /// Detaches a client's session.
    fn detach(&mut self, client: u8)
        requires { client < 32 }
        ensures { (tape : ℕ → List ℕ) (w : World GameKind AnyG) → IsWorld tape self.old w
            → IsWorld tape self.new (with_hall w (frees any_rules w.hall client Detach).0) }
    {
        let reply = self.hall.detach(client);
        drop(reply);
    }

    /// A client acts: the line of its action goes on its up link.
    pub fn act(&mut self, client: u8, asked: &Asked) -> Result<Vec<u8>, NoMemory>
        requires client { client < 32 }
        requires form { IsAskable asked.now }
        ensures { (tape : ℕ → List ℕ) (w : World GameKind AnyG) → IsWorld tape self.old w
            → IfOk result (λ text. HasDone tape w (Acts client asked.now) self.new text.items) }
    {
        let acted = self.peers.act(client, asked)?;
        told(self.alloc, client, acted_word(acted))
    }

    /// The same, by an owned action.
    fn act_as(&mut self, client: u8, asked: Asked) -> Result<Vec<u8>, NoMemory>
        requires client { client < 32 }
        requires form { IsAskable asked }
        ensures { (tape : ℕ → List ℕ) (w : World GameKind AnyG) → IsWorld tape self.old w
            → IfOk result (λ text. HasDone tape w (Acts client asked) self.new text.items) }
    {
        let text = self.act(client, &asked);
        drop(asked);
        text
    }

    /// The oldest line of a client's up link reaches its session, whose direct answer goes on the down link.
    pub fn arrive(&mut self, client: u8) -> Result<Vec<u8>, NoMemory>
        requires { client < 32 }
        ensures { (tape : ℕ → List ℕ) (w : World GameKind AnyG) → IsWorld tape self.old w
            → IfOk result (λ text. HasDone tape w (Arrives client) self.new text.items) }
    {
        let Some(line) = self.peers.pop_up(client) else {
            return told(self.alloc, client, "quiet");
        };
        let said = self.hall.on_line(client, line.as_slice());
        drop(line);
        self.answer(client, said)
    }

    /// A direct answer goes on a client's down link.
    fn answer(&mut self, client: u8, said: Said) -> Result<Vec<u8>, NoMemory>
        requires { client < 32 }
        ensures { (tape : ℕ → List ℕ) (w : World GameKind AnyG) (answer : Option Answer) → IsWorld tape self.old w
            → said.line ≡ text_said answer → said.again ≡ is_again answer
            → IfOk result (λ text. IsWorld tape self.new (with_down w client (w.down client ++ answer_lines answer))
            × (text.items ≡ (if is_again answer then of_client client (codes "again") else []))) }
    {
        let Said { line, again, .. } = said;
        let answer = bytes_of(self.alloc, &line);
        drop(line);
        self.put_answer(client, answer?)?;
        if again {
            return told(self.alloc, client, "again");
        }
        Ok(Vec::new(self.alloc))
    }

    /// The line of a direct answer goes on a client's down link, if there is one.
    fn put_answer(&mut self, client: u8, line: Vec<u8>) -> Result<(), NoMemory>
        requires { client < 32 }
        ensures { (tape : ℕ → List ℕ) (w : World GameKind AnyG) (answer : Option Answer) → IsWorld tape self.old w
            → line.items ≡ text_said answer
            → OnOk result (IsWorld tape self.new (with_down w client (w.down client ++ answer_lines answer))) }
    {
        if line.is_empty() {
            return Ok(());
        }
        self.peers.push_down(client, line)
    }

    /// What waits for a client's session goes on its down link, with the bye line where its stream has ended.
    pub fn take(&mut self, client: u8) -> Result<Vec<u8>, NoMemory>
        requires { client < 32 }
        ensures { (tape : ℕ → List ℕ) (w : World GameKind AnyG) → IsWorld tape self.old w
            → IfOk result (λ text. HasDone tape w (Takes client) self.new text.items) }
    {
        match self.hall.take(client) {
            Some(reply) => self.taken(client, reply),
            None => told(self.alloc, client, "unattached"),
        }
    }

    /// What a Take was replied is handed out to a client.
    fn taken(&mut self, client: u8, reply: RoomReply) -> Result<Vec<u8>, NoMemory>
        requires { client < 32 }
        ensures { (tape : ℕ → List ℕ) (w : World GameKind AnyG) → IsWorld tape self.old w
            → IfOk result (λ text. HandsReply tape w client reply self.new text.items) }
    {
        match reply {
            RoomReply::Taken { bytes, end } => self.hand(client, bytes, end),
            RoomReply::NotAttached => told(self.alloc, client, "unattached"),
            other => {
                drop(other);
                self.hand(client, Bytes::none(), None)
            }
        }
    }

    /// What a Take handed out goes on a client's down link.
    fn hand(&mut self, client: u8, bytes: Bytes, end: Option<Bye>) -> Result<Vec<u8>, NoMemory>
        requires { client < 32 }
        ensures { (tape : ℕ → List ℕ) (w : World GameKind AnyG) → IsWorld tape self.old w
            → IfOk result (λ text. Hands tape w client bytes end self.new text.items) }
    {
        let all = handed_out(self.alloc, &bytes, end);
        drop(bytes);
        let all = all?;
        self.peers
            .push_all_down(self.alloc, client, all.as_slice())?;
        Ok(Vec::new(self.alloc))
    }

    /// A client reads the oldest line of its down link.
    pub fn read(&mut self, client: u8) -> Result<Vec<u8>, NoMemory>
        requires { client < 32 }
        ensures { (tape : ℕ → List ℕ) (w : World GameKind AnyG) → IsWorld tape self.old w
            → IfOk result (λ text. HasDone tape w (Reads client) self.new text.items) }
    {
        let Some(heard) = self.peers.read_next(client) else {
            return told(self.alloc, client, "quiet");
        };
        heard_text(self.alloc, client, heard)
    }

    /// A player leaves a seat by the key that an open gave it.
    pub fn leave(&mut self, name: MatchName, seat: Seat) -> Result<Vec<u8>, NoMemory>
        ensures { (tape : ℕ → List ℕ) (w : World GameKind AnyG) → IsWorld tape self.old w
            → IfOk result (λ text. HasDone tape w (Leaves name seat) self.new text.items) }
    {
        let told = self.hall.leave(name, seat);
        leaving_text(self.alloc, told)
    }

    /// Shows what a client holds: the snapshot that the server settled last, and what it shows.
    pub fn show(&self, client: u8) -> Result<Vec<u8>, NoMemory>
        requires { client < 32 }
        ensures { (tape : ℕ → List ℕ) (w : World GameKind AnyG) → IsWorld tape self.now w
            → IfOk result (λ text. HasDone tape w (Shows client) self.now text.items) }
    {
        match self.peers.player(client) {
            Some(player) => player.show(self.alloc, client),
            None => told(self.alloc, client, "none"),
        }
    }
}

/// The line by which a client asks for the stream of a match.
fn sync_line(
    alloc: Global,
    name: MatchName,
    seat: Option<Seat>,
    protocol: Protocol,
) -> Result<Vec<u8>, NoMemory>
    ensures { IfOk result (λ line. line.items ≡ client_text (message.Sync name (claim_of seat) protocol)) }
{
    let viewer = match seat {
        Some(seat) => Some((seat, seat_key(seat))),
        None => None,
    };
    let message = ClientMsg::Sync {
        name,
        viewer,
        protocol,
    };
    let line = write_client(alloc, &message);
    drop(message);
    line
}
