//! The hall.

ghost use Rattle.std.specs.Prelude.{◌≡◌, ◌≤◌, ◌<◌, ℕ, List, [], replicate, IfOk};
ghost use Rattle.any_game.specs.AnyRules.{any_rules};
ghost use Rattle.any_game.specs.GameKind.{GameKind};
ghost use Rattle.hall_history.specs.Hall.{Hall, new_hall};
ghost use Rattle.room_history.specs.declared.call.RoomCall.TheVariants as call;
ghost use Rattle.session_hall.specs.Answered.{Frees, HearsLine, Leaves, Opens};
ghost use Rattle.session_hall.specs.Held.{AreBooks, AreCores, StandsForHall, tape_of};

use crate::opening::{OWN_PASS, key_of_seat, open_match};
use crate::said::Said;
use any_game::AnyGame;
use dice_words::Tape;
use game_hall::{SessionCore, match_seed};
use game_sheet::{Key, MatchName, NoMemory, Seat};
use match_master::{Book, RoomCall, RoomReply};
use session_driver::{Books, detach, hear, take};
use std::alloc::Global;
use std::marker::Model;

/// How many passes sessions have.
const PASSES: u32 = 32;

/// The rooms and the sessions of one process, with the words that they draw.
///
/// Contracts see what it holds, and that it stands for a hall as `hall_history` has it. Sessions have the passes 0 to 31.
pub struct SessionHall {
    alloc: Global,
    books: Books<Book<AnyGame>>,
    cores: Vec<SessionCore>,
    tape: Tape,
    seed: Option<[u8; 32]>,
}

impl Drop for SessionHall {
    fn drop(self) {
        let SessionHall {
            alloc: _,
            books,
            cores,
            tape,
            seed: _,
        } = self;
        drop(books);
        drop(cores);
        drop(tape);
    }
}

impl Model for SessionHall {
    ghost use Rattle.session_hall.specs.Held.{HeldHall, StandsForOne};

    ghost Value = { HeldHall };

    ghost view = { λ s. record { books = s.books.books.items; cores = s.cores.items; tape = s.tape; seed = s.seed } };

    ghost invariant = { λ s. StandsForOne (record { books = s.books.books.items; cores = s.cores.items; tape = s.tape; seed = s.seed }) };
}

impl SessionHall {
    /// A hall of so many rooms, 1 to 64, in which nothing has happened. Its words are those of a seed.
    pub fn new(alloc: Global, rooms: u8, seed: [u8; 32]) -> Result<Self, NoMemory>
        requires least { 1 ≤ rooms }
        requires most { rooms ≤ 64 }
        ensures { IfOk result (λ hall. StandsForHall (tape_of seed) hall (new_hall rooms)) }
    {
        let books = all_books(alloc, rooms)?;
        let cores = all_cores(alloc, rooms)?;
        Ok(SessionHall {
            alloc,
            books: Books { books },
            cores,
            tape: Tape::live(seed, 0, 0),
            seed: None,
        })
    }

    /// Hears a line of a session, without its newline, and gives its direct answer. Without memory it is `again`.
    pub fn on_line(&mut self, pass: u8, line: &[u8]) -> Said
        requires { pass < 32 }
        ensures { (tape : ℕ → List ℕ) (h : Hall GameKind) → StandsForHall tape self.old h
            → HearsLine tape h pass line.now self.new result.line result.again result.tally }
    {
        let core = &mut self.cores[pass as usize];
        let tally = hear(
            self.alloc,
            &mut self.books,
            core,
            &mut self.tape,
            &mut self.seed,
            line,
        );
        Said {
            again: core.is_again(),
            line: core.written(),
            tally,
        }
    }

    /// Hands out what waits for a session. The reply is none where the session isn't attached; once its end is handed out, it is
    /// attached no more. It takes no memory.
    pub fn take(&mut self, pass: u8) -> Option<RoomReply>
        requires { pass < 32 }
        ensures { (tape : ℕ → List ℕ) (h : Hall GameKind) → StandsForHall tape self.old h → Frees tape h pass call.Take self.new result }
    {
        take(&mut self.books, &mut self.cores[pass as usize])
    }

    /// Ends a session's attachment. The reply is none where the session isn't attached. It takes no memory.
    pub fn detach(&mut self, pass: u8) -> Option<RoomReply>
        requires { pass < 32 }
        ensures { (tape : ℕ → List ℕ) (h : Hall GameKind) → StandsForHall tape self.old h → Frees tape h pass call.Detach self.new result }
    {
        detach(&mut self.books, &mut self.cores[pass as usize])
    }

    /// Makes a match of a game in the first free room, with a player at each of its seats. It takes the seed that stands ready, or
    /// draws eight words. It gives none where all rooms are full, or no room makes such a match.
    ///
    /// After `NoMemory` the hall stands for some hall, and no more is said of it.
    pub fn open(&mut self, game: &str, seats: u8) -> Result<Option<MatchName>, NoMemory>
        ensures { (tape : ℕ → List ℕ) (h : Hall GameKind) → StandsForHall tape self.old h
            → IfOk result (λ made. Opens tape h game.now seats self.new made) }
    {
        self.tape.begin();
        let seed = match_seed(&mut self.tape, &mut self.seed);
        open_match(self.alloc, &mut self.books.books, game, seats, seed)
    }

    /// Lets a player leave a seat by the key that an open gave it. The reply is none where the match's room isn't there. It takes no
    /// memory.
    pub fn leave(&mut self, name: MatchName, seat: Seat) -> Option<RoomReply>
        ensures { (tape : ℕ → List ℕ) (h : Hall GameKind) → StandsForHall tape self.old h → Leaves tape h name seat self.new result }
    {
        let room = name.room() as usize;
        if room >= self.books.books.len() {
            return None;
        }
        let call = RoomCall::Leave {
            serial: name.serial(),
            seat,
            key: Key::new(key_of_seat(seat)),
        };
        Some(self.books.books[room].apply(OWN_PASS, call))
    }

    /// Sets the seed that the next match takes.
    pub fn set_seed(&mut self, seed: [u8; 32])
        ensures { (tape : ℕ → List ℕ) (h : Hall GameKind) → StandsForHall tape self.old h
            → StandsForHall tape self.new (record h { seed = Some seed }) }
    {
        self.seed = Some(seed);
    }
}

/// A book for each of so many rooms, in which nothing has happened.
fn all_books(alloc: Global, rooms: u8) -> Result<Vec<Book<AnyGame>>, NoMemory>
    requires { rooms ≤ 64 }
    ensures { IfOk result (λ books. AreBooks books.items (replicate rooms [])) }
{
    let mut books = Vec::new(alloc);
    for room in 0..rooms {
        let book = Book::new(alloc, room)?;
        books.push(book)?;
    }
    Ok(books)
}

/// A core for each pass of sessions.
fn all_cores(alloc: Global, rooms: u8) -> Result<Vec<SessionCore>, NoMemory>
    requires least { 1 ≤ rooms }
    requires most { rooms ≤ 64 }
    ensures { IfOk result (λ cores. AreCores cores.items (new_hall rooms)) }
{
    let mut cores = Vec::new(alloc);
    for pass in 0..PASSES {
        cores.push(SessionCore::new(pass, rooms))?;
    }
    Ok(cores)
}
