//! The one room of a script that is kept, and the sessions.

ghost use Rattle.std.specs.Prelude.{◌≡◌, ◌<◌, None, Some, IfOk, replicate};
ghost use Rattle.any_game.specs.GameKind.{GameKind};
ghost use Rattle.hall_history.specs.Hall.{Hall, new_hall};
ghost use Rattle.hall_history.specs.Tapes.{hall_tape};
ghost use Rattle.room_history.specs.declared.call.RoomCall.TheVariants as call;
ghost use Rattle.session_hall.specs.Held.{AreCores, StandsForHall};
ghost use Rattle.dice_words.specs.Strip.{live};
ghost use Rattle.kept_script.specs.KeptPlay.{hall_of};
ghost use Rattle.kept_script.specs.Moving.{MovesByFreeing, MovesByLine, MovesByOpen};

use crate::opening::open_match;
use crate::visiting::{detach_in, hear_in, take_in};
use dice_words::Tape;
use game_hall::{SessionCore, match_seed};
use game_sheet::{MatchName, NoMemory};
use kept_room::KeptRoom;
use object_journal::Stop;
use room_disk::Disk;
use room_history::RoomReply;
use session_hall::Said;
use std::alloc::Global;

/// How many passes sessions have.
const PASSES: u32 = 32;

/// One room that keeps its accepted changes, and the sessions, with the words that they draw. Sessions have the passes 0 to 31.
pub struct KeptHall<D: Disk + Drop> {
    /// Where its memory comes from.
    pub alloc: Global,
    /// The room, which is number 0.
    pub room: KeptRoom<D>,
    /// Each pass's core, pass 0's first.
    pub cores: Vec<SessionCore>,
    /// The words.
    pub tape: Tape,
    /// The seed that the next match takes.
    pub seed: Option<[u8; 32]>,
}

impl<D: Disk + Drop> Drop for KeptHall<D> {
    fn drop(self) {
        let KeptHall {
            alloc: _,
            room,
            cores,
            tape,
            seed: _,
        } = self;
        drop(room);
        drop(cores);
        drop(tape);
    }
}

impl<D: Disk + Drop> KeptHall<D> {
    /// A hall over this room, to whose sessions nothing has happened. Its words are those of a script.
    pub fn new(alloc: Global, room: KeptRoom<D>, cores: Vec<SessionCore>) -> Self
        ensures room { result.room ≡ room }
        ensures cores { result.cores ≡ cores }
        ensures words { result.tape ≡ live (replicate 32 0) 0 0 }
        ensures seed { result.seed ≡ None }
    {
        KeptHall {
            alloc,
            room,
            cores,
            tape: Tape::live([0; 32], 0, 0),
            seed: None,
        }
    }

    /// Gives the disk back, and why the room has stopped, if it has.
    pub fn close(self) -> (D, Option<Stop>)
        ensures disk { result.0 ≡ self.room.file.disk }
        ensures stopped { result.1 ≡ self.room.stopped }
    {
        let KeptHall {
            alloc: _,
            room,
            cores,
            tape,
            seed: _,
        } = self;
        drop(cores);
        drop(tape);
        room.close()
    }

    /// Hears a line of a session, without its newline, and gives its direct answer. Without memory it is `again`.
    pub fn on_line(&mut self, pass: u8, line: &[u8]) -> Said
        requires there { pass < 32 }
        requires first { self.old.room.object.room ≡ 0 }
        requires stands { (h : Hall GameKind) × StandsForHall hall_tape (hall_of self.old) h }
        ensures heard { MovesByLine D.is_told D.seen D.may_leave D.moment D.left_since D.faults self.old self.new pass line.now result.line result.again result.tally }
    {
        let core = &mut self.cores[pass as usize];
        let tally = hear_in(
            self.alloc,
            &mut self.room,
            core,
            &mut self.tape,
            &mut self.seed,
            line,
        );
        Said {
            again: core.is_again(),
            line: core.written(),
            tally,
        }
    }

    /// Hands out what waits for a session. The reply is none where the session isn't attached; once its end is handed out, it is
    /// attached no more. It takes no memory.
    pub fn take(&mut self, pass: u8) -> Option<RoomReply>
        requires there { pass < 32 }
        requires first { self.old.room.object.room ≡ 0 }
        requires stands { (h : Hall GameKind) × StandsForHall hall_tape (hall_of self.old) h }
        ensures freed { MovesByFreeing D.is_told D.seen D.may_leave D.moment D.left_since D.faults self.old self.new pass call.Take result }
    {
        take_in(&mut self.room, &mut self.cores[pass as usize])
    }

    /// Ends a session's attachment. The reply is none where the session isn't attached. It takes no memory.
    pub fn detach(&mut self, pass: u8) -> Option<RoomReply>
        requires there { pass < 32 }
        requires first { self.old.room.object.room ≡ 0 }
        requires stands { (h : Hall GameKind) × StandsForHall hall_tape (hall_of self.old) h }
        ensures freed { MovesByFreeing D.is_told D.seen D.may_leave D.moment D.left_since D.faults self.old self.new pass call.Detach result }
    {
        detach_in(&mut self.room, &mut self.cores[pass as usize])
    }

    /// Makes a match of a game, where the room is free, with a player at each of its seats. It takes the seed that stands ready, or draws
    /// eight words. It gives none where the room is full, or makes no such match.
    pub fn open(&mut self, game: &str, seats: u8) -> Result<Option<MatchName>, NoMemory>
        requires first { self.old.room.object.room ≡ 0 }
        requires stands { (h : Hall GameKind) × StandsForHall hall_tape (hall_of self.old) h }
        ensures opened { MovesByOpen D.is_told D.seen D.may_leave D.moment D.left_since D.faults self.old self.new game.now seats result }
    {
        self.tape.begin();
        let seed = match_seed(&mut self.tape, &mut self.seed);
        open_match(self.alloc, &mut self.room, game, seats, seed)
    }

    /// Sets the seed that the next match takes.
    pub fn set_seed(&mut self, seed: [u8; 32])
        ensures set { (h : Hall GameKind) → StandsForHall hall_tape (hall_of self.old) h → StandsForHall hall_tape (hall_of self.new) (record h { seed = Some seed }) }
        ensures same { self.new.room ≡ self.old.room }
    {
        self.seed = Some(seed);
    }
}

/// A core for each pass of sessions, over one room.
pub fn all_cores(alloc: Global) -> Result<Vec<SessionCore>, NoMemory>
    ensures { IfOk result (λ cores. AreCores cores.items (new_hall 1)) }
{
    let mut cores = Vec::new(alloc);
    for pass in 0..PASSES {
        cores.push(SessionCore::new(pass, 1))?;
    }
    Ok(cores)
}
