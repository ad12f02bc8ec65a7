//! A session's core.

ghost use Rattle.std.specs.Prelude.{◌≡◌, ◌≤◌, ◌<◌, None, IsSome, IsOk, IsErr, IfSome, OnOk, OnErr, IfOk};
ghost use Rattle.any_game.specs.AnyRules.{named};
ghost use Rattle.wire_json.specs.ClientReading.{client_read};
ghost use Rattle.game_hall.specs.Bench.{sought_for, wanted};
ghost use Rattle.game_hall.specs.Core.{IsSettled, answered, asked, bot_answered, bot_sat, bot_wanted, fresh, heard, is_again, moved, plain, released, starved, ticket_of, with_bench, written};
ghost use Rattle.room_history.specs.declared.reply.RoomReply.TheVariants.{NoMemory as NoMemoryThere};
ghost use Rattle.game_hall.specs.Kept.{IsNamed, MayWantMemory, NextIn};
ghost use Rattle.game_hall.specs.Words.{drawn, next_action, seed_left_by, words_drawn_by};

use crate::begin::hear;
use crate::bench::Bench;
use crate::next::Next;
use crate::reply::next;
use crate::request::Request;
use crate::written::WrittenAnswer;
use any_game::AnyGame;
use dice_words::Tape;
use game_sheet::{Bytes, MatchName, NoMemory, Seat};
use room_history::{RoomCall, RoomReply};
use std::alloc::Global;
use std::marker::Model;
use std::mem;
use wire_json::Refusal;

/// A session's core. Contracts see its pass, the count of rooms, the room that it is attached to, the next call, the open request,
/// the direct answer, what the bench is asked, and whether a bot of the session has sat down.
///
/// A line is given to `on_line`. As long as `wants` hands out a call it is made, and its reply given to `answered`. With a bench,
/// `wants_bot` hands out the seat of a takeover, and `bot_answer` is given what the bench said of it. Then `written` hands out the
/// direct answer, if there is one.
pub struct SessionCore {
    pass: u32,
    rooms: u8,
    at: Option<u8>,
    call: Option<(u8, RoomCall<AnyGame>)>,
    request: Option<Request>,
    said: Option<WrittenAnswer>,
    bench: Bench,
    sat: bool,
}

impl Drop for SessionCore {
    fn drop(self) {
        let SessionCore {
            pass: _,
            rooms: _,
            at: _,
            call,
            request,
            said,
            bench,
            sat: _,
        } = self;
        drop(bench);
        drop(call);
        drop(request);
        drop(said);
    }
}

impl Model for SessionCore {
    ghost use Rattle.any_game.specs.GameKind.{GameKind};
    ghost use Rattle.game_hall.specs.Core.{Core};
    ghost use Rattle.game_hall.specs.Kept.{IsKept};

    ghost Value = { Core GameKind };

    ghost view = { λ s. record { pass = s.pass; rooms = s.rooms; at = s.at; call = s.call; request = s.request; said = s.said; bench = s.bench; sat = s.sat } };

    ghost invariant = { λ s. IsKept s.rooms s.at s.call s.request };
}

impl SessionCore {
    /// The core of a session that rooms know by this pass, over so many rooms. It takes no memory.
    pub fn new(pass: u32, rooms: u8) -> SessionCore
        requires least { 1 ≤ rooms }
        requires most { rooms ≤ 64 }
        ensures { result ≡ fresh pass rooms }
    {
        SessionCore {
            pass,
            rooms,
            at: None,
            call: None,
            request: None,
            said: None,
            bench: Bench::Absent,
            sat: false,
        }
    }

    /// The core of a session whose takeovers are put to a bench. Without one each is answered that no bot has the seat.
    pub fn with_bench(self) -> SessionCore
        ensures { result ≡ with_bench self }
    {
        let mut core = self;
        let absent = mem::replace(&mut core.bench, Bench::Idle);
        drop(absent);
        core
    }

    /// The pass by which rooms know the session.
    pub fn pass(&self) -> u32
        ensures { result ≡ self.now.pass }
    {
        self.pass
    }

    /// Takes a line of the session, without its newline, and begins its request. The tape begins a new action; a create takes the
    /// seed that stands ready, or draws eight words where there is none, and a join draws four.
    ///
    /// Without memory the request is closed and answered `again`, and nothing was drawn.
    pub fn on_line(
        &mut self,
        alloc: Global,
        line: &[u8],
        tape: &mut Tape,
        seed: &mut Option<[u8; 32]>,
    ) -> Result<(), NoMemory>
        requires closed { self.old.request ≡ None }
        requires written { self.old.said ≡ None }
        requires live { IsSome tape.old.source }
        ensures heard { OnOk result (self.new ≡ heard named self.old (client_read line.now) (next_action tape.old).left seed.old) }
        ensures drawn { OnOk result (tape.new ≡ drawn (words_drawn_by (client_read line.now) seed.old) (next_action tape.old)) }
        ensures taken { OnOk result (seed.new ≡ seed_left_by (client_read line.now) seed.old) }
        ensures starved { OnErr result (self.new ≡ starved self.old None) }
        ensures words_kept { OnErr result (tape.new ≡ next_action tape.old) }
        ensures seed_kept { OnErr result (seed.new ≡ seed.old) }
        ensures same_source { tape.new.source ≡ tape.old.source }
        ensures settled { IsSettled self.new.call self.new.request self.new.said }
    {
        tape.begin();
        let next = hear(
            alloc,
            self.rooms,
            self.at,
            line,
            tape,
            seed,
            &mut self.bench,
        );
        self.go_on(next)
    }

    /// Hands out the next call of the open request, with its room. It is none exactly where no request is open, or its call was
    /// handed out.
    pub fn wants(&mut self) -> Option<(u8, RoomCall<AnyGame>)>
        ensures call { result ≡ self.old.call }
        ensures there { IfSome result (λ call. call.0 < self.old.rooms) }
        ensures asked { self.new ≡ asked self.old }
    {
        self.call.take()
    }

    /// Takes the reply to the call that was handed out last. Where the room had no memory, the request is closed and answered `again`.
    ///
    /// So it is where the core itself has none, which only a row that is shown and a busy room may want.
    #[tactic(auto, using(crate::proofs::Moves::is_starved_by))]
    pub fn answered(&mut self, alloc: Global, reply: RoomReply) -> Result<(), NoMemory>
        requires open { IsSome self.old.request }
        requires asked { self.old.call ≡ None }
        requires written { self.old.said ≡ None }
        requires named { IsNamed reply }
        ensures answered { OnOk result (self.new ≡ answered named self.old reply) }
        ensures starved { OnErr result (self.new ≡ starved self.old None) }
        ensures wanted { OnErr result (IfSome self.old.request (λ request. MayWantMemory request reply)) }
        ensures starved_there { reply ≡ NoMemoryThere → self.new ≡ starved self.old (ticket_of self.old.request) }
        ensures settled { IsSettled self.new.call self.new.request self.new.said }
    {
        let Some(request) = self.request.take() else {
            unreachable!();
        };
        let next = next(alloc, self.rooms, request, reply);
        self.go_on(next)
    }

    /// Hands out the match and the seat of a takeover that the bench is to be asked of. It is none where no takeover waits.
    pub fn wants_bot(&mut self) -> Option<(MatchName, Seat)>
        ensures seat { result ≡ wanted self.old.bench }
        ensures sought { self.new ≡ bot_wanted self.old }
    {
        match mem::replace(&mut self.bench, Bench::Idle) {
            Bench::Wants { name, seat } => {
                self.bench = Bench::Sought { name, seat };
                Some((name, seat))
            }
            other => {
                self.bench = other;
                None
            }
        }
    }

    /// Takes the bench's answer to the takeover that was handed out last: whether a bot has the seat, and is asked to leave it. The
    /// session is answered `asked` then, and else that no bot has the seat. It takes no memory, and is never an error.
    pub fn bot_answer(&mut self, held: bool) -> Result<(), NoMemory>
        requires sought { IsSome (sought_for self.old.bench) }
        requires written { self.old.said ≡ None }
        ensures done { IsOk result }
        ensures answered { self.new ≡ bot_answered self.old held }
    {
        let Bench::Sought { name, seat } = mem::replace(&mut self.bench, Bench::Idle) else {
            unreachable!();
        };
        let answer = if held {
            WrittenAnswer::asked(name, seat)
        } else {
            WrittenAnswer::refused(Refusal::NotABot)
        };
        put(&mut self.said, Some(answer));
        Ok(())
    }

    /// Whether a bot of the session has sat down; at first none has.
    pub fn has_sat(&self) -> bool
        ensures { result ≡ self.now.sat }
    {
        self.sat
    }

    /// A bot of the session has sat down.
    pub fn sat(&mut self)
        ensures { self.new ≡ bot_sat self.old }
    {
        self.sat = true;
    }

    /// Whether the direct answer that waits is `again`. It takes no memory.
    pub fn is_again(&self) -> bool
        ensures { result ≡ is_again self.now.said }
    {
        match &self.said {
            Some(answer) => answer.is_again(),
            None => false,
        }
    }

    /// Answers `again` to a line that there was no memory to hand over. It takes no memory.
    pub fn starve(&mut self)
        requires closed { self.old.request ≡ None }
        requires written { self.old.said ≡ None }
        ensures starved { self.new ≡ starved self.old None }
        ensures settled { IsSettled self.new.call self.new.request self.new.said }
    {
        self.move_on(Next::Says(WrittenAnswer::again(None)));
    }

    /// Hands out the line of the direct answer; no bytes where there is none. It takes no memory.
    pub fn written(&mut self) -> Bytes
        ensures line { result ≡ written self.old }
        ensures plain { self.new ≡ plain self.old }
    {
        match self.said.take() {
            Some(answer) => answer.into_line(),
            None => Bytes::none(),
        }
    }

    /// The room that the session is attached to.
    pub fn attached(&self) -> Option<u8>
        ensures room { result ≡ self.now.at }
        ensures there { IfSome result (λ room. room < self.now.rooms) }
    {
        self.at
    }

    /// The session is attached no more: a room replied so, or handed out its end.
    pub fn released(&mut self)
        ensures { self.new ≡ released self.old }
    {
        self.at = None;
    }

    /// Goes on, or answers `again` where there was no memory to.
    fn go_on(&mut self, next: Result<Next<AnyGame>, NoMemory>) -> Result<(), NoMemory>
        requires { IfOk next (NextIn self.old.rooms) }
        ensures moved { IfOk next (λ n. IsOk result × (self.new ≡ moved self.old n)) }
        ensures starved { OnErr next (IsErr result × (self.new ≡ starved self.old None)) }
        ensures settled { self.old.said ≡ None → IsSettled self.new.call self.new.request self.new.said }
    {
        match next {
            Ok(next) => {
                self.move_on(next);
                Ok(())
            }
            Err(no) => {
                self.move_on(Next::Says(WrittenAnswer::again(None)));
                Err(no)
            }
        }
    }

    /// Goes on.
    fn move_on(&mut self, next: Next<AnyGame>)
        requires { NextIn self.old.rooms next }
        ensures moved { self.new ≡ moved self.old next }
        ensures settled { self.old.said ≡ None → IsSettled self.new.call self.new.request self.new.said }
    {
        match next {
            Next::Calls {
                room,
                call,
                request,
            } => {
                put(&mut self.call, Some((room, call)));
                put(&mut self.request, Some(request));
            }
            Next::Says(answer) => {
                put(&mut self.call, None);
                put(&mut self.request, None);
                put(&mut self.said, Some(answer));
            }
            Next::Attaches { room } => {
                put(&mut self.call, None);
                put(&mut self.request, None);
                self.at = Some(room);
            }
            Next::Silent => {
                put(&mut self.call, None);
                put(&mut self.request, None);
            }
        }
    }
}

/// Puts a value, or none, in the place of another.
fn put<T: Drop>(place: &mut Option<T>, value: Option<T>)
    ensures { place.new ≡ value }
{
    let old = mem::replace(place, value);
    drop(old);
}
