//! The trait that each game implements.

ghost use Rattle.std.specs.Prelude.{◌≡◌, ◌<◌, ◌≤◌, ◌++◌, ◌↔◌, [], length, false, IfOk, IsTrue, OnOk};
ghost use Rattle.dice_words.specs.Strip.{Follows};
ghost use Rattle.serde_json.specs.View.{view};
ghost use Rattle.serde_json.specs.Written.{compact_text, has_float};
ghost use Rattle.game_sheet.specs.SheetFits.{SheetFits};
ghost use Rattle.game_trait.specs.Gives.{Gives, Hooks, Opens};
ghost use Rattle.game_trait.specs.Lawful.{Lawful};
ghost use Rattle.game_trait.specs.Queues.{KeepsToSheet};
ghost use Rattle.game_trait.specs.Rules.{Rules};

use crate::halt::{Halt, HookHalt};
use dice_words::Tape;
use game_sheet::{Args, Ctx, EventQueue, List, MoveId, NoMemory, Outcome, PhaseId, Seat, Sheet};
use serde_json::Value;
use std::alloc::Global;

/// A game: a sheet, what its moves do, and what it does by itself as turns and phases begin and end.
///
/// Every function reads its state and makes a new one. A hook that answers none leaves the state as it is. What game
/// code draws from the tape and puts into the queue of events, which it is handed empty, is part of what it means; the
/// tape and the queue are worth nothing after an answer that isn't Ok. Want of memory is the only answer that no
/// meaning fixes.
pub trait Game {
    /// The game's own state.
    type G: Drop;

    /// What each function means.
    ghost rules: { Self → Rules Self.G };

    /// The fixed description of the game.
    fn sheet(&self) -> &Sheet
        ensures value { result.now ≡ (rules self.now).sheet }
        ensures fits { SheetFits (rules self.now).sheet };

    /// The state at the beginning of a match, of a number of seats that the sheet allows.
    fn setup(&self, alloc: Global, seats: u8, tape: &mut Tape) -> Result<Self::G, HookHalt>
        requires least { (rules self.now).sheet.min_seats ≤ seats }
        requires most { seats ≤ (rules self.now).sheet.max_seats }
        ensures deed { Opens result tape.new.left ((rules self.now).setup seats tape.old.left) }
        ensures follows { Follows tape.old tape.new };

    /// The state after a seat's move, which the sheet names by its place.
    fn play(
        &self,
        alloc: Global,
        g: &Self::G,
        ctx: &Ctx,
        seat: Seat,
        id: MoveId,
        args: &Args,
        tape: &mut Tape,
        events: &mut EventQueue,
    ) -> Result<Self::G, Halt>
        requires known { id < length (rules self.now).sheet.moves }
        requires queue { events.old ≡ [] }
        ensures deed { Gives result tape.old.left tape.new.left events.new ((rules self.now).play g.now ctx.now seat id args.now tape.old.left) }
        ensures follows { Follows tape.old tape.new };

    /// What happens after a seat's move.
    fn on_move(
        &self,
        alloc: Global,
        g: &Self::G,
        ctx: &Ctx,
        seat: Seat,
        tape: &mut Tape,
        events: &mut EventQueue,
    ) -> Result<Option<Self::G>, HookHalt>
        requires queue { events.old ≡ [] }
        ensures deed { Hooks result g.now tape.new.left events.new ((rules self.now).on_move g.now ctx.now seat tape.old.left) }
        ensures follows { Follows tape.old tape.new };

    /// What happens as a turn begins.
    fn turn_begin(
        &self,
        alloc: Global,
        g: &Self::G,
        ctx: &Ctx,
        tape: &mut Tape,
        events: &mut EventQueue,
    ) -> Result<Option<Self::G>, HookHalt>
        requires queue { events.old ≡ [] }
        ensures deed { Hooks result g.now tape.new.left events.new ((rules self.now).turn_begin g.now ctx.now tape.old.left) }
        ensures follows { Follows tape.old tape.new };

    /// What happens as a turn ends.
    fn turn_end(
        &self,
        alloc: Global,
        g: &Self::G,
        ctx: &Ctx,
        tape: &mut Tape,
        events: &mut EventQueue,
    ) -> Result<Option<Self::G>, HookHalt>
        requires queue { events.old ≡ [] }
        ensures deed { Hooks result g.now tape.new.left events.new ((rules self.now).turn_end g.now ctx.now tape.old.left) }
        ensures follows { Follows tape.old tape.new };

    /// What happens as a phase begins.
    fn phase_begin(
        &self,
        alloc: Global,
        g: &Self::G,
        ctx: &Ctx,
        phase: PhaseId,
        tape: &mut Tape,
        events: &mut EventQueue,
    ) -> Result<Option<Self::G>, HookHalt>
        requires queue { events.old ≡ [] }
        ensures deed { Hooks result g.now tape.new.left events.new ((rules self.now).phase_begin g.now ctx.now phase tape.old.left) }
        ensures follows { Follows tape.old tape.new };

    /// What happens as a phase ends.
    fn phase_end(
        &self,
        alloc: Global,
        g: &Self::G,
        ctx: &Ctx,
        phase: PhaseId,
        tape: &mut Tape,
        events: &mut EventQueue,
    ) -> Result<Option<Self::G>, HookHalt>
        requires queue { events.old ≡ [] }
        ensures deed { Hooks result g.now tape.new.left events.new ((rules self.now).phase_end g.now ctx.now phase tape.old.left) }
        ensures follows { Follows tape.old tape.new };

    /// What happens once the match has ended. Events that it queues are dropped.
    fn game_end(
        &self,
        alloc: Global,
        g: &Self::G,
        ctx: &Ctx,
        tape: &mut Tape,
        events: &mut EventQueue,
    ) -> Result<Option<Self::G>, HookHalt>
        requires queue { events.old ≡ [] }
        ensures deed { Hooks result g.now tape.new.left events.new ((rules self.now).game_end g.now ctx.now tape.old.left) }
        ensures follows { Follows tape.old tape.new };

    /// How the match ends in this state; none where it goes on.
    fn end_if(&self, g: &Self::G, ctx: &Ctx) -> Option<Outcome>
        ensures { result ≡ (rules self.now).end_if g.now ctx.now };

    /// Whether the turn ends in this state.
    fn turn_end_if(&self, g: &Self::G, ctx: &Ctx) -> bool
        ensures { result ≡ (rules self.now).turn_end_if g.now ctx.now };

    /// Whether the phase ends in this state.
    fn phase_end_if(&self, g: &Self::G, ctx: &Ctx) -> bool
        ensures { result ≡ (rules self.now).phase_end_if g.now ctx.now };

    /// The play order where the order in force is the game's own.
    fn play_order(&self, alloc: Global, g: &Self::G, ctx: &Ctx) -> Result<List<Seat>, NoMemory>
        ensures { IfOk result (λ order. order ≡ (rules self.now).play_order g.now ctx.now) };

    /// What a viewer may see of the state: the player of a seat, or a spectator where there is no seat.
    fn view(
        &self,
        alloc: Global,
        g: &Self::G,
        ctx: &Ctx,
        viewer: Option<Seat>,
    ) -> Result<Self::G, NoMemory>
        ensures { IfOk result (λ seen. seen ≡ (rules self.now).view g.now ctx.now viewer) };

    /// Whether a move, which the sheet names by its place, may be undone once it is made on this state.
    fn undoable(&self, g: &Self::G, ctx: &Ctx, id: MoveId) -> bool
        requires { id < length (rules self.now).sheet.moves }
        ensures { result ≡ (rules self.now).undoable g.now ctx.now id };

    /// The moves that a seat is offered, with their arguments. Others may be allowed too.
    fn options(
        &self,
        alloc: Global,
        g: &Self::G,
        ctx: &Ctx,
        seat: Seat,
    ) -> Result<List<(MoveId, Args)>, NoMemory>
        ensures { IfOk result (λ offers. offers ≡ (rules self.now).options g.now ctx.now seat) };

    /// The state as JSON, without a float.
    fn to_value(&self, alloc: Global, g: &Self::G) -> Result<Value, NoMemory>
        ensures value { IfOk result (λ v. view v ≡ (rules self.now).value g.now) }
        ensures float_free { IfOk result (λ v. has_float (view v) ≡ false) };

    /// Appends the state's text, which is that of its value. After a want of memory some first part of it may stand there.
    fn write(&self, alloc: Global, out: &mut Vec<u8>, g: &Self::G) -> Result<(), NoMemory>
        ensures { OnOk result (out.new.items ≡ out.old.items ++ compact_text ((rules self.now).value g.now)) };

    /// The own state that is written so; none where no own state is.
    fn from_value(&self, alloc: Global, v: &Value) -> Result<Option<Self::G>, NoMemory>
        ensures { IfOk result (λ read. read ≡ (rules self.now).read (view v.now)) };

    /// Whether two states are equal.
    fn same(&self, a: &Self::G, b: &Self::G) -> bool
        ensures { IsTrue result ↔ (a.now ≡ b.now) };

    /// An equal state.
    fn copy(&self, alloc: Global, g: &Self::G) -> Result<Self::G, NoMemory>
        ensures { IfOk result (λ copied. copied ≡ g.now) };

    /// The events that game code queues name rows of the sheet alone.
    ghost in_sheet: { (game : Self) → KeepsToSheet (rules game) };

    /// What holds of every game's own states, views and offers.
    ghost lawful: { (game : Self) → Lawful (rules game) };
}
