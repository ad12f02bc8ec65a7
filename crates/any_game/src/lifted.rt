//! A game lifted to the states of all games.

ghost use Rattle.std.specs.Prelude.{◌≡◌, ℕ, List as Items, IfOk};
ghost use Rattle.any_game.specs.Lifted.{lifted, lifted_deed};
ghost use Rattle.game_sheet.specs.declared.act.Event.{Event};
ghost use Rattle.game_trait.specs.Deed.{Barred, Deed, Lack};
ghost use Rattle.game_trait.specs.Gives.{Gives, Hooks};

use crate::any_g::{AnyG, OwnState};
use dice_words::Tape;
use game_sheet::{Args, Ctx, EventQueue, List, MoveId, NoMemory, Outcome, PhaseId, Seat, Sheet};
use game_trait::{Game, Halt, HookHalt};
use serde_json::Value;
use std::alloc::Global;

/// A game whose states are those of all games.
#[derive(Drop)]
pub(crate) struct Lifted<X> {
    pub(crate) game: X,
}

/// A move's answer with its state among those of all games.
fn given<H: OwnState>(answer: Result<H, Halt>) -> Result<AnyG, Halt>
    ensures { (before left : Items ℕ) (queued : Items Event) (meaning : Deed H Barred) → Gives answer before left queued meaning → Gives result before left queued (lifted_deed H.inject meaning) }
{
    match answer {
        Ok(own) => Ok(own.into_any()),
        Err(why) => Err(why),
    }
}

/// A hook's answer on an own state, with its state among those of all games.
fn hooked<H: OwnState>(answer: Result<Option<H>, HookHalt>) -> Result<Option<AnyG>, HookHalt>
    ensures { (g : AnyG) (own : H) (left : Items ℕ) (queued : Items Event) (meaning : Deed H Lack) → g ≡ H.inject own → Hooks answer own left queued meaning → Hooks result g left queued (lifted_deed H.inject meaning) }
{
    match answer {
        Ok(Some(own)) => Ok(Some(own.into_any())),
        Ok(None) => Ok(None),
        Err(why) => Err(why),
    }
}

impl<X: Game> Game for Lifted<X>
where
    X::G: OwnState,
{
    ghost use Rattle.any_game.specs.InSheet.{lifted_keeps};
    ghost use Rattle.any_game.specs.LiftedLaws.{lifted_lawful};

    type G = AnyG;

    ghost rules = { λ l. lifted X.G.inject X.G.project (X.rules l.game) };

    ghost in_sheet = { λ l. lifted_keeps X.G.inject X.G.project (X.rules l.game) (X.in_sheet l.game) };

    ghost lawful = { λ l. lifted_lawful X.G.inject X.G.project X.G.finds X.G.tells (X.rules l.game) (X.lawful l.game) };

    fn sheet(&self) -> &Sheet {
        self.game.sheet()
    }

    fn setup(&self, alloc: Global, seats: u8, tape: &mut Tape) -> Result<AnyG, HookHalt> {
        match self.game.setup(alloc, seats, tape) {
            Ok(own) => Ok(own.into_any()),
            Err(why) => Err(why),
        }
    }

    fn play(
        &self,
        alloc: Global,
        g: &AnyG,
        ctx: &Ctx,
        seat: Seat,
        id: MoveId,
        args: &Args,
        tape: &mut Tape,
        events: &mut EventQueue,
    ) -> Result<AnyG, Halt> {
        match X::G::of_any(g) {
            Some(own) => given(
                self.game
                    .play(alloc, own, ctx, seat, id, args, tape, events),
            ),
            None => Err(Halt::Invalid),
        }
    }

    fn on_move(
        &self,
        alloc: Global,
        g: &AnyG,
        ctx: &Ctx,
        seat: Seat,
        tape: &mut Tape,
        events: &mut EventQueue,
    ) -> Result<Option<AnyG>, HookHalt> {
        match X::G::of_any(g) {
            Some(own) => hooked(self.game.on_move(alloc, own, ctx, seat, tape, events)),
            None => Ok(None),
        }
    }

    fn turn_begin(
        &self,
        alloc: Global,
        g: &AnyG,
        ctx: &Ctx,
        tape: &mut Tape,
        events: &mut EventQueue,
    ) -> Result<Option<AnyG>, HookHalt> {
        match X::G::of_any(g) {
            Some(own) => hooked(self.game.turn_begin(alloc, own, ctx, tape, events)),
            None => Ok(None),
        }
    }

    fn turn_end(
        &self,
        alloc: Global,
        g: &AnyG,
        ctx: &Ctx,
        tape: &mut Tape,
        events: &mut EventQueue,
    ) -> Result<Option<AnyG>, HookHalt> {
        match X::G::of_any(g) {
            Some(own) => hooked(self.game.turn_end(alloc, own, ctx, tape, events)),
            None => Ok(None),
        }
    }

    fn phase_begin(
        &self,
        alloc: Global,
        g: &AnyG,
        ctx: &Ctx,
        phase: PhaseId,
        tape: &mut Tape,
        events: &mut EventQueue,
    ) -> Result<Option<AnyG>, HookHalt> {
        match X::G::of_any(g) {
            Some(own) => hooked(self.game.phase_begin(alloc, own, ctx, phase, tape, events)),
            None => Ok(None),
        }
    }

    fn phase_end(
        &self,
        alloc: Global,
        g: &AnyG,
        ctx: &Ctx,
        phase: PhaseId,
        tape: &mut Tape,
        events: &mut EventQueue,
    ) -> Result<Option<AnyG>, HookHalt> {
        match X::G::of_any(g) {
            Some(own) => hooked(self.game.phase_end(alloc, own, ctx, phase, tape, events)),
            None => Ok(None),
        }
    }

    fn game_end(
        &self,
        alloc: Global,
        g: &AnyG,
        ctx: &Ctx,
        tape: &mut Tape,
        events: &mut EventQueue,
    ) -> Result<Option<AnyG>, HookHalt> {
        match X::G::of_any(g) {
            Some(own) => hooked(self.game.game_end(alloc, own, ctx, tape, events)),
            None => Ok(None),
        }
    }

    fn end_if(&self, g: &AnyG, ctx: &Ctx) -> Option<Outcome> {
        match X::G::of_any(g) {
            Some(own) => self.game.end_if(own, ctx),
            None => None,
        }
    }

    fn turn_end_if(&self, g: &AnyG, ctx: &Ctx) -> bool {
        match X::G::of_any(g) {
            Some(own) => self.game.turn_end_if(own, ctx),
            None => false,
        }
    }

    fn phase_end_if(&self, g: &AnyG, ctx: &Ctx) -> bool {
        match X::G::of_any(g) {
            Some(own) => self.game.phase_end_if(own, ctx),
            None => false,
        }
    }

    fn play_order(&self, alloc: Global, g: &AnyG, ctx: &Ctx) -> Result<List<Seat>, NoMemory> {
        match X::G::of_any(g) {
            Some(own) => self.game.play_order(alloc, own, ctx),
            None => Ok(List::new(alloc)),
        }
    }

    fn view(
        &self,
        alloc: Global,
        g: &AnyG,
        ctx: &Ctx,
        viewer: Option<Seat>,
    ) -> Result<AnyG, NoMemory> {
        match X::G::of_any(g) {
            Some(own) => Ok(self.game.view(alloc, own, ctx, viewer)?.into_any()),
            None => g.copy(alloc),
        }
    }

    fn undoable(&self, g: &AnyG, ctx: &Ctx, id: MoveId) -> bool {
        match X::G::of_any(g) {
            Some(own) => self.game.undoable(own, ctx, id),
            None => false,
        }
    }

    fn options(
        &self,
        alloc: Global,
        g: &AnyG,
        ctx: &Ctx,
        seat: Seat,
    ) -> Result<List<(MoveId, Args)>, NoMemory> {
        match X::G::of_any(g) {
            Some(own) => self.game.options(alloc, own, ctx, seat),
            None => Ok(List::new(alloc)),
        }
    }

    fn to_value(&self, alloc: Global, g: &AnyG) -> Result<Value, NoMemory> {
        match X::G::of_any(g) {
            Some(own) => self.game.to_value(alloc, own),
            None => g.to_value(alloc),
        }
    }

    fn write(&self, alloc: Global, out: &mut Vec<u8>, g: &AnyG) -> Result<(), NoMemory> {
        match X::G::of_any(g) {
            Some(own) => self.game.write(alloc, out, own),
            None => g.write(alloc, out),
        }
    }

    fn from_value(&self, alloc: Global, v: &Value) -> Result<Option<AnyG>, NoMemory> {
        match self.game.from_value(alloc, v)? {
            Some(own) => Ok(Some(own.into_any())),
            None => Ok(None),
        }
    }

    fn same(&self, a: &AnyG, b: &AnyG) -> bool {
        a.same(b)
    }

    fn copy(&self, alloc: Global, g: &AnyG) -> Result<AnyG, NoMemory> {
        g.copy(alloc)
    }
}
