//! An open game as a game.

ghost use Rattle.std.specs.Prelude.{◌≡◌, None};

use crate::open_game::OpenGame;
use crate::state::State;
use dice_words::Tape;
use game_sheet::{
    Args, Ctx, EventQueue, List, MoveId, NoMemory, Outcome, PhaseId, Seat, Sheet, unbroken,
};
use game_trait::{Game, Halt, HookHalt, may_be_offered};
use serde_json::Value;
use std::alloc::Global;
use std::marker::{Model, PhantomData};

/// An open game as a game, which holds its sheet.
#[derive(Drop)]
pub struct Open<X: OpenGame> {
    sheet: Sheet,
    of: PhantomData<X>,
}

impl<X: OpenGame> Model for Open<X> {
    // It is always the same game.
    ghost Value = { Unit {0} };

    ghost view = { λ _. tt };

    ghost invariant = { λ game. game.sheet ≡ X.rules.sheet };
}

impl<X: OpenGame> Open<X> {
    /// The game.
    pub fn new(alloc: Global) -> Result<Self, NoMemory> {
        let sheet = X::make_sheet(alloc)?;
        Ok(Open {
            sheet,
            of: PhantomData,
        })
    }
}

impl<X: OpenGame> Game for Open<X> {
    ghost use Rattle.open_game.specs.OpenGames.{open_in_sheet, open_lawful};
    ghost use Rattle.open_game.specs.OpenRules.{of_open};

    type G = X::G;

    ghost rules = { λ _. of_open X.G.form X.rules };

    ghost in_sheet = { λ _. open_in_sheet X.G.form X.G.form_laws X.rules X.laws };

    ghost lawful = { λ _. open_lawful X.G.form X.G.form_laws X.rules X.laws };

    fn sheet(&self) -> &Sheet {
        unbroken(&self.sheet)
    }

    fn setup(&self, alloc: Global, seats: u8, tape: &mut Tape) -> Result<X::G, HookHalt> {
        Ok(X::opening(alloc, seats)?)
    }

    fn play(
        &self,
        alloc: Global,
        g: &X::G,
        ctx: &Ctx,
        seat: Seat,
        id: MoveId,
        args: &Args,
        tape: &mut Tape,
        events: &mut EventQueue,
    ) -> Result<X::G, Halt> {
        X::play(alloc, g, seat, id, args.as_slice(), tape, events)
    }

    fn on_move(
        &self,
        alloc: Global,
        g: &X::G,
        ctx: &Ctx,
        seat: Seat,
        tape: &mut Tape,
        events: &mut EventQueue,
    ) -> Result<Option<X::G>, HookHalt> {
        idle()
    }

    fn turn_begin(
        &self,
        alloc: Global,
        g: &X::G,
        ctx: &Ctx,
        tape: &mut Tape,
        events: &mut EventQueue,
    ) -> Result<Option<X::G>, HookHalt> {
        idle()
    }

    fn turn_end(
        &self,
        alloc: Global,
        g: &X::G,
        ctx: &Ctx,
        tape: &mut Tape,
        events: &mut EventQueue,
    ) -> Result<Option<X::G>, HookHalt> {
        idle()
    }

    fn phase_begin(
        &self,
        alloc: Global,
        g: &X::G,
        ctx: &Ctx,
        phase: PhaseId,
        tape: &mut Tape,
        events: &mut EventQueue,
    ) -> Result<Option<X::G>, HookHalt> {
        idle()
    }

    fn phase_end(
        &self,
        alloc: Global,
        g: &X::G,
        ctx: &Ctx,
        phase: PhaseId,
        tape: &mut Tape,
        events: &mut EventQueue,
    ) -> Result<Option<X::G>, HookHalt> {
        idle()
    }

    fn game_end(
        &self,
        alloc: Global,
        g: &X::G,
        ctx: &Ctx,
        tape: &mut Tape,
        events: &mut EventQueue,
    ) -> Result<Option<X::G>, HookHalt> {
        idle()
    }

    fn end_if(&self, g: &X::G, ctx: &Ctx) -> Option<Outcome> {
        X::end_if(g)
    }

    fn turn_end_if(&self, g: &X::G, ctx: &Ctx) -> bool {
        false
    }

    fn phase_end_if(&self, g: &X::G, ctx: &Ctx) -> bool {
        false
    }

    fn play_order(&self, alloc: Global, g: &X::G, ctx: &Ctx) -> Result<List<Seat>, NoMemory> {
        Ok(List::new(alloc))
    }

    fn view(
        &self,
        alloc: Global,
        g: &X::G,
        ctx: &Ctx,
        viewer: Option<Seat>,
    ) -> Result<X::G, NoMemory> {
        self.copy(alloc, g)
    }

    fn undoable(&self, g: &X::G, ctx: &Ctx, id: MoveId) -> bool {
        X::may_undo()
    }

    fn options(
        &self,
        alloc: Global,
        g: &X::G,
        ctx: &Ctx,
        seat: Seat,
    ) -> Result<List<(MoveId, Args)>, NoMemory> {
        if may_be_offered(ctx, seat) {
            X::offers(alloc, g, seat)
        } else {
            Ok(List::new(alloc))
        }
    }

    fn to_value(&self, alloc: Global, g: &X::G) -> Result<Value, NoMemory> {
        g.to_value(alloc)
    }

    fn write(&self, alloc: Global, out: &mut Vec<u8>, g: &X::G) -> Result<(), NoMemory> {
        g.write(alloc, out)
    }

    fn from_value(&self, alloc: Global, v: &Value) -> Result<Option<X::G>, NoMemory> {
        X::G::from_value(alloc, v)
    }

    fn same(&self, a: &X::G, b: &X::G) -> bool {
        a.same(b)
    }

    fn copy(&self, alloc: Global, g: &X::G) -> Result<X::G, NoMemory> {
        g.copy(alloc)
    }
}

/// What a hook answers that does nothing.
fn idle<G>() -> Result<Option<G>, HookHalt>
    ensures { result ≡ Ok None }
{
    Ok(None)
}
