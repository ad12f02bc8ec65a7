//! A share of a described game, for the matches that are played by it. It is a game too: the one that it shares.

ghost use Rattle.std.specs.Prelude.{◌≡◌, IfOk};

use crate::described::Described;
use dice_words::Tape;
use game_sheet::{Args, Ctx, EventQueue, List, MoveId, NoMemory, Outcome, PhaseId, Seat, Sheet};
use game_slots::Table;
use game_trait::{Game, Halt, HookHalt};
use serde_json::Value;
use std::alloc::Global;
use std::marker::Model;
use std::sync::Arc;

/// A share of a described game. Contracts see the game.
pub struct Shared {
    held: Arc<Described, Global>,
}

impl Drop for Shared {
    fn drop(self) {
        let Shared { held } = self;
        drop(held);
    }
}

impl Model for Shared {
    ghost use Rattle.std.specs.Arc.{arc_value};
    ghost use Rattle.std.specs.Coded.{codes};
    ghost use Rattle.described_game.specs.declared.described.Described.{Described};
    ghost use Rattle.game_code.specs.contracts.expression.Expression as expression;
    ghost use Rattle.game_code.specs.contracts.statement.Statement as statement;

    ghost Value = { Described };

    ghost coded = { Prim.hlevel (codes, expression.the_row.coded, statement.the_row.coded) };

    ghost view = { λ s. arc_value s.held };
}

impl Shared {
    /// A first share of a game.
    pub fn new(alloc: Global, game: Described) -> Result<Self, NoMemory>
        ensures { IfOk result (λ shared. shared ≡ game) }
    {
        match Arc::new(alloc, game) {
            Ok(held) => Ok(Shared { held }),
            Err(failed) => {
                drop(failed);
                Err(NoMemory)
            }
        }
    }

    /// A further share of the same game.
    pub fn copy_game(&self) -> Result<Self, NoMemory>
        ensures { IfOk result (λ shared. shared ≡ self.now) }
    {
        let held = Arc::try_clone(&self.held)?;
        Ok(Shared { held })
    }

    /// The game.
    pub fn game(&self) -> &Described
        ensures { result.now ≡ self.now }
    {
        &self.held
    }
}

impl Game for Shared {
    ghost use Rattle.described_game.specs.DescribedLaws.{described_in_sheet, described_lawful};
    ghost use Rattle.described_game.specs.DescribedRules.{rules_of};

    type G = Table;

    ghost rules = { λ s. rules_of s.parts };

    ghost in_sheet = { λ s. described_in_sheet s.parts s.sound };

    ghost lawful = { λ s. described_lawful s.parts s.sound };

    fn sheet(&self) -> &Sheet {
        self.game().sheet()
    }

    fn setup(&self, alloc: Global, seats: u8, tape: &mut Tape) -> Result<Table, HookHalt> {
        self.game().setup(alloc, seats, tape)
    }

    fn play(
        &self,
        alloc: Global,
        g: &Table,
        ctx: &Ctx,
        seat: Seat,
        id: MoveId,
        args: &Args,
        tape: &mut Tape,
        events: &mut EventQueue,
    ) -> Result<Table, Halt> {
        self.game()
            .play(alloc, g, ctx, seat, id, args, tape, events)
    }

    fn on_move(
        &self,
        alloc: Global,
        g: &Table,
        ctx: &Ctx,
        seat: Seat,
        tape: &mut Tape,
        events: &mut EventQueue,
    ) -> Result<Option<Table>, HookHalt> {
        self.game().on_move(alloc, g, ctx, seat, tape, events)
    }

    fn turn_begin(
        &self,
        alloc: Global,
        g: &Table,
        ctx: &Ctx,
        tape: &mut Tape,
        events: &mut EventQueue,
    ) -> Result<Option<Table>, HookHalt> {
        self.game().turn_begin(alloc, g, ctx, tape, events)
    }

    fn turn_end(
        &self,
        alloc: Global,
        g: &Table,
        ctx: &Ctx,
        tape: &mut Tape,
        events: &mut EventQueue,
    ) -> Result<Option<Table>, HookHalt> {
        self.game().turn_end(alloc, g, ctx, tape, events)
    }

    fn phase_begin(
        &self,
        alloc: Global,
        g: &Table,
        ctx: &Ctx,
        phase: PhaseId,
        tape: &mut Tape,
        events: &mut EventQueue,
    ) -> Result<Option<Table>, HookHalt> {
        self.game().phase_begin(alloc, g, ctx, phase, tape, events)
    }

    fn phase_end(
        &self,
        alloc: Global,
        g: &Table,
        ctx: &Ctx,
        phase: PhaseId,
        tape: &mut Tape,
        events: &mut EventQueue,
    ) -> Result<Option<Table>, HookHalt> {
        self.game().phase_end(alloc, g, ctx, phase, tape, events)
    }

    fn game_end(
        &self,
        alloc: Global,
        g: &Table,
        ctx: &Ctx,
        tape: &mut Tape,
        events: &mut EventQueue,
    ) -> Result<Option<Table>, HookHalt> {
        self.game().game_end(alloc, g, ctx, tape, events)
    }

    fn end_if(&self, g: &Table, ctx: &Ctx) -> Option<Outcome> {
        self.game().end_if(g, ctx)
    }

    fn turn_end_if(&self, g: &Table, ctx: &Ctx) -> bool {
        self.game().turn_end_if(g, ctx)
    }

    fn phase_end_if(&self, g: &Table, ctx: &Ctx) -> bool {
        self.game().phase_end_if(g, ctx)
    }

    fn play_order(&self, alloc: Global, g: &Table, ctx: &Ctx) -> Result<List<Seat>, NoMemory> {
        self.game().play_order(alloc, g, ctx)
    }

    fn view(
        &self,
        alloc: Global,
        g: &Table,
        ctx: &Ctx,
        viewer: Option<Seat>,
    ) -> Result<Table, NoMemory> {
        self.game().view(alloc, g, ctx, viewer)
    }

    fn undoable(&self, g: &Table, ctx: &Ctx, id: MoveId) -> bool {
        self.game().undoable(g, ctx, id)
    }

    fn options(
        &self,
        alloc: Global,
        g: &Table,
        ctx: &Ctx,
        seat: Seat,
    ) -> Result<List<(MoveId, Args)>, NoMemory> {
        self.game().options(alloc, g, ctx, seat)
    }

    fn to_value(&self, alloc: Global, g: &Table) -> Result<Value, NoMemory> {
        self.game().to_value(alloc, g)
    }

    fn write(&self, alloc: Global, out: &mut Vec<u8>, g: &Table) -> Result<(), NoMemory> {
        self.game().write(alloc, out, g)
    }

    fn from_value(&self, alloc: Global, v: &Value) -> Result<Option<Table>, NoMemory> {
        self.game().from_value(alloc, v)
    }

    fn same(&self, a: &Table, b: &Table) -> bool {
        self.game().same(a, b)
    }

    fn copy(&self, alloc: Global, g: &Table) -> Result<Table, NoMemory> {
        self.game().copy(alloc, g)
    }
}
