//! A described game as a game.

ghost use Rattle.std.specs.Prelude.{◌≡◌, [], Some, None};

use crate::described::Described;
use crate::ends::{match_over, phase_over, turn_over};
use crate::hooks::{open_match, run_hook, turn_code};
use crate::moves::make_move;
use crate::offers::all_offers;
use crate::order::seats_ordered;
use crate::scenes::scene_at;
use dice_words::Tape;
use game_sheet::{
    Args, Ctx, EventQueue, List, MoveId, NoMemory, Outcome, PhaseId, Seat, Sheet, unbroken,
};
use game_slots::Table;
use game_trait::{Game, Halt, HookHalt, may_be_offered};
use serde_json::Value;
use slot_json::{table_from_json, table_to_json, write_table};
use std::alloc::Global;

impl Game for Described {
    ghost use Rattle.described_game.specs.DescribedLaws.{described_in_sheet, described_lawful};
    ghost use Rattle.described_game.specs.DescribedRules.{rules_of};

    type G = Table;

    ghost rules = { λ d. rules_of d.parts };

    ghost in_sheet = { λ d. described_in_sheet d.parts d.sound };

    ghost lawful = { λ d. described_lawful d.parts d.sound };

    fn sheet(&self) -> &Sheet {
        unbroken(&self.parts.sheet)
    }

    fn setup(&self, alloc: Global, seats: u8, tape: &mut Tape) -> Result<Table, HookHalt> {
        open_match(alloc, &self.parts, seats, tape)
    }

    fn play(
        &self,
        alloc: Global,
        g: &Table,
        ctx: &Ctx,
        seat: Seat,
        id: MoveId,
        args: &Args,
        tape: &mut Tape,
        events: &mut EventQueue,
    ) -> Result<Table, Halt> {
        let scene = scene_at(&self.parts, ctx, Some(seat), args.as_slice());
        match self.parts.moves.get(usize::from(id.place())) {
            Some(code) => make_move(alloc, code, &scene, g, tape, events),
            None => Err(Halt::Invalid),
        }
    }

    fn on_move(
        &self,
        alloc: Global,
        g: &Table,
        ctx: &Ctx,
        seat: Seat,
        tape: &mut Tape,
        events: &mut EventQueue,
    ) -> Result<Option<Table>, HookHalt> {
        let scene = scene_at(&self.parts, ctx, Some(seat), &[]);
        run_hook(
            alloc,
            &turn_code(&self.parts, ctx).on_move,
            &scene,
            g,
            tape,
            events,
        )
    }

    fn turn_begin(
        &self,
        alloc: Global,
        g: &Table,
        ctx: &Ctx,
        tape: &mut Tape,
        events: &mut EventQueue,
    ) -> Result<Option<Table>, HookHalt> {
        let scene = scene_at(&self.parts, ctx, None, &[]);
        run_hook(
            alloc,
            &turn_code(&self.parts, ctx).on_begin,
            &scene,
            g,
            tape,
            events,
        )
    }

    fn turn_end(
        &self,
        alloc: Global,
        g: &Table,
        ctx: &Ctx,
        tape: &mut Tape,
        events: &mut EventQueue,
    ) -> Result<Option<Table>, HookHalt> {
        let scene = scene_at(&self.parts, ctx, None, &[]);
        run_hook(
            alloc,
            &turn_code(&self.parts, ctx).on_end,
            &scene,
            g,
            tape,
            events,
        )
    }

    fn phase_begin(
        &self,
        alloc: Global,
        g: &Table,
        ctx: &Ctx,
        phase: PhaseId,
        tape: &mut Tape,
        events: &mut EventQueue,
    ) -> Result<Option<Table>, HookHalt> {
        let scene = scene_at(&self.parts, ctx, None, &[]);
        match self.parts.phases.get(usize::from(phase.place())) {
            Some(code) => run_hook(alloc, &code.on_begin, &scene, g, tape, events),
            None => Ok(None),
        }
    }

    fn phase_end(
        &self,
        alloc: Global,
        g: &Table,
        ctx: &Ctx,
        phase: PhaseId,
        tape: &mut Tape,
        events: &mut EventQueue,
    ) -> Result<Option<Table>, HookHalt> {
        let scene = scene_at(&self.parts, ctx, None, &[]);
        match self.parts.phases.get(usize::from(phase.place())) {
            Some(code) => run_hook(alloc, &code.on_end, &scene, g, tape, events),
            None => Ok(None),
        }
    }

    fn game_end(
        &self,
        alloc: Global,
        g: &Table,
        ctx: &Ctx,
        tape: &mut Tape,
        events: &mut EventQueue,
    ) -> Result<Option<Table>, HookHalt> {
        let scene = scene_at(&self.parts, ctx, None, &[]);
        run_hook(alloc, &self.parts.on_end, &scene, g, tape, events)
    }

    fn end_if(&self, g: &Table, ctx: &Ctx) -> Option<Outcome> {
        match_over(&self.parts, g, ctx)
    }

    fn turn_end_if(&self, g: &Table, ctx: &Ctx) -> bool {
        turn_over(&self.parts, g, ctx)
    }

    fn phase_end_if(&self, g: &Table, ctx: &Ctx) -> bool {
        phase_over(&self.parts, g, ctx)
    }

    fn play_order(&self, alloc: Global, g: &Table, ctx: &Ctx) -> Result<List<Seat>, NoMemory> {
        seats_ordered(alloc, &self.parts, g, ctx)
    }

    fn view(
        &self,
        alloc: Global,
        g: &Table,
        ctx: &Ctx,
        viewer: Option<Seat>,
    ) -> Result<Table, NoMemory> {
        g.strip(alloc, viewer)
    }

    fn undoable(&self, g: &Table, ctx: &Ctx, id: MoveId) -> bool {
        match self.parts.moves.get(usize::from(id.place())) {
            Some(code) => code.undoable,
            None => false,
        }
    }

    fn options(
        &self,
        alloc: Global,
        g: &Table,
        ctx: &Ctx,
        seat: Seat,
    ) -> Result<List<(MoveId, Args)>, NoMemory> {
        if may_be_offered(ctx, seat) {
            all_offers(alloc, &self.parts, g, ctx, seat)
        } else {
            Ok(List::new(alloc))
        }
    }

    fn to_value(&self, alloc: Global, g: &Table) -> Result<Value, NoMemory> {
        table_to_json(alloc, &self.parts.layout, g)
    }

    fn write(&self, alloc: Global, out: &mut Vec<u8>, g: &Table) -> Result<(), NoMemory> {
        write_table(alloc, out, &self.parts.layout, g)
    }

    fn from_value(&self, alloc: Global, v: &Value) -> Result<Option<Table>, NoMemory> {
        table_from_json(alloc, &self.parts.layout, v)
    }

    fn same(&self, a: &Table, b: &Table) -> bool {
        a.same(b)
    }

    fn copy(&self, alloc: Global, g: &Table) -> Result<Table, NoMemory> {
        g.copy(alloc)
    }
}
