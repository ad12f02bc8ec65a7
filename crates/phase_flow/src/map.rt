//! What changes the map of active players, with what the context shows of it.

ghost use Rattle.std.specs.Prelude.{◌≡◌, ◌≤◌, OnOk, IfOk};
ghost use Rattle.stage_map.specs.Active.{count_of, shown};
ghost use Rattle.stage_map.specs.Set.{set};
ghost use Rattle.stage_map.specs.Stages.{count_move, end_stage, set_stage};
ghost use Rattle.phase_flow.specs.Settle.{speaking};
ghost use Rattle.phase_flow.specs.Turns.{spec_set, with_active};
ghost use Rattle.phase_flow.specs.declared.table.TheConstants.{MOST_COUNT};

use crate::table::Table;
use game_sheet::{Ctx, NoMemory, Seat, Sheet, SpecId, StageId};

/// Sets the spec, if there is one.
pub(crate) fn set_spec<G>(
    sheet: &Sheet,
    spec: Option<SpecId>,
    table: &mut Table<G>,
) -> Result<(), NoMemory>
    ensures { OnOk result (table.new ≡ spec_set sheet.now spec table.old) }
{
    let Some(spec) = spec else {
        return Ok(());
    };
    let current = table.ctx.current;
    table
        .active
        .set(sheet, spec, current, table.ctx.order.as_slice())?;
    show(table)
}

/// Puts the seat that speaks into a stage.
pub(crate) fn put_in_stage<G>(
    speaker: Option<Seat>,
    to: StageId,
    table: &mut Table<G>,
) -> Result<(), NoMemory>
    ensures { OnOk result (table.new ≡ with_active (set_stage (speaking speaker table.old.ctx) to table.old.active) table.old) }
{
    let seat = speaking(speaker, &table.ctx);
    table.active.set_stage(seat, to)?;
    show(table)
}

/// Ends the stage of the seat that speaks; nothing is done where it isn't listed or has made too few moves.
pub(crate) fn end_stage<G>(
    sheet: &Sheet,
    speaker: Option<Seat>,
    table: &mut Table<G>,
) -> Result<(), NoMemory>
    ensures { OnOk result (table.new ≡ with_active (end_stage sheet.now (speaking speaker table.old.ctx) table.old.ctx.current table.old.ctx.order table.old.active) table.old) }
{
    let seat = speaking(speaker, &table.ctx);
    let current = table.ctx.current;
    let _ended = table
        .active
        .end_stage(sheet, seat, current, table.ctx.order.as_slice())?;
    show(table)
}

/// The seat that a task speaks of.
fn speaking(named: Option<Seat>, ctx: &Ctx) -> Seat
    ensures { result ≡ speaking named ctx.now }
{
    match named {
        None => ctx.current,
        Some(seat) => seat,
    }
}

/// The context shows the map as it is.
fn show<G>(table: &mut Table<G>) -> Result<(), NoMemory>
    ensures { OnOk result (table.new ≡ with_active table.old.active table.old) }
{
    let rows = table.active.rows()?;
    table.ctx.active = rows;
    Ok(())
}

/// Counts a move of a seat on the map.
pub(crate) fn count_move<G>(sheet: &Sheet, seat: Seat, table: &mut Table<G>) -> Result<(), NoMemory>
    requires { count_of table.old.active seat ≤ MOST_COUNT }
    ensures { OnOk result (table.new ≡ with_active (count_move sheet.now seat table.old.ctx.current table.old.ctx.order table.old.active) table.old) }
{
    let current = table.ctx.current;
    table
        .active
        .count_move(sheet, seat, current, table.ctx.order.as_slice())?;
    show(table)
}
