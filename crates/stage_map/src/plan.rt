//! What setting a spec comes to, found before the map changes.

ghost use Rattle.std.specs.Prelude.{◌≡◌, [], Some, IfOk};
ghost use Rattle.stage_map.specs.Active.{Map};
ghost use Rattle.stage_map.specs.Plan.{planned};
ghost use Rattle.stage_map.specs.Set.{set_within, stack_after};

use crate::rows::Row;
use crate::spec_rows::spec_rows;
use game_sheet::{List, NoMemory, Seat, Sheet, SpecId, SpecRow};
use std::alloc::Global;

/// What setting a spec comes to.
#[derive(Drop)]
pub struct Plan {
    /// The rows of the last spec that is set.
    pub rows: List<Row>,
    /// Its follower.
    pub next: Option<SpecId>,
    /// Whether each spec that is set keeps the earlier map.
    pub keeps: bool,
}

/// What setting a spec comes to, with at most so many specs in all. There is none where the sheet doesn't have the spec.
#[tactic(auto, using(crate::proofs::Plans::set_none, crate::proofs::Plans::set_first))]
pub fn plan_set(
    alloc: Global,
    sheet: &Sheet,
    spec: SpecId,
    left: usize,
    current: Seat,
    order: &[Seat],
) -> Result<Option<Plan>, NoMemory>
    ensures { IfOk result (λ plan. (m : Map) → set_within left sheet.now current order.now spec m ≡ planned plan m) }
{
    if left == 0 {
        return Ok(None);
    }
    let Some(row) = sheet.specs.get(spec.place() as usize) else {
        return Ok(None);
    };
    let rows = spec_rows(alloc, row, current, order)?;
    match row.next {
        Some(next) if rows.is_empty() => {
            drop(rows);
            match plan_set(alloc, sheet, next, left - 1, current, order) {
                Ok(later) => Ok(Some(followed(alloc, row, later))),
                Err(failed) => Err(failed),
            }
        }
        next => Ok(Some(Plan {
            rows,
            next,
            keeps: row.revert,
        })),
    }
}

/// The plan of a spec without rows and of those that follow it.
fn followed(alloc: Global, row: &SpecRow, later: Option<Plan>) -> Plan
    ensures { (m : Map) → planned later (record { rows = Some []; next = row.now.next; stack = stack_after row.now.revert m }) ≡ planned (Some result) m }
{
    match later {
        None => Plan {
            rows: List::new(alloc),
            next: None,
            keeps: row.revert,
        },
        Some(plan) => Plan {
            keeps: row.revert && plan.keeps,
            ..plan
        },
    }
}
