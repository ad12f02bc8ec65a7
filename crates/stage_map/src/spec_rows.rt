//! The rows that a spec gives a new map.

ghost use Rattle.std.specs.Prelude.{◌≡◌, ◌++◌, ◌∷◌, [], IfOk, map};
ghost use Rattle.stage_map.specs.Rows.{each_at, others, placed, put_all, spec_rows};

use crate::rows::{Row, put};
use game_sheet::{List, NoMemory, Place, Seat, SpecRow};
use std::alloc::Global;

/// The rows of a spec with this current seat and play order: the current seat, the others, all, then the seats that the
/// spec names. A later row replaces an earlier one of the same seat.
#[tactic(auto, using(crate::proofs::Puts::put_all_append))]
pub fn spec_rows(
    alloc: Global,
    spec: &SpecRow,
    current: Seat,
    order: &[Seat],
) -> Result<List<Row>, NoMemory>
    ensures { IfOk result (λ list. list ≡ spec_rows spec.now current order.now) }
{
    let rows = with_current(alloc, spec, current)?;
    let rows = with_others(alloc, spec, current, order, rows)?;
    let rows = with_order(alloc, spec, order, rows)?;
    with_named(alloc, spec, rows)
}

/// The row of the current seat alone, where the spec puts it.
fn with_current(alloc: Global, spec: &SpecRow, current: Seat) -> Result<List<Row>, NoMemory>
    ensures { IfOk result (λ list. list ≡ put_all spec.now (each_at spec.now.current (current ∷ [])) []) }
{
    let rows = List::new(alloc);
    match &spec.current {
        None => Ok(rows),
        Some(place) => put(alloc, placed(spec, place, current), rows.as_slice()),
    }
}

/// The rows after every seat of the play order but the current one is put, where the spec puts them.
fn with_others(
    alloc: Global,
    spec: &SpecRow,
    current: Seat,
    order: &[Seat],
    rows: List<Row>,
) -> Result<List<Row>, NoMemory>
    ensures { IfOk result (λ list. list ≡ put_all spec.now (each_at spec.now.others (others current order.now)) rows) }
{
    match &spec.others {
        None => Ok(rows),
        Some(place) => with_all_but(alloc, spec, place, current, order, rows),
    }
}

/// The rows after every seat of the play order is put, where the spec puts them.
fn with_order(
    alloc: Global,
    spec: &SpecRow,
    order: &[Seat],
    rows: List<Row>,
) -> Result<List<Row>, NoMemory>
    ensures { IfOk result (λ list. list ≡ put_all spec.now (each_at spec.now.all order.now) rows) }
{
    match &spec.all {
        None => Ok(rows),
        Some(place) => with_all(alloc, spec, place, order, rows),
    }
}

/// The rows after every seat of the play order but the current one is put at a place.
fn with_all_but(
    alloc: Global,
    spec: &SpecRow,
    place: &Place,
    current: Seat,
    order: &[Seat],
    rows: List<Row>,
) -> Result<List<Row>, NoMemory>
    ensures { IfOk result (λ list. list ≡ put_all spec.now (map (λ seat. (seat, place.now)) (others current order.now)) rows) }
{
    let mut rows = rows;
    for seat in order {
        if *seat != current {
            rows = put(alloc, placed(spec, place, *seat), rows.as_slice())?;
        }
    }
    Ok(rows)
}

/// The rows after every seat of the play order is put at a place.
fn with_all(
    alloc: Global,
    spec: &SpecRow,
    place: &Place,
    order: &[Seat],
    rows: List<Row>,
) -> Result<List<Row>, NoMemory>
    ensures { IfOk result (λ list. list ≡ put_all spec.now (map (λ seat. (seat, place.now)) order.now) rows) }
{
    let mut rows = rows;
    for seat in order {
        rows = put(alloc, placed(spec, place, *seat), rows.as_slice())?;
    }
    Ok(rows)
}

/// The rows after the seats that the spec names are put.
fn with_named(alloc: Global, spec: &SpecRow, rows: List<Row>) -> Result<List<Row>, NoMemory>
    ensures { IfOk result (λ list. list ≡ put_all spec.now spec.now.value rows) }
{
    let mut rows = rows;
    for entry in spec.value.as_slice() {
        rows = put(alloc, placed(spec, &entry.1, entry.0), rows.as_slice())?;
    }
    Ok(rows)
}

/// A seat where the spec puts it, with the spec's limits and no move counted.
fn placed(spec: &SpecRow, place: &Place, seat: Seat) -> Row
    ensures { result ≡ placed spec.now place.now seat }
{
    Row {
        seat,
        stage: place.stage,
        count: 0,
        least: spec.min_moves,
        most: spec.max_moves,
    }
}
