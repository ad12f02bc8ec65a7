//! The check of a sheet by its ten rules, of which the first broken one is named.

ghost use Rattle.std.specs.Prelude.{◌≡◌, ◌↔◌, ◌==◌, ◌&&◌, nat_le, nat_lt, length, map, IsOk, IfErr, OnOk, count_by};
ghost use Rattle.std.specs.List.{list_all, enumerate_from};
ghost use Rattle.std.specs.Char.{is_ascii_alphanumeric};
ghost use Rattle.std.specs.Str.{bytes_eq};
ghost use Rattle.game_sheet.specs.declared.sheet.PhaseRow.{PhaseRow};
ghost use Rattle.game_sheet.specs.declared.sheet.StageRow.{StageRow};
ghost use Rattle.game_sheet.specs.declared.sheet.TurnRow.{TurnRow};
ghost use Rattle.game_sheet.specs.SheetFits.{SheetFits};
ghost use Rattle.game_sheet.specs.SheetRules.{are_distinct, are_named, broken, first_broken, is_game_letter, is_limit, is_name, is_once, is_there, kept, list_fits, lists_fit, moves_fit, name_fits, nexts_fit, order_fits, orders_fit, phases_fit, place_fits, seats_fit, spec_fits, specs_fit, stages_fit, turn_fits, turns_fit, where_given};

use crate::ids::{MOST_SEATS, MoveId, PhaseId, Seat, SpecId, StageId};
use crate::list::List;
use crate::names::Named;
use crate::sheet::{Order, PhaseRow, Place, Sheet, SpecRow, StageRow, TurnRow};

/// A sheet breaks a rule.
#[derive(Clone, Copy)]
pub struct SheetFault {
    /// The number of the first rule that it breaks, from 1 to 10.
    pub rule: u8,
}

/// Whether a sheet keeps the ten rules of sheets; the fault names the first that it breaks. It takes no memory.
///
/// 1. The name is 1 to 32 lower-case letters, digits and dashes.
/// 2. There are 1 to 16 seats, the least count not above the greatest.
/// 3. There are 1 to 64 moves, whose names are 1 to 32 letters and digits and distinct.
/// 4. There are at most 16 phases, named likewise.
/// 5. There are at most 16 stages, named likewise.
/// 6. Every list of moves names moves that are there.
/// 7. At most one phase is the first, and what follows a phase or a stage is there.
/// 8. A turn's greatest count of moves is at least 1 and its least one, and its spec is there.
/// 9. An order that goes round once stands in phases only, and a list of seats has 1 to 64 seats of every match.
/// 10. There are at most 16 specs, whose stages and seats are there and limits in order, and which are followed by later ones.
#[tactic(auto, unfolding(crate::specs::SheetRules::broken))]
pub fn check_sheet(sheet: &Sheet) -> Result<(), SheetFault>
    ensures passes { IsOk result ↔ (broken sheet.now ≡ 0) }
    ensures fault { IfErr result (λ fault. fault.rule ≡ broken sheet.now) }
    ensures fits { OnOk result (SheetFits sheet.now) }
{
    match first_broken(&rules_kept(sheet)) {
        0 => Ok(()),
        rule => Err(SheetFault { rule }),
    }
}

/// The same sheet, with what holds of a sheet that breaks no rule: for a game whose fixed sheet is known to break none.
pub fn unbroken(sheet: &Sheet) -> &Sheet
    requires { broken sheet.now ≡ 0 }
    ensures same { result.now ≡ sheet.now }
    ensures fits { SheetFits sheet.now }
{
    sheet
}

/// Which of the ten rules a sheet keeps.
fn rules_kept(sheet: &Sheet) -> [bool; 10]
    ensures { result ≡ kept sheet.now }
{
    [
        name_fits(sheet),
        seats_fit(sheet),
        moves_fit(sheet),
        phases_fit(sheet),
        stages_fit(sheet),
        lists_fit(sheet),
        nexts_fit(sheet),
        turns_fit(sheet),
        orders_fit(sheet),
        specs_fit(sheet),
    ]
}

/// The number of the first rule that isn't kept, from 1, or 0.
fn first_broken(kept: &[bool; 10]) -> u8
    ensures { result ≡ first_broken 1 kept.now }
{
    let mut rule = 1;
    for is_kept in kept {
        if !*is_kept {
            return rule;
        }
        rule += 1;
    }
    0
}

fn name_fits(sheet: &Sheet) -> bool
    ensures { result ≡ name_fits sheet.now }
{
    let name = sheet.name.as_str().as_bytes();
    has_name_length(name) && are_game_letters(name)
}

fn has_name_length(name: &[u8]) -> bool
    ensures { result ≡ (nat_le 1 (length name.now) && nat_le (length name.now) 32) }
{
    !name.is_empty() && name.len() <= 32
}

fn are_game_letters(name: &[u8]) -> bool
    ensures { result ≡ list_all is_game_letter name.now }
{
    name.iter().all(|byte| byte.is_ascii_lowercase() || byte.is_ascii_digit() || *byte == b'-')
}

fn is_name(name: &str) -> bool
    ensures { result ≡ is_name is_ascii_alphanumeric name.now }
{
    let name = name.as_bytes();
    has_name_length(name) && are_letters(name)
}

fn are_letters(name: &[u8]) -> bool
    ensures { result ≡ list_all is_ascii_alphanumeric name.now }
{
    name.iter().all(|byte| byte.is_ascii_alphanumeric())
}

fn seats_fit(sheet: &Sheet) -> bool
    ensures { result ≡ seats_fit sheet.now }
{
    sheet.min_seats >= 1 && sheet.min_seats <= sheet.max_seats && sheet.max_seats <= MOST_SEATS
}

fn are_named<Row: Named>(rows: &[Row]) -> bool
    ensures { result ≡ are_named Row.name rows.now }
{
    have_names(rows) && are_distinct(rows)
}

fn have_names<Row: Named>(rows: &[Row]) -> bool
    ensures { result ≡ list_all (λ row. is_name is_ascii_alphanumeric (Row.name row)) rows.now }
{
    rows.iter().all(|row| is_name(row.name()))
}

/// Whether each row's name is that of one row alone.
fn are_distinct<Row: Named>(rows: &[Row]) -> bool
    ensures { result ≡ are_distinct Row.name rows.now }
{
    rows.iter().all(|row| times(rows, row.name()) == 1)
}

/// How many rows have this name.
fn times<Row: Named>(rows: &[Row], name: &str) -> usize
    ensures { result ≡ count_by (λ row. bytes_eq (Row.name row) name.now) rows.now }
{
    rows.iter().filter(|row| row.name() == name).count()
}

fn moves_fit(sheet: &Sheet) -> bool
    ensures { result ≡ moves_fit sheet.now }
{
    let moves = sheet.moves.as_slice();
    !moves.is_empty() && moves.len() <= 64 && are_named(moves)
}

fn phases_fit(sheet: &Sheet) -> bool
    ensures { result ≡ phases_fit sheet.now }
{
    let phases = sheet.phases.as_slice();
    phases.len() <= 16 && are_named(phases)
}

fn stages_fit(sheet: &Sheet) -> bool
    ensures { result ≡ stages_fit sheet.now }
{
    let stages = sheet.stages.as_slice();
    stages.len() <= 16 && are_named(stages)
}

fn lists_fit(sheet: &Sheet) -> bool
    ensures { result ≡ lists_fit sheet.now }
{
    let count = sheet.moves.len();
    are_moves(count, &sheet.base)
        && phases_list(count, sheet.phases.as_slice())
        && stages_list(count, sheet.stages.as_slice())
}

/// Whether each move of a list is one of a table with so many rows.
fn are_moves(count: usize, moves: &List<MoveId>) -> bool
    ensures { result ≡ list_all (is_there count) moves.now }
{
    moves
        .as_slice()
        .iter()
        .all(|id| (id.place() as usize) < count)
}

fn may_be_moves(count: usize, moves: &Option<List<MoveId>>) -> bool
    ensures { result ≡ where_given (list_all (is_there count)) moves.now }
{
    match moves {
        None => true,
        Some(moves) => are_moves(count, moves),
    }
}

fn phases_list(count: usize, phases: &[PhaseRow]) -> bool
    ensures { result ≡ list_all (λ (row : PhaseRow). where_given (list_all (is_there count)) row.moves) phases.now }
{
    phases.iter().all(|row| may_be_moves(count, &row.moves))
}

fn stages_list(count: usize, stages: &[StageRow]) -> bool
    ensures { result ≡ list_all (λ (row : StageRow). where_given (list_all (is_there count)) row.moves) stages.now }
{
    stages.iter().all(|row| may_be_moves(count, &row.moves))
}

fn nexts_fit(sheet: &Sheet) -> bool
    ensures { result ≡ nexts_fit sheet.now }
{
    let phases = sheet.phases.as_slice();
    let stages = sheet.stages.as_slice();
    starts(phases) <= 1 && phases_follow(phases) && stages_follow(stages)
}

/// How many phases a match begins in.
fn starts(phases: &[PhaseRow]) -> usize
    ensures { result ≡ count_by (λ (row : PhaseRow). row.start) phases.now }
{
    phases.iter().filter(|row| row.start).count()
}

fn phases_follow(phases: &[PhaseRow]) -> bool
    ensures { result ≡ list_all (λ (row : PhaseRow). where_given (is_there (length phases.now)) row.next) phases.now }
{
    phases
        .iter()
        .all(|row| phase_is_there(phases.len(), row.next))
}

fn phase_is_there(count: usize, next: Option<PhaseId>) -> bool
    ensures { result ≡ where_given (is_there count) next }
{
    match next {
        None => true,
        Some(id) => (id.place() as usize) < count,
    }
}

fn stages_follow(stages: &[StageRow]) -> bool
    ensures { result ≡ list_all (λ (row : StageRow). where_given (is_there (length stages.now)) row.next) stages.now }
{
    stages
        .iter()
        .all(|row| stage_is_there(stages.len(), row.next))
}

fn stage_is_there(count: usize, stage: Option<StageId>) -> bool
    ensures { result ≡ where_given (is_there count) stage }
{
    match stage {
        None => true,
        Some(id) => (id.place() as usize) < count,
    }
}

fn turns_fit(sheet: &Sheet) -> bool
    ensures { result ≡ turns_fit sheet.now }
{
    turn_fits(sheet, &sheet.turn) && phases_turn(sheet)
}

fn turn_fits(sheet: &Sheet, turn: &TurnRow) -> bool
    ensures { result ≡ turn_fits sheet.now turn.now }
{
    is_limit(turn.min_moves, turn.max_moves) && spec_is_there(sheet.specs.len(), turn.active)
}

/// Whether a greatest count of moves, where one is given, is at least 1 and at least the least one.
fn is_limit(min_moves: u32, max_moves: Option<u32>) -> bool
    ensures { result ≡ where_given (is_limit min_moves) max_moves }
{
    match max_moves {
        None => true,
        Some(most) => most >= 1 && min_moves <= most,
    }
}

fn spec_is_there(count: usize, spec: Option<SpecId>) -> bool
    ensures { result ≡ where_given (is_there count) spec }
{
    match spec {
        None => true,
        Some(id) => (id.place() as usize) < count,
    }
}

fn phases_turn(sheet: &Sheet) -> bool
    ensures { result ≡ list_all (λ (row : PhaseRow). where_given (turn_fits sheet.now) row.turn) sheet.now.phases }
{
    sheet
        .phases
        .as_slice()
        .iter()
        .all(|row| own_turn_fits(sheet, &row.turn))
}

fn own_turn_fits(sheet: &Sheet, turn: &Option<TurnRow>) -> bool
    ensures { result ≡ where_given (turn_fits sheet.now) turn.now }
{
    match turn {
        None => true,
        Some(turn) => turn_fits(sheet, turn),
    }
}

fn orders_fit(sheet: &Sheet) -> bool
    ensures { result ≡ orders_fit sheet.now }
{
    !is_once(&sheet.turn.order) && order_fits(sheet, &sheet.turn.order) && phases_order(sheet)
}

fn is_once(order: &Order) -> bool
    ensures { result ≡ is_once order.now }
{
    match order {
        Order::Once => true,
        _ => false,
    }
}

fn order_fits(sheet: &Sheet, order: &Order) -> bool
    ensures { result ≡ order_fits sheet.now order.now }
{
    match order {
        Order::Custom(seats) => list_fits(sheet.min_seats, seats.as_slice()),
        _ => true,
    }
}

fn list_fits(min_seats: u8, seats: &[Seat]) -> bool
    ensures { result ≡ (nat_le 1 (length seats.now) && nat_le (length seats.now) 64 && list_all (is_there min_seats) seats.now) }
{
    !seats.is_empty() && seats.len() <= 64 && are_seats(min_seats, seats)
}

fn are_seats(min_seats: u8, seats: &[Seat]) -> bool
    ensures { result ≡ list_all (is_there min_seats) seats.now }
{
    seats.iter().all(|seat| *seat < min_seats)
}

fn phases_order(sheet: &Sheet) -> bool
    ensures { result ≡ list_all (λ (row : PhaseRow). where_given (λ (turn : TurnRow). order_fits sheet.now turn.order) row.turn) sheet.now.phases }
{
    sheet
        .phases
        .as_slice()
        .iter()
        .all(|row| own_order_fits(sheet, &row.turn))
}

fn own_order_fits(sheet: &Sheet, turn: &Option<TurnRow>) -> bool
    ensures { result ≡ where_given (λ (turn : TurnRow). order_fits sheet.now turn.order) turn.now }
{
    match turn {
        None => true,
        Some(turn) => order_fits(sheet, &turn.order),
    }
}

fn specs_fit(sheet: &Sheet) -> bool
    ensures { result ≡ specs_fit sheet.now }
{
    sheet.specs.len() <= 16 && each_spec_fits(sheet)
}

fn each_spec_fits(sheet: &Sheet) -> bool
    ensures { result ≡ list_all (λ place_row. spec_fits sheet.now place_row.0 place_row.1) (enumerate_from 0 sheet.now.specs) }
{
    sheet
        .specs
        .as_slice()
        .iter()
        .enumerate()
        .all(|(place, row)| spec_fits(sheet, place, row))
}

fn spec_fits(sheet: &Sheet, place: usize, row: &SpecRow) -> bool
    ensures { result ≡ spec_fits sheet.now place row.now }
{
    may_be_place(sheet, row.current)
        && may_be_place(sheet, row.others)
        && may_be_place(sheet, row.all)
        && value_fits(sheet, row.value.as_slice())
        && is_limit(row.min_moves, row.max_moves)
        && follower_fits(sheet.specs.len(), place, row.next)
}

fn place_fits(sheet: &Sheet, place: Place) -> bool
    ensures { result ≡ place_fits sheet.now place }
{
    stage_is_there(sheet.stages.len(), place.stage)
}

fn may_be_place(sheet: &Sheet, place: Option<Place>) -> bool
    ensures { result ≡ where_given (place_fits sheet.now) place }
{
    match place {
        None => true,
        Some(place) => place_fits(sheet, place),
    }
}

fn value_fits(sheet: &Sheet, value: &[(Seat, Place)]) -> bool
    ensures { result ≡ list_all (λ seat_place. is_there sheet.now.min_seats seat_place.0 && place_fits sheet.now seat_place.1) value.now }
{
    value.iter().all(|(seat, place)| *seat < sheet.min_seats && place_fits(sheet, *place))
}

/// Whether what follows a spec is a later one of a table with so many rows.
fn follower_fits(count: usize, place: usize, next: Option<SpecId>) -> bool
    ensures { result ≡ where_given (λ next. nat_lt place next && is_there count next) next }
{
    match next {
        None => true,
        Some(id) => {
            let next = id.place() as usize;
            place < next && next < count
        }
    }
}
