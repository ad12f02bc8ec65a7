//! What is tested of the parts of a game.

ghost use Rattle.std.specs.Prelude.{◌≡◌, ◌==◌, ◌+◌, ◌*◌, min, nat_le, None, if◌then◌else◌, Some, true};
ghost use Rattle.std.specs.List.{list_all};
ghost use Rattle.std.specs.Option.{option_map_or};
ghost use Rattle.code_laws.specs.Counts.{events_of};
ghost use Rattle.game_sheet.specs.SheetRules.{broken};
ghost use Rattle.game_slots.specs.Slots.{count_in, least_items};
ghost use Rattle.described_game.specs.Tests.{IsSound, code_fault, codes_fit, counts_fit, either_fault, fault_unless, first_fault, group_fits, group_most, group_sees_own, groups_fit, is_quiet, most_rows, move_sees_own, moves_see_own, offers_small, phase_fits, piece_fits, rows_start, seats_fit, sheet_fault, slot_fault, slots_start, start_fits, starts_fit, texts_fit, turn_fits, width_of};
ghost use Rattle.described_game.specs.declared.faults.PartFault.TheVariants.{Sheet as InSheet};
ghost use Rattle.described_game.specs.Offers.{capped, group_width};

use crate::faults::PartFault;
use crate::groups::value_count;
use crate::lists::rest_of;
use crate::parts::{ArgumentGroup, GameParts, MoveCode, PhaseCode, TurnCode};
use crate::ranges::{capped, rows_count, times};
use code_laws::{code_in_sheet, events_of, reads_own};
use game_code::Piece;
use game_sheet::{Sheet, check_sheet};
use game_slots::{Count, SlotRow, TableRows, value_fits};
use slot_json::{layout_fits, text_fits};

/// The fault of the first test that fails; none where all hold.
pub(crate) fn first_fault(parts: &GameParts) -> Option<PartFault>
    ensures value { result ≡ first_fault parts.now }
    ensures sound { result ≡ None → IsSound parts.now }
{
    either_fault(
        sheet_fault(parts),
        either_fault(slot_fault(parts), code_fault(parts)),
    )
}

fn either_fault(one: Option<PartFault>, other: Option<PartFault>) -> Option<PartFault>
    ensures { result ≡ either_fault one other }
{
    match one {
        Some(fault) => Some(fault),
        None => other,
    }
}

fn fault_unless(holds: bool, fault: PartFault) -> Option<PartFault>
    ensures { result ≡ fault_unless holds fault }
{
    if holds { None } else { Some(fault) }
}

/// A fault of the sheet, or that the other parts don't go with it.
fn sheet_fault(parts: &GameParts) -> Option<PartFault>
    ensures { result ≡ sheet_fault parts.now }
{
    either_fault(
        broken_rule(&parts.sheet),
        either_fault(
            fault_unless(counts_fit(parts), PartFault::Counts),
            fault_unless(seats_fit(parts), PartFault::Seats),
        ),
    )
}

fn broken_rule(sheet: &Sheet) -> Option<PartFault>
    ensures { result ≡ (if broken sheet.now == 0 then None else Some (InSheet (record { rule = broken sheet.now }))) }
{
    match check_sheet(sheet) {
        Ok(()) => None,
        Err(fault) => Some(PartFault::Sheet(fault)),
    }
}

/// A fault of the slots.
fn slot_fault(parts: &GameParts) -> Option<PartFault>
    ensures { result ≡ slot_fault parts.now }
{
    either_fault(
        fault_unless(layout_fits(&parts.layout), PartFault::Names),
        either_fault(
            fault_unless(text_fits(&parts.layout), PartFault::Text),
            fault_unless(starts_fit(parts), PartFault::Start),
        ),
    )
}

/// A fault of code and arguments.
fn code_fault(parts: &GameParts) -> Option<PartFault>
    ensures { result ≡ code_fault parts.now }
{
    either_fault(
        either_fault(
            fault_unless(is_quiet(parts), PartFault::Setup),
            fault_unless(codes_fit(parts), PartFault::Code),
        ),
        either_fault(
            fault_unless(moves_see_own(parts), PartFault::Sight),
            fault_unless(offers_small(parts), PartFault::Arguments),
        ),
    )
}

/// Whether there is code for each move and each phase of the sheet.
fn counts_fit(parts: &GameParts) -> bool
    ensures { result ≡ counts_fit parts.now }
{
    parts.moves.len() == parts.sheet.moves.len() && parts.phases.len() == parts.sheet.phases.len()
}

/// Whether states have entries for as many seats as a match may have.
fn seats_fit(parts: &GameParts) -> bool
    ensures { result ≡ seats_fit parts.now }
{
    parts.layout.rows.most_seats == parts.sheet.max_seats
}

/// Whether each slot fits as it starts.
fn starts_fit(parts: &GameParts) -> bool
    ensures { result ≡ starts_fit parts.now }
{
    rows_start(&parts.sheet, &parts.layout.rows)
}

fn rows_start(sheet: &Sheet, rows: &TableRows) -> bool
    ensures { result ≡ rows_start sheet.now rows.now }
{
    slots_start(sheet, rows.common.as_slice())
        && slots_start(sheet, rows.players.as_slice())
        && slots_start(sheet, rows.secret.as_slice())
}

fn slots_start(sheet: &Sheet, rows: &[SlotRow]) -> bool
    ensures { result ≡ slots_start sheet.now rows.now }
{
    let least = sheet.min_seats;
    let most = sheet.max_seats;
    rows.iter().all(|row| start_fits(least, most, row))
}

/// Whether a slot fits as it starts, in matches of the least to the greatest number of seats.
fn start_fits(least: u8, most: u8, row: &SlotRow) -> bool
    ensures { result ≡ start_fits least most row.now }
{
    value_fits(row, &row.start)
        && least_items(row) <= count_in(row.begin, least)
        && count_in(row.begin, most) <= u32::from(row.most)
}

fn least_items(row: &SlotRow) -> u32
    ensures { result ≡ least_items row.now }
{
    if row.lone { 1 } else { 0 }
}

/// How many items there are in a match of so many seats.
fn count_in(count: Count, seats: u8) -> u32
    ensures { result ≡ count_in count seats }
{
    match count {
        Count::Fixed(count) => u32::from(count),
        Count::PerSeat(count) => u32::from(count) * u32::from(seats),
    }
}

/// Whether the first state is made without an event.
fn is_quiet(parts: &GameParts) -> bool
    ensures { result ≡ is_quiet parts.now }
{
    events_of(&parts.setup.code) == 0
}

/// Whether each piece of code but that of the first state names rows of the sheet alone, and queues at most sixteen events.
fn codes_fit(parts: &GameParts) -> bool
    ensures { result ≡ codes_fit parts.now }
{
    moves_fit(&parts.sheet, parts.moves.as_slice())
        && turn_fits(&parts.sheet, &parts.turn)
        && phases_fit(&parts.sheet, parts.phases.as_slice())
        && piece_fits(&parts.sheet, &parts.on_end)
}

fn moves_fit(sheet: &Sheet, moves: &[MoveCode]) -> bool
    ensures { result ≡ list_all (λ code. piece_fits sheet.now code.code) moves.now }
{
    moves.iter().all(|code| piece_fits(sheet, &code.code))
}

fn phases_fit(sheet: &Sheet, phases: &[PhaseCode]) -> bool
    ensures { result ≡ list_all (phase_fits sheet.now) phases.now }
{
    phases.iter().all(|phase| phase_fits(sheet, phase))
}

fn phase_fits(sheet: &Sheet, phase: &PhaseCode) -> bool
    ensures { result ≡ phase_fits sheet.now phase.now }
{
    own_turn_fits(sheet, &phase.turn)
        && piece_fits(sheet, &phase.on_begin)
        && piece_fits(sheet, &phase.on_end)
}

fn own_turn_fits(sheet: &Sheet, turn: &Option<TurnCode>) -> bool
    ensures { result ≡ option_map_or (turn_fits sheet.now) turn.now true }
{
    match turn {
        Some(turn) => turn_fits(sheet, turn),
        None => true,
    }
}

fn turn_fits(sheet: &Sheet, turn: &TurnCode) -> bool
    ensures { result ≡ turn_fits sheet.now turn.now }
{
    piece_fits(sheet, &turn.on_begin)
        && piece_fits(sheet, &turn.on_end)
        && piece_fits(sheet, &turn.on_move)
}

fn piece_fits(sheet: &Sheet, piece: &Piece) -> bool
    ensures { result ≡ piece_fits sheet.now piece.now }
{
    code_in_sheet(sheet, &piece.code) && events_of(&piece.code) <= 16
}

/// Whether what is allowed and offered hangs on nothing but what the seat that moves sees.
fn moves_see_own(parts: &GameParts) -> bool
    ensures { result ≡ moves_see_own parts.now }
{
    parts
        .moves
        .as_slice()
        .iter()
        .all(|code| move_sees_own(code))
}

fn move_sees_own(code: &MoveCode) -> bool
    ensures { result ≡ move_sees_own code.now }
{
    reads_own(&code.when) && groups_see_own(code.arguments.as_slice())
}

fn groups_see_own(groups: &[ArgumentGroup]) -> bool
    ensures { result ≡ list_all group_sees_own groups.now }
{
    groups.iter().all(|group| group_sees_own(group))
}

fn group_sees_own(group: &ArgumentGroup) -> bool
    ensures { result ≡ group_sees_own group.now }
{
    match group {
        ArgumentGroup::One(_) => true,
        ArgumentGroup::Listed(row) => reads_own(&row.length) && reads_own(&row.item),
    }
}

/// Whether each move has few arguments and offers few rows of them.
fn offers_small(parts: &GameParts) -> bool
    ensures { result ≡ offers_small parts.now }
{
    parts
        .moves
        .as_slice()
        .iter()
        .all(|code| groups_fit(code.arguments.as_slice()))
}

fn groups_fit(groups: &[ArgumentGroup]) -> bool
    ensures { result ≡ groups_fit groups.now }
{
    each_fits(groups) && width_of(groups) <= 8 && most_rows(groups) <= 4096
}

fn each_fits(groups: &[ArgumentGroup]) -> bool
    ensures { result ≡ list_all group_fits groups.now }
{
    groups.iter().all(|group| group_fits(group))
}

fn group_fits(group: &ArgumentGroup) -> bool
    ensures { result ≡ group_fits group.now }
{
    match group {
        ArgumentGroup::One(_) => true,
        ArgumentGroup::Listed(row) => rows_count(row.ranges.as_slice()) < 2_147_483_648,
    }
}

/// How many arguments there are in all groups.
fn width_of(groups: &[ArgumentGroup]) -> u32
    ensures { result ≡ width_of groups.now }
{
    match groups {
        [] => 0,
        [group, ..] => plus(group_width(group), width_of(rest_of(groups))),
    }
}

fn group_width(group: &ArgumentGroup) -> u32
    ensures { result ≡ capped (group_width group.now) }
{
    match group {
        ArgumentGroup::One(_) => 1,
        ArgumentGroup::Listed(row) => capped(row.ranges.len() as u64),
    }
}

/// A sum of counts, as far as it is told apart.
fn plus(one: u32, other: u32) -> u32
    ensures { result ≡ capped (one + other) }
{
    capped(u64::from(one) + u64::from(other))
}

/// How many rows of arguments are offered at most.
fn most_rows(groups: &[ArgumentGroup]) -> u32
    ensures { result ≡ most_rows groups.now }
{
    match groups {
        [] => 1,
        [group, ..] => times(group_most(group), most_rows(rest_of(groups))),
    }
}

fn group_most(group: &ArgumentGroup) -> u32
    ensures { result ≡ group_most group.now }
{
    match group {
        ArgumentGroup::One(row) => value_count(row),
        ArgumentGroup::Listed(row) => { u32::from(row.most).min(rows_count(row.ranges.as_slice())) }
    }
}
