//! Reads the value of a context back.

ghost use Rattle.std.specs.Prelude.{◌≡◌, IfOk, IfSome, Some, codes, decimal};
ghost use Rattle.serde_json.specs.Events.{members_len};
ghost use Rattle.serde_json.specs.Find.{get, as_object};
ghost use Rattle.serde_json.specs.View.{view, members_view};
ghost use Rattle.json_tree.specs.Canonical.{IsCanonical};
ghost use Rattle.game_sheet.specs.SheetFits.{SheetFits};
ghost use Rattle.game_sheet.specs.declared.ctx.Ctx.{Ctx as Shown};
ghost use Rattle.player_sight.specs.CtxData.{ctx_data};
ghost use Rattle.player_sight.specs.Plain.{IsPlainCtx};
ghost use Rattle.sight_reading.specs.CtxReading.{seat_stage, rows_among, as_many, active_from, active_in, winner_in, is_flag as flag_in, outcome_in, over_in, counts_in, from_order, ctx_in};

use crate::part_read::{number_of, order_of, phase_member_of, seat_of, stage_or_null_of};
use game_sheet::{Ctx, List, NoMemory, Outcome, PhaseId, Seat, Sheet, StageId};
use json_tree::extra_field;
use serde_json::{Map, Value};
use std::alloc::Global;

type Rows = List<(Seat, Option<StageId>)>;

// The members that are plain numbers.
#[derive(Drop)]
struct Counts {
    current: Seat,
    moves: u32,
    seats: u8,
    pos: u8,
    turn: u32,
}

// What an object of active players says of a seat.
#[derive(Drop)]
enum SeatStage {
    // The object doesn't name it.
    Absent,
    // Its name stands for no stage of the sheet.
    Malformed,
    // It may act, in a stage or in none.
    Active(Option<StageId>),
}

/// The context that has this value; none exactly where no context of a plain snapshot has it.
#[tactic(auto, using(crate::proofs::Readers::ctx_only, crate::proofs::Readers::ctx_found))]
pub fn ctx_of(alloc: Global, sheet: &Sheet, value: &Value) -> Result<Option<Ctx>, NoMemory>
    requires { SheetFits sheet.now }
    ensures exact { IfOk result (λ ctx. ctx ≡ ctx_in sheet.now (view value.now)) }
    ensures found { IfOk result (λ read. IsCanonical (view value.now) → IfSome read (λ ctx. IsPlainCtx sheet.now ctx × (ctx_data sheet.now ctx ≡ view value.now))) }
    ensures only { IfOk result (λ read. (ctx : Shown) → IsPlainCtx sheet.now ctx → ctx_data sheet.now ctx ≡ view value.now → read ≡ Some ctx) }
{
    let ctx = read_ctx(alloc, sheet, value)?;
    Ok(ctx)
}

#[tactic(auto, unfolding(crate::specs::CtxReading::ctx_in))]
fn read_ctx(alloc: Global, sheet: &Sheet, value: &Value) -> Result<Option<Ctx>, NoMemory>
    requires { SheetFits sheet.now }
    ensures { IfOk result (λ ctx. ctx ≡ ctx_in sheet.now (view value.now)) }
{
    if extra_field(
        value,
        &[
            "activePlayers",
            "currentPlayer",
            "gameover",
            "numMoves",
            "numPlayers",
            "phase",
            "playOrder",
            "playOrderPos",
            "turn",
        ],
    ) {
        return Ok(None);
    }
    let Some(over) = over_of(value) else {
        return Ok(None);
    };
    let Some(phase) = phase_member_of(sheet, value) else {
        return Ok(None);
    };
    let Some(counts) = counts_of(value) else {
        return Ok(None);
    };
    match order_of(alloc, value)? {
        Some(order) => with_order(alloc, sheet, value, over, phase, counts, order),
        None => Ok(None),
    }
}

// The context of these parts, with the active players that the value has.
fn with_order(
    alloc: Global,
    sheet: &Sheet,
    value: &Value,
    over: Option<Outcome>,
    phase: Option<PhaseId>,
    counts: Counts,
    order: List<Seat>,
) -> Result<Option<Ctx>, NoMemory>
    requires { SheetFits sheet.now }
    ensures { IfOk result (λ ctx. ctx ≡ from_order sheet.now (view value.now) over phase counts order) }
{
    match active_member_of(alloc, sheet, value) {
        Ok(Some(active)) => Ok(Some(Ctx {
            seats: counts.seats,
            turn: counts.turn,
            current: counts.current,
            order,
            pos: counts.pos,
            phase,
            active,
            moves: counts.moves,
            over,
        })),
        Ok(None) => {
            drop(order);
            Ok(None)
        }
        Err(no) => {
            drop(order);
            Err(no)
        }
    }
}

#[tactic(auto, unfolding(crate::specs::CtxReading::counts_in))]
fn counts_of(value: &Value) -> Option<Counts>
    ensures { result ≡ counts_in (view value.now) }
{
    let current = seat_of(value, "currentPlayer")?;
    let moves = number_of(value, "numMoves")?;
    let seats = seat_of(value, "numPlayers")?;
    let pos = seat_of(value, "playOrderPos")?;
    let turn = number_of(value, "turn")?;
    Some(Counts {
        current,
        moves,
        seats,
        pos,
        turn,
    })
}

fn active_member_of(
    alloc: Global,
    sheet: &Sheet,
    value: &Value,
) -> Result<Option<Option<Rows>>, NoMemory>
    requires { SheetFits sheet.now }
    ensures { IfOk result (λ active. active ≡ active_in sheet.now (get (codes "activePlayers") (view value.now))) }
{
    match value.get("activePlayers") {
        Some(active) => active_of(alloc, sheet, active),
        None => Ok(None),
    }
}

fn active_of(alloc: Global, sheet: &Sheet, active: &Value) -> Result<Option<Option<Rows>>, NoMemory>
    requires { SheetFits sheet.now }
    ensures { IfOk result (λ read. read ≡ active_from sheet.now (view active.now)) }
{
    if active.is_null() {
        return Ok(Some(None));
    }
    let Some(members) = active.as_object() else {
        return Ok(None);
    };
    match rows_of(alloc, sheet, active, members)? {
        Some(rows) => Ok(Some(Some(rows))),
        None => Ok(None),
    }
}

// The rows of the seats that an object of these members names, in rising order; none where it names anything else.
fn rows_of(
    alloc: Global,
    sheet: &Sheet,
    active: &Value,
    members: &Map<String, Value>,
) -> Result<Option<Rows>, NoMemory>
    requires sheet { SheetFits sheet.now }
    requires members { as_object (view active.now) ≡ Some (members_view members.now.entries) }
    ensures { IfOk result (λ read. read
        ≡ as_many (members_len (members_view members.now.entries)) (rows_among sheet.now (view active.now) 0 256)) }
{
    let mut rows = List::new(alloc);
    for seat in 0..256_u16 {
        if rows.len() == members.len() {
            return Ok(Some(rows));
        }
        match stage_at(alloc, sheet, active, seat)? {
            SeatStage::Absent => {}
            SeatStage::Malformed => return Ok(None),
            SeatStage::Active(stage) => rows.push((seat as u8, stage))?,
        }
    }
    if rows.len() == members.len() {
        Ok(Some(rows))
    } else {
        Ok(None)
    }
}

fn stage_at(alloc: Global, sheet: &Sheet, active: &Value, seat: u16) -> Result<SeatStage, NoMemory>
    requires { SheetFits sheet.now }
    ensures { IfOk result (λ stage. stage ≡ seat_stage sheet.now (get (decimal seat) (view active.now))) }
{
    let name = format!(in alloc; "{seat}")?;
    match active.get(name.as_str()) {
        Some(stage) => Ok(stage_named(sheet, stage)),
        None => Ok(SeatStage::Absent),
    }
}

fn stage_named(sheet: &Sheet, stage: &Value) -> SeatStage
    requires { SheetFits sheet.now }
    ensures { result ≡ seat_stage sheet.now (Some (view stage.now)) }
{
    match stage_or_null_of(sheet, stage) {
        Some(stage) => SeatStage::Active(stage),
        None => SeatStage::Malformed,
    }
}

fn over_of(value: &Value) -> Option<Option<Outcome>>
    ensures { result ≡ over_in (get (codes "gameover") (view value.now)) }
{
    let Some(over) = value.get("gameover") else {
        return None;
    };
    if over.is_null() {
        return Some(None);
    }
    if !over.is_object() {
        return None;
    }
    match outcome_of(over) {
        Some(outcome) => Some(Some(outcome)),
        None => None,
    }
}

#[tactic(auto, unfolding(crate::specs::CtxReading::outcome_in))]
fn outcome_of(over: &Value) -> Option<Outcome>
    ensures { result ≡ outcome_in (view over.now) }
{
    if let Some(seat) = winner_of(over) {
        return Some(Outcome::Winner(seat));
    }
    if is_flag(over, "draw") {
        return Some(Outcome::Draw);
    }
    if is_flag(over, "ended") {
        return Some(Outcome::Ended);
    }
    None
}

#[tactic(auto, unfolding(crate::specs::CtxReading::winner_in))]
fn winner_of(over: &Value) -> Option<Seat>
    ensures { result ≡ winner_in (view over.now) }
{
    if extra_field(over, &["winner"]) {
        return None;
    }
    seat_of(over, "winner")
}

// Whether the object has this member alone, and it is true.
fn is_flag(over: &Value, name: &str) -> bool
    ensures { result ≡ flag_in name.now (view over.now) }
{
    if extra_field(over, &[name]) {
        return false;
    }
    match over.get(name) {
        Some(flag) => flag.as_bool() == Some(true),
        None => false,
    }
}
