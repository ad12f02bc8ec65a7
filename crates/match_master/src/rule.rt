//! The public rules of an action.

ghost use Rattle.std.specs.Prelude.{◌≡◌, ◌==◌, Option, Some, None, ℕ};
ghost use Rattle.std.specs.List.{list_any};
ghost use Rattle.game_sheet.specs.SheetFits.{SheetFits};
ghost use Rattle.wire_json.specs.Resolve.{act_of, ignores_number};
ghost use Rattle.room_history.specs.Rule.{public, first_broken, seat_rules, is_undo_or_redo, is_alone, is_kind, is_allowed, has_act};

use game_sheet::{Act, Ctx, EventKind, MOST_ACTIONS, MoveId, Number, Seat, Sheet};
use stage_map::{is_active, moves_of};
use wire_json::{Asked, Reason, resolve};

/// What a line asks for.
#[derive(Clone, Copy)]
struct Request<'a> {
    /// The action, by its names.
    asked: &'a Asked,
    /// The action that the names stand for in the sheet; none where it has no such names.
    act: &'a Option<Act>,
    /// The line's state number.
    number: Number,
}

/// The first public rule that an action breaks, if it breaks one. It takes no memory.
///
/// The public rules rest on the sheet, the context, the state number, the seat and the line alone. `same_match` says
/// whether the line names the match that stands, `key_fits` whether its key is the seat's; a session without a seat is
/// unauthorized. The order of the rules is that of `Reason`.
#[tactic(auto, unfolding(room_history::specs::Rule::public))]
pub fn public_rule(
    sheet: &Sheet,
    ctx: &Ctx,
    number: Number,
    same_match: bool,
    seat: Option<Seat>,
    key_fits: bool,
    asked: &Asked,
    asked_number: Number,
) -> Option<Reason>
    requires { SheetFits sheet.now }
    ensures { result ≡ public sheet.now ctx.now number same_match seat key_fits asked.now asked_number }
{
    if !same_match {
        return Some(Reason::NoMatch);
    }
    match seat {
        None => Some(Reason::Unauthorized),
        Some(seat) => {
            if !key_fits {
                return Some(Reason::Unauthorized);
            }
            let act = resolve(sheet, asked);
            let request = Request {
                asked,
                act: &act,
                number: asked_number,
            };
            seat_rule(sheet, ctx, number, seat, &request)
        }
    }
}

/// The first public rule that a seat's request breaks.
fn seat_rule(
    sheet: &Sheet,
    ctx: &Ctx,
    number: Number,
    seat: Seat,
    request: &Request<'_>,
) -> Option<Reason>
    requires fits { SheetFits sheet.now }
    requires resolved { request.now.act.now ≡ act_of sheet.now request.now.asked.now }
    ensures { result ≡ first_broken (seat_rules sheet.now ctx.now number seat request.now.asked.now request.now.number) }
{
    if ctx.over.is_some() {
        Some(Reason::GameOver)
    } else if number == MOST_ACTIONS {
        Some(Reason::MatchFull)
    } else if moves_back(request.asked) && !acts_alone(ctx, seat) {
        Some(Reason::CannotUndoNow)
    } else if !is_active(ctx, seat) {
        Some(Reason::NotActive)
    } else if !may_act(sheet, ctx, seat, request.asked, request.act) {
        Some(Reason::UnknownMove)
    } else if request.number != number && !takes_any_number(sheet, request.act) {
        Some(Reason::WrongNumber)
    } else {
        None
    }
}

/// Whether an undo or a redo is asked for.
fn moves_back(asked: &Asked) -> bool
    ensures { result ≡ is_undo_or_redo asked.now }
{
    match asked {
        Asked::Move { .. } => false,
        Asked::Event { .. } => false,
        Asked::Undo => true,
        Asked::Redo => true,
    }
}

/// Whether a seat is the only one that may act.
fn acts_alone(ctx: &Ctx, seat: Seat) -> bool
    ensures { result ≡ is_alone ctx.now seat }
{
    match &ctx.active {
        None => seat == ctx.current,
        Some(rows) => match rows.as_slice() {
            [row] => row.0 == seat,
            _ => false,
        },
    }
}

/// Whether the seat has the move that is asked for, or the players the event.
fn may_act(sheet: &Sheet, ctx: &Ctx, seat: Seat, asked: &Asked, act: &Option<Act>) -> bool
    ensures { result ≡ has_act sheet.now ctx.now seat asked.now act.now }
{
    match act {
        None => false,
        Some(Act::Move { id, .. }) => has_move(moves_of(sheet, ctx, seat), *id),
        Some(Act::Event(_)) => allows_event(sheet, asked),
        Some(Act::Undo) => true,
        Some(Act::Redo) => true,
    }
}

/// Whether a move is among some moves.
fn has_move(moves: &[MoveId], id: MoveId) -> bool
    ensures { result ≡ list_any (λ m. m == id) moves.now }
{
    moves.iter().any(|other| other.place() == id.place())
}

/// Whether the sheet allows players the event that is asked for.
fn allows_event(sheet: &Sheet, asked: &Asked) -> bool
    ensures { result ≡ is_allowed sheet.now asked.now }
{
    match asked {
        Asked::Event { kind, .. } => has_kind(sheet.events.as_slice(), *kind),
        Asked::Move { .. } => false,
        Asked::Undo => false,
        Asked::Redo => false,
    }
}

/// Whether a kind of event is among some.
fn has_kind(kinds: &[EventKind], kind: EventKind) -> bool
    ensures { result ≡ list_any (is_kind kind) kinds.now }
{
    kinds.iter().any(|other| same_kind(kind, *other))
}

/// Whether two kinds of event are the same.
fn same_kind(kind: EventKind, other: EventKind) -> bool
    ensures { result ≡ is_kind kind other }
{
    match kind {
        EventKind::EndTurn => matches!(other, EventKind::EndTurn),
        EventKind::EndPhase => matches!(other, EventKind::EndPhase),
        EventKind::SetPhase => matches!(other, EventKind::SetPhase),
        EventKind::EndStage => matches!(other, EventKind::EndStage),
        EventKind::SetStage => matches!(other, EventKind::SetStage),
        EventKind::EndGame => matches!(other, EventKind::EndGame),
    }
}

/// Whether the action is taken on any state number.
fn takes_any_number(sheet: &Sheet, act: &Option<Act>) -> bool
    ensures { result ≡ ignores_number sheet.now act.now }
{
    match act {
        Some(Act::Move { id, .. }) => match sheet.moves.get(id.place() as usize) {
            Some(row) => row.ignore_stale,
            None => false,
        },
        Some(Act::Event(_)) => false,
        Some(Act::Undo) => false,
        Some(Act::Redo) => false,
        None => false,
    }
}
