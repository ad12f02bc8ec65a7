//! Looks the names of an action up in a sheet.

ghost use Rattle.std.specs.Prelude.{◌≡◌};
ghost use Rattle.game_sheet.specs.SheetFits.{SheetFits};
ghost use Rattle.wire_json.specs.Resolve.{act_of, event_of};

use crate::asked::{Asked, AskedTo};
use game_sheet::{Act, Event, EventKind, Outcome, Sheet};

/// The action that is asked for; none exactly where a name isn't in the sheet, or an event is aimed at what its kind
/// doesn't take. A player's `endGame` ends the match without a winner. It takes no memory.
pub fn resolve(sheet: &Sheet, asked: &Asked) -> Option<Act>
    requires { SheetFits sheet.now }
    ensures { result ≡ act_of sheet.now asked.now }
{
    match asked {
        Asked::Move { name, args } => match sheet.move_named(name.as_str()) {
            Some(id) => Some(Act::Move {
                id,
                args: args.copy(),
            }),
            None => None,
        },
        Asked::Event { kind, to } => match event_named(sheet, *kind, to) {
            Some(event) => Some(Act::Event(event)),
            None => None,
        },
        Asked::Undo => Some(Act::Undo),
        Asked::Redo => Some(Act::Redo),
    }
}

// The event of a kind that is aimed at this.
fn event_named(sheet: &Sheet, kind: EventKind, to: &AskedTo) -> Option<Event>
    requires { SheetFits sheet.now }
    ensures { result ≡ event_of sheet.now kind to.now }
{
    match (kind, to) {
        (EventKind::EndTurn, AskedTo::Nothing) => Some(Event::EndTurn { to: None }),
        (EventKind::EndTurn, AskedTo::Seat(seat)) => Some(Event::EndTurn { to: Some(*seat) }),
        (EventKind::EndPhase, AskedTo::Nothing) => Some(Event::EndPhase),
        (EventKind::SetPhase, AskedTo::Name(name)) => match sheet.phase_named(name.as_str()) {
            Some(to) => Some(Event::SetPhase { to }),
            None => None,
        },
        (EventKind::EndStage, AskedTo::Nothing) => Some(Event::EndStage),
        (EventKind::SetStage, AskedTo::Name(name)) => match sheet.stage_named(name.as_str()) {
            Some(to) => Some(Event::SetStage { to }),
            None => None,
        },
        (EventKind::EndGame, AskedTo::Nothing) => Some(Event::EndGame {
            outcome: Outcome::Ended,
        }),
        _ => None,
    }
}
