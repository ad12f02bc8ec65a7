//! Which calls a record can name, by a look at the call.

ghost use Rattle.std.specs.Prelude.{◌≡◌, ◌≤◌, length, true, false};
ghost use Rattle.match_master.specs.Held.{may_starve};
ghost use Rattle.room_journal.specs.Kept.{IsInForm};
ghost use Rattle.wire_json.specs.Asking.{IsAskable, IsWord, MayAim};
ghost use Rattle.kept_room.specs.Asides.{is_aside, is_detach};

use any_game::AnyGame;
use game_sheet::{EventKind, Text};
use room_history::RoomCall;
use wire_json::{Asked, AskedTo};

/// How many bytes the name of a move, a phase or a stage may have.
const MOST_NAME: usize = 32;

/// Whether the text of a call's record is known to name it. Of a create nothing is known, since a game doesn't tell whether it is the one of
/// its name; any other call of which it isn't known asks for an act in no form of the wire.
pub fn is_named(call: &RoomCall<AnyGame>) -> bool
    ensures named { result ≡ true → IsInForm call.now }
    ensures starves { result ≡ false → may_starve call.now ≡ true }
{
    match call {
        RoomCall::Create { .. } => false,
        RoomCall::Submit(submission) => is_askable(&submission.asked),
        _ => true,
    }
}

/// Whether a call asks for no change, whoever makes it.
pub fn is_aside(call: &RoomCall<AnyGame>) -> bool
    ensures { result ≡ is_aside call.now }
{
    match call {
        RoomCall::Look { .. } | RoomCall::Attach { .. } | RoomCall::Take | RoomCall::Detach => true,
        _ => false,
    }
}

/// Whether a call is a Detach.
pub fn is_detach(call: &RoomCall<AnyGame>) -> bool
    ensures { result ≡ is_detach call.now }
{
    match call {
        RoomCall::Detach => true,
        _ => false,
    }
}

/// Whether an act is in a form of the wire.
fn is_askable(asked: &Asked) -> bool
    ensures { result ≡ true → IsAskable asked.now }
{
    match asked {
        Asked::Move { name, args: _ } => is_word(name),
        Asked::Event { kind, to } => may_aim(*kind, to),
        Asked::Undo | Asked::Redo => true,
    }
}

/// Whether a name has 1 to 32 bytes.
fn is_word(name: &Text) -> bool
    ensures { result ≡ true → IsWord name.now }
{
    let count = name.as_str().len();
    1 <= count && count <= MOST_NAME
}

/// Whether an event of a kind may be aimed at this.
fn may_aim(kind: EventKind, to: &AskedTo) -> bool
    ensures { result ≡ true → MayAim kind to.now }
{
    match (kind, to) {
        (EventKind::EndTurn, AskedTo::Seat(seat)) => {
            let _seat = *seat;
            true
        }
        (EventKind::EndTurn, AskedTo::Nothing)
        | (EventKind::EndPhase, AskedTo::Nothing)
        | (EventKind::EndStage, AskedTo::Nothing)
        | (EventKind::EndGame, AskedTo::Nothing) => true,
        (EventKind::SetPhase, AskedTo::Name(name)) | (EventKind::SetStage, AskedTo::Name(name)) => {
            is_word(name)
        }
        _ => false,
    }
}
