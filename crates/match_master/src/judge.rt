//! The judgment of a submission.

ghost use Rattle.std.specs.Prelude.{◌≡◌, ◌≤◌, IfOk, Option, None, true, min};
ghost use Rattle.reducer.specs.Sound.{IsSound};
ghost use Rattle.room_history.specs.Match.{Match};
ghost use Rattle.room_history.specs.Rule.{public, has_key};
ghost use Rattle.room_history.specs.Shown.{words_drawn};
ghost use Rattle.room_history.specs.Verdict.{reason_of, is_named, public_reason};
ghost use Rattle.room_history.proofs.RuleLaws.{IsAdmitted};
ghost use Rattle.match_master.specs.Held.{running_of};
ghost use Rattle.match_master.specs.Judged.{IsJudged, JudgedReady, entry_at};
ghost use Rattle.game_sheet.specs.Viewer.{seat_of};
ghost use Rattle.wire_json.specs.Resolve.{act_of};

use crate::rule::public_rule;
use crate::running_match::RunningMatch;
use game_sheet::{Act, GameNo, GameRule, Key, MatchName, NoMemory, Seat, Viewer, seat_of};
use game_trait::Game;
use move_log::Entry;
use reducer::{Prepared, State, prepare};
use std::alloc::Global;
use wire_json::{Reason, Submission, resolve};

/// What a submission comes to.
#[derive(Drop)]
pub enum Judged<G> {
    /// It breaks a rule, of which this is the first.
    Refused(Reason),
    /// It breaks none.
    Accepted {
        /// What it leads to.
        prepared: Prepared<G>,
        /// Its entry of the log.
        entry: Entry,
    },
}

/// Judges a submission of a viewer on the match that stands, which stays as it is.
pub fn judge<X: Game>(
    alloc: Global,
    room: u8,
    running: &RunningMatch<X, X::G>,
    viewer: &Viewer,
    submission: &Submission,
) -> Result<Judged<X::G>, NoMemory>
    requires { IsSound (X.rules running.now.game) running.now.state }
    ensures ready { IfOk result (JudgedReady (X.rules running.now.game) running.now.state) }
    ensures judged { IfOk result (λ judged. (m : Match X X.G) → running.now ≡ running_of X.rules m → IsJudged X.rules room m viewer.now submission.now judged) }
{
    match check(room, running, viewer, submission) {
        Some(reason) => Ok(Judged::Refused(reason)),
        None => {
            let act = resolve(running.game.sheet(), &submission.asked);
            play(alloc, room, running, viewer, submission, act)
        }
    }
}

/// The public rule that a submission breaks, if it breaks one.
fn check<X: Game>(
    room: u8,
    running: &RunningMatch<X, X::G>,
    viewer: &Viewer,
    submission: &Submission,
) -> Option<Reason>
    ensures { result ≡ public (X.rules running.now.game).sheet running.now.state.table.ctx running.now.state.number (is_named room running.now.serial submission.now.name) (seat_of viewer.now) (has_key viewer.now submission.now.key) submission.now.asked submission.now.number }
{
    let state = &running.state;
    public_rule(
        running.game.sheet(),
        state.ctx(),
        state.number(),
        names(room, running.serial, &submission.name),
        seat_of(viewer),
        has_key(viewer, &submission.key),
        &submission.asked,
        submission.number,
    )
}

/// Whether a name is that of the room's match with this serial.
fn names(room: u8, serial: u64, name: &MatchName) -> bool
    ensures { result ≡ is_named room serial name.now }
{
    name.room() == room && name.serial() == serial
}

/// Whether a key is that of the viewer's seat; a spectator has none.
fn has_key(viewer: &Viewer, key: &Key) -> bool
    ensures { result ≡ has_key viewer.now key.now }
{
    match viewer {
        None => false,
        Some((_, own)) => own.is(key),
    }
}

/// What the game makes of a submission that breaks no public rule.
fn play<X: Game>(
    alloc: Global,
    room: u8,
    running: &RunningMatch<X, X::G>,
    viewer: &Viewer,
    submission: &Submission,
    act: Option<Act>,
) -> Result<Judged<X::G>, NoMemory>
    requires resolved { act ≡ act_of (X.rules running.now.game).sheet submission.now.asked }
    requires sound { IsSound (X.rules running.now.game) running.now.state }
    requires admitted { IsAdmitted (X.rules running.now.game).sheet running.now.state.table.ctx running.now.state.number (seat_of viewer.now) submission.now.asked }
    ensures ready { IfOk result (JudgedReady (X.rules running.now.game) running.now.state) }
    ensures judged { IfOk result (λ judged. (m : Match X X.G) → running.now ≡ running_of X.rules m → public_reason X.rules room m viewer.now submission.now ≡ None → IsJudged X.rules room m viewer.now submission.now judged) }
{
    let _room = room;
    let Some(seat) = seat_of(viewer) else {
        unreachable!();
    };
    let Some(act) = act else {
        unreachable!();
    };
    match prepare(alloc, &running.game, &running.state, seat, &act) {
        Ok(prepared) => {
            let entry = entry_of(&running.state, prepared.place(), seat, act);
            Ok(Judged::Accepted { prepared, entry })
        }
        Err(GameNo::Broken(rule)) => Ok(Judged::Refused(reason_for(rule))),
        Err(GameNo::NoMemory) => Err(NoMemory),
    }
}

/// The log's entry of an action that is accepted on a state and leads to a place in the words.
fn entry_of<G>(state: &State<G>, after: u64, seat: Seat, act: Act) -> Entry
    ensures { result ≡ entry_at state.now after (record { seat = seat; act = act }) }
{
    Entry {
        seat,
        words: words_drawn(&act, state.place(), after),
        act,
        hidden: false,
        number: state.number(),
        turn: state.ctx().turn,
        phase: state.ctx().phase,
    }
}

/// How many words an action drew that led from one place in the words to another. It may draw 256; an undo or a redo draws none.
fn words_drawn(act: &Act, before: u64, after: u64) -> u32
    ensures { result ≡ min (words_drawn act.now before after) 256 }
{
    match act {
        Act::Undo | Act::Redo => 0,
        Act::Move { .. } | Act::Event(_) => after.saturating_sub(before).min(256) as u32,
    }
}

/// The word for a rule of the game that is broken.
fn reason_for(rule: GameRule) -> Reason
    ensures { result ≡ reason_of rule }
{
    match rule {
        GameRule::NothingToUndo => Reason::NothingToUndo,
        GameRule::NothingToRedo => Reason::NothingToRedo,
        GameRule::NotYours => Reason::NotYours,
        GameRule::NotUndoable => Reason::NotUndoable,
        GameRule::InvalidMove => Reason::InvalidMove,
        GameRule::TooEarly => Reason::TooEarly,
        GameRule::TooManyWords => Reason::TooManyWords,
        GameRule::TooManyEvents => Reason::TooManyEvents,
    }
}
