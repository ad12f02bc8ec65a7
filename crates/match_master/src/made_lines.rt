//! The lines that tell of one action, each made once for all who look from one seat in one protocol.

ghost use Rattle.std.specs.Prelude.{◌≡◌, true, IfOk, IfSome};
ghost use Rattle.match_master.specs.Attached.{Lines};
ghost use Rattle.match_master.specs.UpdateText.{AreMade, action_line};

use crate::action::Action;
use crate::line;
use game_sheet::{NoMemory, Seat};
use game_trait::Game;
use std::alloc::Global;
use std::sync::Arc;
use wire_json::Protocol;

/// A line, with who is told it: all who look from a seat, or all spectators, in a protocol.
#[derive(Drop)]
pub struct MadeLine {
    /// The seat; none for spectators.
    pub seat: Option<Seat>,
    /// The protocol.
    pub protocol: Protocol,
    /// The line.
    pub line: Arc<Vec<u8>>,
}

/// The line for a seat and a protocol, from among those that were made; it is made where it isn't there.
pub fn line_for<X: Game>(
    alloc: Global,
    action: &Action<'_, X>,
    made: &mut Vec<MadeLine>,
    seat: Option<Seat>,
    protocol: Protocol,
) -> Result<Arc<Vec<u8>>, NoMemory>
    requires { AreMade (action_line (X.rules action.now.game.now) action.now.state.now action.now.prepared.now action.now.entry.now) made.old.items }
    ensures made { AreMade (action_line (X.rules action.now.game.now) action.now.state.now action.now.prepared.now action.now.entry.now) made.new.items }
    ensures line { IfOk result (λ line. line.value.items ≡ action_line (X.rules action.now.game.now) action.now.state.now action.now.prepared.now action.now.entry.now seat protocol) }
{
    if let Some(line) = find(made.as_slice(), seat, protocol) {
        let shared = Arc::try_clone(line)?;
        return Ok(shared);
    }
    let line = Arc::new(alloc, line::update(alloc, action, seat, protocol)?)?;
    let shared = Arc::try_clone(&line)?;
    made.push(MadeLine {
        seat,
        protocol,
        line: shared,
    })?;
    Ok(line)
}

/// The line for a seat and a protocol, if it was made.
fn find(made: &[MadeLine], seat: Option<Seat>, protocol: Protocol) -> Option<&Arc<Vec<u8>>>
    ensures { (lines : Lines) → AreMade lines made.now → IfSome result (λ line. line.now.value.items ≡ lines seat protocol) }
{
    for one in made {
        if is_for(one, seat, protocol) {
            return Some(&one.line);
        }
    }
    None
}

/// Whether a line is that for a seat and a protocol.
fn is_for(made: &MadeLine, seat: Option<Seat>, protocol: Protocol) -> bool
    ensures { result ≡ true → (made.now.seat ≡ seat) × (made.now.protocol ≡ protocol) }
{
    made.seat == seat && made.protocol == protocol
}
