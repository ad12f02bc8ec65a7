//! Tasks: what has still to happen before a table is settled.

ghost use Rattle.std.specs.Prelude.{◌≡◌, ◌++◌, OnOk};
ghost use Rattle.phase_flow.specs.Step.{spoken_by};

use crate::line::Line;
use game_sheet::{Event, NoMemory, Seat};

/// An event that is still to happen, with the seat that it speaks of.
#[derive(Clone, Copy)]
pub struct Task {
    /// What is to happen.
    pub event: Event,
    /// The player who made the move or asked for the event; none where it is whoever is current when it happens.
    pub speaker: Option<Seat>,
}

/// Adds the events of a call of game code at the end of the tasks, in their order.
pub(crate) fn add(
    tasks: &mut Line<Task>,
    who: Option<Seat>,
    events: &[Event],
) -> Result<(), NoMemory>
    ensures { OnOk result (tasks.new ≡ tasks.old ++ spoken_by who events.now) }
{
    for event in events {
        tasks.push(Task {
            event: *event,
            speaker: who,
        })?;
    }
    Ok(())
}
