//! Why the flow gives no table.

ghost use Rattle.std.specs.Prelude.{◌≡◌};
ghost use Rattle.phase_flow.specs.Comes.{no_of, quieted};

use game_sheet::NoMemory;
use game_trait::HookHalt;

/// Why the flow of a match gave no table.
#[derive(Clone, Copy, PartialEq, Eq)]
pub enum FlowNo {
    /// A 65th task would begin, or one call of game code queued a 17th event.
    TooManyEvents,
    /// The action asked for its 257th word.
    TooManyWords,
    /// A player would end the turn or a stage before its least count of moves.
    TooEarly,
    /// There was no memory.
    NoMemory,
}

impl From<NoMemory> for FlowNo {
    ghost use Rattle.phase_flow.specs.declared.flow_no.FlowNo.TheVariants.{NoMemory as Starved};

    ghost from_gives = { λ _ why. why ≡ Starved };

    fn from(_error: NoMemory) -> Self {
        FlowNo::NoMemory
    }
}

/// Why the flow gives no table where a hook gives up.
pub(crate) fn give_up(halt: HookHalt) -> FlowNo
    ensures { result ≡ no_of halt }
{
    match halt {
        HookHalt::Spent => FlowNo::TooManyWords,
        HookHalt::Crowded => FlowNo::TooManyEvents,
        HookHalt::NoMemory => FlowNo::NoMemory,
    }
}

/// The answer of a task that puts no phase's end in front.
pub(crate) fn quiet(done: Result<(), FlowNo>) -> Result<bool, FlowNo>
    ensures { result ≡ quieted done }
{
    match done {
        Ok(()) => Ok(false),
        Err(why) => Err(why),
    }
}
