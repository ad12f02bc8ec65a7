//! How the actions of a line fared.

ghost use Rattle.std.specs.Prelude.{◌≡◌, ◌≤◌, ◌+◌};
ghost use Rattle.game_hall.specs.Counts.{accepts, refuses};

use room_history::RoomReply;
use wire_json::Verdict;

/// How many actions of a line were accepted and refused. A line asks for one at most.
#[derive(Clone, Copy)]
pub struct Tally {
    /// Those that broke no rule.
    pub accepted: u32,
    /// Those that broke a rule.
    pub refused: u32,
}

/// No action.
pub fn no_action() -> Tally
    ensures accepted { result.accepted ≡ 0 }
    ensures refused { result.refused ≡ 0 }
{
    Tally {
        accepted: 0,
        refused: 0,
    }
}

/// What a reply tells of an action.
pub fn tally_of(reply: &RoomReply) -> Tally
    ensures accepted { result.accepted ≡ accepts reply.now }
    ensures refused { result.refused ≡ refuses reply.now }
    ensures few { result.accepted ≤ 1 }
    ensures fewer { result.refused ≤ 1 }
{
    match reply {
        RoomReply::Verdict(Verdict::Ok { .. }) => Tally {
            accepted: 1,
            refused: 0,
        },
        RoomReply::Verdict(Verdict::No { .. }) => Tally {
            accepted: 0,
            refused: 1,
        },
        _ => no_action(),
    }
}

/// Both together.
pub fn sum(all: Tally, one: Tally) -> Tally
    requires accepted { all.accepted + one.accepted ≤ 4294967295 }
    requires refused { all.refused + one.refused ≤ 4294967295 }
    ensures accepted { result.accepted ≡ all.accepted + one.accepted }
    ensures refused { result.refused ≡ all.refused + one.refused }
{
    Tally {
        accepted: all.accepted + one.accepted,
        refused: all.refused + one.refused,
    }
}
