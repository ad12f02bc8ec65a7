//! Goes through the records of a file.

ghost use Rattle.std.specs.Prelude.{◌≡◌, ◌<◌, ◌≤◌, [], List, length, IfOk, IfErr};
ghost use Rattle.room_object.specs.Entry.{Entry};
ghost use Rattle.object_journal.specs.Replaying.{Came, IsRefusal};

use crate::replaying::{OpenNo, Replayed, Replays};
use record_file::{Gate, gate_at};
use std::alloc::Global;

/// Makes the changes of all records of a file again, and gives the place of the gate that ends them.
pub fn replay_all<O: Replays>(alloc: Global, object: &mut O, bytes: &[u8]) -> Result<u64, OpenNo>
    requires some { 0 < length bytes.now }
    requires few { length bytes.now ≤ 268435456 }
    requires fresh { O.stands_for object.old [] }
    ensures number { O.number object.new ≡ O.number object.old }
    ensures done { IfOk result (λ end. (h : List (Entry O.Call)) × Came O.stands_for O.has_come (O.records (O.number object.old)) (O.may_follow (O.number object.old)) object.new bytes.now end h) }
    ensures refused { IfErr result (λ e. IsRefusal (O.may_follow (O.number object.old)) bytes.now e) }
{
    let mut at = 0;
    'records: loop {
        match gate_at(&bytes[at..]) {
            Gate::Closed => return Ok(at as u64),
            Gate::Broken => return Err(OpenNo::Damaged { place: at as u64 }),
            Gate::Record { count } => {
                match object.replay(alloc, &bytes[at + 5..at + 5 + count]) {
                    Replayed::Done => at = at + 5 + count,
                    Replayed::Refused => return Err(OpenNo::Damaged { place: at as u64 }),
                    Replayed::NoMemory => return Err(OpenNo::NoMemory),
                }
            }
        }
    }
}
