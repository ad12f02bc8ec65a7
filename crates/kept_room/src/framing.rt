//! Calls that are made in memory whether their records can be kept or not.

ghost use Rattle.std.specs.Prelude.{◌≡◌, ◌∷◌, ℕ, List, None, Some, true, false, IfOk};
ghost use Rattle.any_game.specs.AnyRules.{any_rules};
ghost use Rattle.any_game.specs.GameKind.{GameKind};
ghost use Rattle.change_text.specs.Payload.{AsksInForm, payload};
ghost use Rattle.object_journal.specs.Keeping.{Adds, HasEither, IsKeeping, IsPast};
ghost use Rattle.object_journal.specs.Stopping.{HasCause};
ghost use Rattle.object_journal.specs.declared.performing.Stop.TheVariants as stop;
ghost use Rattle.record_file.specs.Records.{framed};
ghost use Rattle.room_changes.specs.ChangesOf.{change_asked};
ghost use Rattle.room_changes.specs.declared.change.Change.{Change};
ghost use Rattle.room_disk.specs.Disk.{LeavesOnly};
ghost use Rattle.room_object.specs.Entry.{Entry, entry};

use any_game::AnyGame;
use board_links::Put;
use change_text::put_asked_change;
use game_sheet::NoMemory;
use object_journal::{Recorded, Stop};
use record_file::{LONGEST, RecordFile};
use room_disk::Disk;
use room_history::RoomCall;
use std::alloc::Global;

/// The record of a call that asks for a change whoever looks, with its length before it and a closed gate behind it. A call that asks for
/// none, and a record of four gigabytes, has no frame, and no memory is said of it.
pub fn frame_of(alloc: Global, call: &RoomCall<AnyGame>) -> Result<Vec<u8>, NoMemory>
    requires { AsksInForm call.now }
    ensures { IfOk result (λ frame. (c : Change GameKind) × (change_asked None call.now ≡ Some c) × (frame.items ≡ framed (payload any_rules c))) }
{
    let mut text = Vec::new(alloc);
    if !put_asked_change(alloc, &mut text, None, call)? {
        return Err(NoMemory);
    }
    frame_with(alloc, &text)
}

/// A payload with its length before it and a closed gate behind it.
fn frame_with(alloc: Global, text: &[u8]) -> Result<Vec<u8>, NoMemory>
    ensures { IfOk result (λ frame. frame.items ≡ framed text.now) }
{
    let Ok(count) = u32::try_from(text.len()) else {
        return Err(NoMemory);
    };
    let mut frame = Vec::new(alloc);
    frame.extend_from_slice(&count.to_le_bytes())?;
    frame.extend_from_slice(text)?;
    frame.push(0)?;
    Ok(frame)
}

/// Makes a call of a pass, and keeps its record where it is accepted. Where that isn't done, the reason is told; the call has been made in memory
/// all the same, and what it is replied may not be handed out.
pub fn perform<O: Recorded, D: Disk + Drop>(
    alloc: Global,
    object: &mut O,
    file: &mut RecordFile<D>,
    pass: u32,
    call: O::Call,
) -> (O::Reply, Option<Stop>)
    requires stands { (h : List (Entry O.Call)) × O.stands_for object.old h }
    requires in_form { O.is_in_form call }
    ensures number { O.number object.new ≡ O.number object.old }
    ensures answered { (h : List (Entry O.Call)) → O.stands_for object.old h → result.0 ≡ O.reply (O.number object.old) h (entry pass call (O.is_starved result.0)) }
    ensures stands { (h : List (Entry O.Call)) → O.stands_for object.old h → O.stands_for object.new (entry pass call (O.is_starved result.0) ∷ h) }
    ensures fed { O.is_starved result.0 ≡ true → O.may_starve call ≡ true }
    ensures kept { result.1 ≡ None → (h : List (Entry O.Call))
        → IsKeeping O.stands_for (O.records (O.number object.old)) D.is_told D.seen D.may_leave object.old file.old.disk file.old.end h
        → IsKeeping O.stands_for (O.records (O.number object.old)) D.is_told D.seen D.may_leave object.new file.new.disk file.new.end (entry pass call (O.is_starved result.0) ∷ h) }
    ensures cause { HasCause result.1 file.old.end (D.faults file.old.disk) (D.faults file.new.disk) }
    ensures full { (h : List (Entry O.Call)) (place : ℕ) → O.stands_for object.old h → result.1 ≡ Some (stop.Full place) → IsPast file.old.end (O.payload_of (O.number object.old) h pass call) }
    ensures fits { (h : List (Entry O.Call)) → O.stands_for object.old h → result.1 ≡ None → IsPast file.old.end (O.payload_of (O.number object.old) h pass call) → ⊥ }
    ensures crash { (h : List (Entry O.Call))
        → IsKeeping O.stands_for (O.records (O.number object.old)) D.is_told D.seen D.may_leave object.old file.old.disk file.old.end h
        → LeavesOnly D.moment D.left_since file.old.disk file.new.disk
        (HasEither (O.records (O.number object.old) h) (O.records (O.number object.old) (entry pass call false ∷ h))) }
{
    match object.frame_of(alloc, pass, &call) {
        Err(_) => {
            let reply = object.apply(pass, call);
            (reply, Some(Stop::NoMemory))
        }
        Ok(None) => {
            let reply = object.apply(pass, call);
            (reply, None)
        }
        Ok(Some(frame)) => perform_with(object, file, pass, call, frame),
    }
}

/// Makes a call that adds this record where it is accepted, and keeps it then.
pub fn perform_with<O: Recorded, D: Disk + Drop>(
    object: &mut O,
    file: &mut RecordFile<D>,
    pass: u32,
    call: O::Call,
    frame: Vec<u8>,
) -> (O::Reply, Option<Stop>)
    requires stands { (h : List (Entry O.Call)) × O.stands_for object.old h }
    requires adds { (h : List (Entry O.Call)) → O.stands_for object.old h
        → Adds (O.payload_of (O.number object.old) h pass call) (O.records (O.number object.old)) (O.reply (O.number object.old)) O.is_accepted h pass call (Some frame) }
    ensures number { O.number object.new ≡ O.number object.old }
    ensures answered { (h : List (Entry O.Call)) → O.stands_for object.old h → result.0 ≡ O.reply (O.number object.old) h (entry pass call (O.is_starved result.0)) }
    ensures stands { (h : List (Entry O.Call)) → O.stands_for object.old h → O.stands_for object.new (entry pass call (O.is_starved result.0) ∷ h) }
    ensures fed { O.is_starved result.0 ≡ true → O.may_starve call ≡ true }
    ensures kept { result.1 ≡ None → (h : List (Entry O.Call))
        → IsKeeping O.stands_for (O.records (O.number object.old)) D.is_told D.seen D.may_leave object.old file.old.disk file.old.end h
        → IsKeeping O.stands_for (O.records (O.number object.old)) D.is_told D.seen D.may_leave object.new file.new.disk file.new.end (entry pass call (O.is_starved result.0) ∷ h) }
    ensures cause { HasCause result.1 file.old.end (D.faults file.old.disk) (D.faults file.new.disk) }
    ensures full { (h : List (Entry O.Call)) (place : ℕ) → O.stands_for object.old h → result.1 ≡ Some (stop.Full place) → IsPast file.old.end (O.payload_of (O.number object.old) h pass call) }
    ensures fits { (h : List (Entry O.Call)) → O.stands_for object.old h → result.1 ≡ None → IsPast file.old.end (O.payload_of (O.number object.old) h pass call) → ⊥ }
    ensures crash { (h : List (Entry O.Call))
        → IsKeeping O.stands_for (O.records (O.number object.old)) D.is_told D.seen D.may_leave object.old file.old.disk file.old.end h
        → LeavesOnly D.moment D.left_since file.old.disk file.new.disk
        (HasEither (O.records (O.number object.old) h) (O.records (O.number object.old) (entry pass call false ∷ h))) }
{
    let place = file.end;
    if place > LONGEST || frame.len() as u64 >= LONGEST - place {
        let reply = object.apply(pass, call);
        return (reply, Some(Stop::Full { place }));
    }
    let reply = object.apply(pass, call);
    if !O::accepted(&reply) {
        return (reply, None);
    }
    match file.append(&frame) {
        Put::Done => (reply, None),
        Put::Failed => (reply, Some(Stop::NotKept { place })),
    }
}
