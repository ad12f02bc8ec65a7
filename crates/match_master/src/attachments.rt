//! The attachments of a room: who looks, in which protocol, and what waits for each.

ghost use Rattle.std.specs.Prelude.{◌≡◌, ◌+◌, ◌<◌, ◌==◌, ◌∷◌, ◌++◌, [], ℕ, Bool, List, Option, option_map, length, is_some, OnOk, OnErr, IfOk, IsSome, MatchOption, MatchBool, None, Some, true, false, if◌then◌else◌, slice_get, nat_eq};
ghost use Rattle.std.specs.Map.{lookup};
ghost use Rattle.std.specs.Option.{option_copied};
ghost use Rattle.indexmap.specs.IndexMap.{insert_entry};
ghost use Rattle.game_sheet.specs.Lines.{is_line};
ghost use Rattle.game_sheet.specs.Viewer.{seat_of};
ghost use Rattle.room_history.specs.Does.{is_left};
ghost use Rattle.room_history.specs.Held.{attachment_with, attachment_take_reply};
ghost use Rattle.room_history.specs.Piece.{Mark};
ghost use Rattle.match_master.specs.Attached.{Becomes, Lines, all_held, all_left, all_ready, emptied_of, has_end, held_of, leaves, left, left_entry, open_viewer, own_told, sent, staged, taken_reply, with_staged};
ghost use Rattle.match_master.specs.Outgoing.{with_sync};
ghost use Rattle.match_master.specs.Places.{at_place};
ghost use Rattle.match_master.specs.declared.attachments.Attached.{Attached as Entry};

use crate::outbox::Outbox;
use game_sheet::{Bye, Bytes, NoMemory, Seat, Viewer, seat_of};
use indexmap::IndexMap;
use std::alloc::Global;
use std::sync::Arc;
use wire_json::Protocol;

/// One attachment.
pub struct Attached {
    /// The seat that looks, with its key; none for a spectator.
    pub viewer: Viewer,
    /// How it is told of accepted actions.
    pub protocol: Protocol,
    /// What waits for it.
    pub outbox: Outbox,
}

impl Drop for Attached {
    fn drop(self) {
        let Attached {
            viewer: _,
            protocol: _,
            outbox,
        } = self;
        drop(outbox);
    }
}

/// The attachments by pass.
pub type Attachments = IndexMap<u32, Attached>;

/// Whether a pass is attached.
#[tactic(auto, using(crate::proofs::AttachedLaws::lookup_held))]
pub fn is_attached(attachments: &Attachments, pass: u32) -> bool
    ensures { result ≡ is_some (lookup (nat_eq pass) (all_held attachments.now.entries)) }
{
    match attachments.get(&pass) {
        None => false,
        Some(_) => true,
    }
}

/// Who looks by a pass, if it is attached and its stream goes on.
#[tactic(auto, using(crate::proofs::AttachedLaws::lookup_held))]
pub fn open_viewer(attachments: &Attachments, pass: u32) -> Option<&Viewer>
    ensures { option_copied result ≡ open_viewer (lookup (nat_eq pass) (all_held attachments.now.entries)) }
{
    let Some(attached) = attachments.get(&pass) else {
        return None;
    };
    match attached.outbox.end() {
        None => Some(&attached.viewer),
        Some(_) => None,
    }
}

/// How many bytes wait for a pass, its sync line not counted; none where it isn't attached.
#[tactic(auto, using(crate::proofs::AttachedLaws::lookup_held))]
pub fn count(attachments: &Attachments, pass: u32) -> Option<usize>
    ensures { result ≡ option_map (λ a. (a.outbox).count) (lookup (nat_eq pass) (all_held attachments.now.entries)) }
{
    match attachments.get(&pass) {
        None => None,
        Some(attached) => Some(attached.outbox.count()),
    }
}

/// Attaches a pass, with its sync line.
pub fn attach(
    alloc: Global,
    attachments: &mut Attachments,
    pass: u32,
    viewer: Viewer,
    protocol: Protocol,
    sync: Arc<Vec<u8>>,
) -> Result<(), NoMemory>
    requires { is_line sync.value.items ≡ true }
    ensures ok { OnOk result (all_held attachments.new.entries
        ≡ insert_entry nat_eq (all_held attachments.old.entries) pass (record { viewer = viewer; protocol = protocol; outbox = with_sync sync.value.items })) }
    ensures err { OnErr result (all_held attachments.new.entries ≡ all_held attachments.old.entries) }
{
    let outbox = Outbox::with(alloc, sync)?;
    let attached = Attached {
        viewer,
        protocol,
        outbox,
    };
    match attachments.insert(pass, attached) {
        Ok(_) => Ok(()),
        Err(_) => Err(NoMemory),
    }
}

/// Takes out the lines that wait for a pass, with the end of its stream, if it has ended; the pass is then attached no more. None where
/// it isn't attached. It takes no memory.
pub fn take(alloc: Global, attachments: &mut Attachments, pass: u32) -> Option<(Bytes, Option<Bye>)>
    ensures reply { taken_reply result ≡ attachment_take_reply (lookup (nat_eq pass) (all_held attachments.old.entries)) }
    ensures after { Becomes pass (attachment_with Mark (lookup (nat_eq pass) (all_held attachments.old.entries)))
        (all_held attachments.old.entries) (all_held attachments.new.entries) }
{
    let taken = hand_out(alloc, attachments, pass);
    if has_ended(&taken) {
        detach(attachments, pass);
        return taken;
    }
    taken
}

/// Whether the end of a stream was handed out.
fn has_ended(taken: &Option<(Bytes, Option<Bye>)>) -> bool
    ensures { result ≡ has_end taken.now }
{
    match taken {
        None => false,
        Some((_, end)) => end.is_some(),
    }
}

/// Takes out the lines that wait for a pass, and tells how its stream ended.
fn hand_out(alloc: Global, attachments: &mut Attachments, pass: u32) -> Option<(Bytes, Option<Bye>)>
    ensures reply { taken_reply result ≡ attachment_take_reply (lookup (nat_eq pass) (all_held attachments.old.entries)) }
    ensures after { Becomes pass (option_map emptied_of (lookup (nat_eq pass) (all_held attachments.old.entries)))
        (all_held attachments.old.entries) (all_held attachments.new.entries) }
{
    let Some(place) = attachments.get_index_of(&pass) else {
        return None;
    };
    let Some(attached) = attachments.get_index_mut(place) else {
        unreachable!();
    };
    Some(attached.outbox.take(alloc))
}

/// Ends a pass's attachment; false where it has none. It takes no memory.
pub fn detach(attachments: &mut Attachments, pass: u32) -> bool
    ensures was { result ≡ is_some (lookup (nat_eq pass) (all_held attachments.old.entries)) }
    ensures gone { Becomes pass None (all_held attachments.old.entries) (all_held attachments.new.entries) }
{
    let was = is_attached(attachments, pass);
    let _gone = attachments.shift_remove(&pass);
    was
}

/// Tells a pass a line alone, if it is attached.
pub fn tell_own(
    attachments: &mut Attachments,
    pass: u32,
    line: &Arc<Vec<u8>>,
) -> Result<(), NoMemory>
    requires { is_line line.now.value.items ≡ true }
    ensures ok { OnOk result (all_held attachments.new.entries ≡ own_told pass line.now.value.items (all_held attachments.old.entries)) }
    ensures err { OnErr result (all_held attachments.new.entries ≡ all_held attachments.old.entries) }
{
    let Some(place) = attachments.get_index_of(&pass) else {
        return Ok(());
    };
    let Some(attached) = attachments.get_index_mut(place) else {
        unreachable!();
    };
    attached.outbox.unstage();
    attached.outbox.stage(line)?;
    attached.outbox.commit();
    Ok(())
}

/// Who looks by the attachment at a place, and in which protocol.
pub fn viewer_at(attachments: &Attachments, place: usize) -> (Option<Seat>, Protocol)
    requires { place < length attachments.now.entries }
    ensures { (e : ℕ × Entry) → slice_get attachments.now.entries place ≡ Some e → result ≡ (seat_of (e.1).viewer, (e.1).protocol) }
{
    match attachments.get_index(place) {
        Some((_, attached)) => (seat_of(&attached.viewer), attached.protocol),
        None => unreachable!(),
    }
}

/// Whether the attachment at a place is the pass's own.
fn is_own(attachments: &Attachments, place: usize, pass: u32) -> bool
    requires { place < length attachments.now.entries }
    ensures { (e : ℕ × Entry) → slice_get attachments.now.entries place ≡ Some e → result ≡ (e.0 == pass) }
{
    match attachments.get_index(place) {
        Some((key, _)) => *key == pass,
        None => unreachable!(),
    }
}

/// Stages at the attachment at a place the line for its viewer and, where it is the pass's own, the verdict. What waits is as before.
pub fn stage_at(
    attachments: &mut Attachments,
    place: usize,
    pass: u32,
    verdict: &Arc<Vec<u8>>,
    line: &Arc<Vec<u8>>,
) -> Result<(), NoMemory>
    requires within { place < length attachments.old.entries }
    requires verdict { is_line verdict.now.value.items ≡ true }
    requires line { is_line line.now.value.items ≡ true }
    ensures same { all_held attachments.new.entries ≡ all_held attachments.old.entries }
    ensures staged { OnOk result ((lines : Lines) → ((e : ℕ × Entry) → slice_get attachments.old.entries place ≡ Some e → line.now.value.items ≡ lines (seat_of (e.1).viewer) (e.1).protocol)
        → attachments.new.entries ≡ at_place place (staged pass verdict.now.value.items lines) attachments.old.entries) }
{
    let own = is_own(attachments, place, pass);
    let Some(attached) = attachments.get_index_mut(place) else {
        unreachable!();
    };
    stage(attached, own, verdict, line)
}

/// Stages at an attachment a line and, where it is one's own, the verdict.
fn stage(
    attached: &mut Attached,
    own: bool,
    verdict: &Arc<Vec<u8>>,
    line: &Arc<Vec<u8>>,
) -> Result<(), NoMemory>
    requires verdict { is_line verdict.now.value.items ≡ true }
    requires line { is_line line.now.value.items ≡ true }
    ensures held { held_of attached.new ≡ held_of attached.old }
    ensures staged { OnOk result (attached.new ≡ with_staged own verdict.now.value.items line.now.value.items attached.old) }
{
    attached.outbox.unstage();
    attached.outbox.stage(line)?;
    if own {
        attached.outbox.stage(verdict)?;
    }
    Ok(())
}

/// Lets wait, at each attachment, what is staged there. It takes no memory.
pub fn commit_all(attachments: &mut Attachments)
    ensures { all_held attachments.new.entries ≡ all_ready attachments.old.entries }
{
    let count = attachments.len();
    for place in 0..count {
        commit_at(attachments, place);
    }
}

/// Lets wait, at the attachment at a place, what is staged there.
fn commit_at(attachments: &mut Attachments, place: usize)
    requires { place < length attachments.old.entries }
    ensures { attachments.new.entries ≡ at_place place sent attachments.old.entries }
{
    let Some(attached) = attachments.get_index_mut(place) else {
        unreachable!();
    };
    attached.outbox.commit();
}

/// Ends the attachments of a seat that is left, or all of them where the match is removed (`None`). It takes no memory.
pub fn leave_all(attachments: &mut Attachments, who: Option<Seat>)
    ensures { all_held attachments.new.entries ≡ all_left who (all_held attachments.old.entries) }
{
    let count = attachments.len();
    for place in 0..count {
        leave_at(attachments, place, who);
    }
}

/// Ends the attachment at a place, if it is one of those that leave.
fn leave_at(attachments: &mut Attachments, place: usize, who: Option<Seat>)
    requires { place < length attachments.old.entries }
    ensures many { length attachments.new.entries ≡ length attachments.old.entries }
    ensures left { all_held attachments.new.entries ≡ at_place place (left_entry who) (all_held attachments.old.entries) }
{
    let Some(attached) = attachments.get_index_mut(place) else {
        unreachable!();
    };
    leave(attached, who);
}

/// Ends an attachment, if it is one of those that leave.
fn leave(attached: &mut Attached, who: Option<Seat>)
    ensures { held_of attached.new ≡ left who (held_of attached.old) }
{
    if leaves(who, &attached.viewer) {
        attached.outbox.close(Bye::Left);
    }
}

/// Whether a viewer is one of those that leave.
fn leaves(who: Option<Seat>, viewer: &Viewer) -> bool
    ensures { result ≡ leaves who viewer.now }
{
    match who {
        None => true,
        Some(seat) => is_of(viewer, seat),
    }
}

/// Whether a viewer is the player of a seat.
fn is_of(viewer: &Viewer, seat: Seat) -> bool
    ensures { result ≡ is_left seat false viewer.now }
{
    match viewer {
        None => false,
        Some((own, _)) => *own == seat,
    }
}
